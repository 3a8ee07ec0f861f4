// How typed trees are shown.
use case_lines::{Line, Shown, each};
use cell_base::Items;
use std::alloc::{AllocError, Global};

/// The way in which trees are shown here: with all types.
pub struct WithTypes;

/// Each of them after a blank, and the word before them, where there are any.
pub fn listed<T: Shown<WithTypes>>(line: &mut Line, word: &str, all: &Items<T>) {
    if all.len() > 0 {
        line.word(word);
    }
    each::<WithTypes, _>(line, " ", all);
}

/// The text of a tree.
pub fn text<T: Shown<WithTypes>>(alloc: Global, tree: &T) -> Result<String, AllocError> {
    let mut line = Line::new(alloc);
    tree.push(&mut line);
    line.whole()
}
