// What is shown as text.
use crate::line::Line;
use cell_base::{Items, SqlFault};
use std::alloc::{AllocError, Global};
use std::fmt::Debug;

/// What has a text. A tree may be shown in several ways, so `Way` is a type of the crate that shows it.
pub trait Shown<Way> {
    /// Adds the text to the line.
    fn push(&self, line: &mut Line);
}

/// Each of them, after the word.
pub fn each<Way, T: Shown<Way>>(line: &mut Line, word: &str, all: &Items<T>) {
    for one in all.as_slice() {
        line.word(word);
        one.push(line);
    }
}

/// A value as `Debug` writes it: the name of a code or a fault, the digits of a number.
pub fn named<T: Debug>(alloc: Global, value: &T) -> Result<String, AllocError> {
    format!(in alloc; "{value:?}")
}

/// The name of the fault's code, or that memory ran out.
pub fn fault_shown(alloc: Global, fault: SqlFault) -> Result<String, AllocError> {
    match fault {
        SqlFault::State(code) => named(alloc, &code),
        SqlFault::Memory => String::from_str(alloc, "memory"),
    }
}
