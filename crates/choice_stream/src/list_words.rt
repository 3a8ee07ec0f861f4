// Choice words from a list.
ghost use Rattle.std.specs.Prelude.{◌≡◌, List, ℕ, drop};
ghost use Rattle.choice_stream.specs.Choices.{DrawsFirst};

use cell_base::Items;
use history_book::Words;
use std::marker::Model;

/// The words of a list, in order, and then 0 for ever.
#[derive(Debug, Drop)]
pub struct ListWords {
    words: Items<u32>,
    at: usize,
}

impl Model for ListWords {
    ghost Value = { List ℕ };

    ghost view = { λ w. drop w.at w.words };
}

impl ListWords {
    /// The words of this list, none of which was drawn.
    pub fn new(words: Items<u32>) -> ListWords
        ensures { result ≡ words }
    {
        ListWords { words, at: 0 }
    }
}

impl Words for ListWords {
    ghost gives = { DrawsFirst };

    fn next(&mut self) -> u32 {
        let words = self.words.as_slice();
        if self.at < words.len() {
            let word = words[self.at];
            self.at += 1;
            word
        } else {
            0
        }
    }
}
