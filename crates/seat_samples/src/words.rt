// Words of a test, and a touch by one.
ghost use Rattle.std.specs.Prelude.{◌≡◌, ℕ};
ghost use Rattle.history_core.specs.Events.{table_of};
ghost use Rattle.history_book.specs.Book.{IsInTransaction, HasTable};

use cell_base::{Cell, Value};
use history_book::{Book, Words};
use history_core::BookFault;

/// Words that are all the same.
#[derive(Clone, Copy, Debug)]
pub struct SameWords {
    pub word: u32,
}

impl Words for SameWords {
    ghost use Rattle.std.specs.Prelude.{◌≡◌};

    ghost gives = { λ before word after. (word ≡ before.word) × (after ≡ before) };

    fn next(&mut self) -> u32 {
        self.word
    }
}

/// Reads the cell, by the word where the pending transaction hasn't written it.
pub fn touch_by<B: Book>(book: &mut B, cell: &Cell, word: u32) -> Result<Value, BookFault>
    requires pending { IsInTransaction (B.past book.old).state }
    requires defined { HasTable (B.past book.old) (table_of cell.now) }
    ensures state { (B.past book.new).state ≡ (B.past book.old).state }
    ensures tables { (table : ℕ) → HasTable (B.past book.old) table → HasTable (B.past book.new) table }
    ensures stays { B.stays book.old book.new }
{
    let mut words = SameWords { word };
    book.touch(&mut words, cell)
}
