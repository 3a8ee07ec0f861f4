// A touch of a cell: an own write is read back, and another cell is read by the next word.
ghost use Rattle.std.specs.Prelude.{◌≡◌, ◌<◌, length, Some, Err, OnErr};
ghost use Rattle.history_core.specs.declared.fault.Limit.{Limit};
ghost use Rattle.history_core.specs.Events.{table_of};
ghost use Rattle.history_core.specs.Legal.{full_load};
ghost use Rattle.history_book.specs.Book.{GoesOn, AnswersTouch};
ghost use Rattle.valid_writes.specs.declared.desk.Stage.TheVariants as stages;
ghost use Rattle.valid_writes.specs.Desk.{IsDesk, past_of};
ghost use Rattle.valid_writes.specs.Owning.{OwnsAllThatComes};

use crate::desk::Desk;
use crate::own::{own_cell, wrote_itself};
use crate::reading::read_cell;
use cell_base::{Cell, Value};
use history_book::Words;
use history_core::BookFault;

/// Reads a cell: what the pending transaction wrote to it last, or where it wrote nothing to it, what the next word picks. That word
/// is drawn also where the read is refused.
pub fn touch_cell<W: Words>(desk: &mut Desk, words: &mut W, cell: &Cell) -> Result<Value, BookFault>
    requires kept { IsDesk desk.old }
    requires pending { desk.old.stage ≡ stages.Pending }
    requires defined { table_of cell.now < length desk.old.store.history.tables }
    ensures kept { IsDesk desk.new }
    ensures answers { AnswersTouch W.gives (past_of desk.old) words.old cell.now result (past_of desk.new) words.new }
    ensures state { (past_of desk.new).state ≡ (past_of desk.old).state }
    ensures err { OnErr result (GoesOn (past_of desk.old) (past_of desk.new)) }
    ensures full { (limit : Limit) → result ≡ Err (BookFault.Full limit) → full_load desk.new.store.history.initial desk.new.store.history.events ≡ Some limit }
    ensures owns { OwnsAllThatComes (past_of desk.old) (past_of desk.new) }
{
    if wrote_itself(desk.store.history.history(), desk.session, cell) {
        own_cell(desk, cell)
    } else {
        let word = words.next();
        read_cell(desk, cell, word)
    }
}
