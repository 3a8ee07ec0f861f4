// Calls of a seat, each by the step that it is.
ghost use Rattle.std.specs.Prelude.{◌≡◌};
ghost use Rattle.history_core.specs.Events.{table_of};
ghost use Rattle.seat_samples.specs.SessionStates.{IsBusy};

use cell_base::{Cell, Value};
use held_values::{let_go, without};
use history_book::Book;
use history_core::BookFault;
use seat_samples::{Stop, misplaced, touch_by};
use table_samples::{field, presence};
use valid_writes::SeatBook;

/// What a session does next.
#[derive(Clone, Copy)]
pub enum Step {
    /// It opens, and defines the table.
    OpenFirst,
    /// It opens.
    Open,
    /// It begins a transaction at Read Committed.
    Begin,
    /// It reads the presence by the word.
    Find(u32),
    /// It reads the field by the word.
    Read(u32),
    /// It writes that the row is there.
    Make,
    /// It writes the number to the field.
    Write(i64),
    /// It commits.
    Commit,
    /// It rolls back.
    RollBack,
}

/// Makes the step in the pending transaction. Others than these can't be made there.
pub fn act(book: &mut SeatBook, step: Step) -> Result<(), Stop>
    requires { IsBusy book.old }
{
    match step {
        Step::Find(word) => read(book, presence(), word),
        Step::Read(word) => read(book, field(), word),
        Step::Make => told(book.write(presence(), Value::Flag(true))),
        Step::Write(number) => told(book.write(field(), Value::Int(number))),
        Step::Commit => {
            book.commit();
            Ok(())
        }
        Step::RollBack => {
            book.rollback();
            Ok(())
        }
        _ => Err(misplaced(book.history())),
    }
}

fn told(came: Result<(), BookFault>) -> Result<(), Stop> {
    Ok(came?)
}

/// Reads a cell.
fn read(book: &mut SeatBook, cell: Cell, word: u32) -> Result<(), Stop>
    requires busy { IsBusy book.old }
    requires table { table_of cell ≡ 0 }
{
    let read = read_at(book, &cell, word);
    without(cell, read)
}

fn read_at(book: &mut SeatBook, cell: &Cell, word: u32) -> Result<(), Stop>
    requires busy { IsBusy book.old }
    requires table { table_of cell.now ≡ 0 }
{
    Ok(let_go(touch_by(book, cell, word))?)
}
