// Calls of a book on a shared history, and where its session stands after each.
ghost use Rattle.std.specs.Prelude.{◌≡◌, OnOk};
ghost use Rattle.sound_table.specs.Sound.{IsSound};
ghost use Rattle.history_core.specs.Events.{table_of};
ghost use Rattle.history_core.specs.Initial.{IsStorable};
ghost use Rattle.history_book.specs.Book.{no_session, IsIdle};
ghost use Rattle.shared_book.specs.Books.{past_of};
ghost use Rattle.seat_samples.specs.SessionStates.{IsReady, IsFresh, IsBusy};
ghost use Rattle.shared_cases.specs.Passes.{SamePass};

use cell_base::{Cell, Level, Value};
use history_book::Book;
use history_core::BookFault;
use seat_samples::touch_by;
use shared_book::SharedBook;
use sql_tree::Table;
use std::sync::Wait;

/// Opens a session.
pub fn open<R: Wait>(book: &mut SharedBook<'_, R>) -> Result<u32, BookFault>
    requires { book.old.state ≡ no_session }
    ensures idle { OnOk result (IsIdle book.new.state) }
    ensures pass { SamePass book.old.pass book.new.pass }
{
    book.open()
}

/// Defines the table.
pub fn define<R: Wait>(book: &mut SharedBook<'_, R>, table: &Table) -> Result<(), BookFault>
    requires idle { IsIdle book.old.state }
    requires sound { IsSound table.now }
    ensures idle { OnOk result (IsIdle book.new.state) }
    ensures pass { SamePass book.old.pass book.new.pass }
{
    match book.define(table) {
        Ok(_) => Ok(()),
        Err(fault) => Err(fault),
    }
}

/// Looks at the tables, of which there has to be one.
pub fn look<R: Wait>(book: &mut SharedBook<'_, R>) -> Result<(), BookFault>
    requires { IsIdle book.old.state }
    ensures ready { OnOk result (IsReady (past_of book.new)) }
    ensures pass { SamePass book.old.pass book.new.pass }
{
    match book.look(0) {
        Ok(tables) => {
            if tables.len() == 0 {
                Err(BookFault::Memory)
            } else {
                Ok(())
            }
        }
        Err(fault) => Err(fault),
    }
}

/// Begins a transaction at Read Committed.
pub fn begin<R: Wait>(book: &mut SharedBook<'_, R>) -> Result<(), BookFault>
    requires { IsReady (past_of book.old) }
    ensures fresh { OnOk result (IsFresh (past_of book.new)) }
    ensures pass { SamePass book.old.pass book.new.pass }
{
    match book.begin(Level::Rc) {
        Ok(_) => Ok(()),
        Err(fault) => Err(fault),
    }
}

/// Reads a cell before the first write.
pub fn read<R: Wait>(
    book: &mut SharedBook<'_, R>,
    cell: &Cell,
    word: u32,
) -> Result<Value, BookFault>
    requires fresh { IsFresh (past_of book.old) }
    requires table { table_of cell.now ≡ 0 }
    ensures fresh { OnOk result (IsFresh (past_of book.new)) }
    ensures pass { SamePass book.old.pass book.new.pass }
{
    touch_by(book, cell, word)
}

/// Writes a cell.
pub fn write<R: Wait>(
    book: &mut SharedBook<'_, R>,
    cell: Cell,
    value: Value,
) -> Result<(), BookFault>
    requires busy { IsBusy (past_of book.old) }
    requires table { table_of cell ≡ 0 }
    requires storable { IsStorable value }
    ensures busy { OnOk result (IsBusy (past_of book.new)) }
    ensures pass { SamePass book.old.pass book.new.pass }
{
    book.write(cell, value)
}

/// Commits.
pub fn commit<R: Wait>(book: &mut SharedBook<'_, R>)
    requires { IsBusy (past_of book.old) }
    ensures ready { IsReady (past_of book.new) }
    ensures pass { SamePass book.old.pass book.new.pass }
{
    book.commit();
}

/// Closes the session.
pub fn close<R: Wait>(book: &mut SharedBook<'_, R>)
    requires { IsReady (past_of book.old) }
    ensures none { book.new.state ≡ no_session }
    ensures pass { SamePass book.old.pass book.new.pass }
{
    book.close();
}
