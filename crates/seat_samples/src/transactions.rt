// Transactions of a session, one call a function.
ghost use Rattle.std.specs.Prelude.{OnOk};
ghost use Rattle.seat_samples.specs.SessionStates.{IsReady, IsFresh, IsBusy};

use crate::stop::Stop;
use crate::words::touch_by;
use cell_base::{Level, Value};
use history_book::Book;
use table_samples::presence;
use valid_writes::SeatBook;

/// So many transactions that write the presence of row 1.
pub fn write_many(book: &mut SeatBook, level: Level, count: u32) -> Result<(), Stop>
    requires { IsReady book.old }
    ensures { OnOk result (IsReady book.new) }
{
    for _ in 0..count {
        write_alone(book, level)?;
    }
    Ok(())
}

/// A transaction that writes the presence of row 1.
pub fn write_alone(book: &mut SeatBook, level: Level) -> Result<(), Stop>
    requires { IsReady book.old }
    ensures { OnOk result (IsReady book.new) }
{
    begin(book, level)?;
    write(book)?;
    commit(book);
    Ok(())
}

/// So many transactions that read it by the word.
pub fn read_many(book: &mut SeatBook, level: Level, word: u32, count: u32) -> Result<(), Stop>
    requires { IsReady book.old }
    ensures { OnOk result (IsReady book.new) }
{
    for _ in 0..count {
        read_alone(book, level, word)?;
    }
    Ok(())
}

/// A transaction that reads it by the word.
pub fn read_alone(book: &mut SeatBook, level: Level, word: u32) -> Result<(), Stop>
    requires { IsReady book.old }
    ensures { OnOk result (IsReady book.new) }
{
    begin(book, level)?;
    read(book, word)?;
    commit(book);
    Ok(())
}

/// Starts a transaction.
pub fn begin(book: &mut SeatBook, level: Level) -> Result<(), Stop>
    requires { IsReady book.old }
    ensures { OnOk result (IsFresh book.new) }
{
    match book.begin(level) {
        Ok(_) => Ok(()),
        Err(fault) => Err(Stop::from(fault)),
    }
}

fn read(book: &mut SeatBook, word: u32) -> Result<(), Stop>
    requires { IsFresh book.old }
    ensures { OnOk result (IsBusy book.new) }
{
    match touch_by(book, &presence(), word) {
        Ok(_) => Ok(()),
        Err(fault) => Err(Stop::from(fault)),
    }
}

fn write(book: &mut SeatBook) -> Result<(), Stop>
    requires { IsFresh book.old }
    ensures { OnOk result (IsBusy book.new) }
{
    match book.write(presence(), Value::Flag(true)) {
        Ok(()) => Ok(()),
        Err(fault) => Err(Stop::from(fault)),
    }
}

fn commit(book: &mut SeatBook)
    requires { IsBusy book.old }
    ensures { IsReady book.new }
{
    book.commit();
}
