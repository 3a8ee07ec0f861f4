// Calls of a store's sessions, one a function.
ghost use Rattle.history_core.specs.Events.{table_of};
ghost use Rattle.history_book.specs.Book.{IsInTransaction, HasTable};
ghost use Rattle.seat_samples.specs.SessionStates.{IsBusy};

use cell_base::{Cell, Level};
use held_values::{kept, let_go, without};
use history_book::Book;
use history_core::{BookFault, Limit};
use seat_samples::{Stop, busy_seat, idle_seat, touch_by};
use table_samples::Spot;
use valid_writes::{SeatBook, Store};

/// A call in a pending transaction.
#[derive(Clone, Copy)]
pub enum Call {
    /// A scan of the table.
    Scan,
    /// A read of the cell: what the transaction has written to it, or else what the word picks.
    See(Spot, u32),
    /// A write of what the number stands for.
    Write(Spot, i64),
    /// A look at the tables.
    Look,
    /// The number of the event that tells it.
    Show,
    /// A commit.
    Commit,
    /// A rollback.
    RollBack,
}

/// Starts a transaction of the session.
pub fn begin(store: Store, session: u32, level: Level) -> Result<Store, Stop> {
    let mut book = idle_seat(store, session)?;
    let came = let_go(book.begin(level));
    kept(book.into_store(), told(came))
}

/// Makes the call.
pub fn go_on(store: Store, session: u32, call: Call) -> Result<Store, Stop> {
    let mut book = busy_seat(store, session)?;
    let came = act(&mut book, call);
    kept(book.into_store(), told(came))
}

/// Makes the call, which is to be refused since the load has no room for it.
pub fn is_refused(store: Store, session: u32, call: Call) -> Result<Store, Stop> {
    let mut book = busy_seat(store, session)?;
    let came = act(&mut book, call);
    kept(book.into_store(), refused(came))
}

/// What a call came to that is to succeed.
fn told(came: Result<(), BookFault>) -> Result<(), Stop> {
    Ok(came?)
}

/// What a call came to that is to be refused since the load has no room for it.
pub fn refused(came: Result<(), BookFault>) -> Result<(), Stop> {
    match came {
        Err(BookFault::Full(Limit::Load)) => Ok(()),
        Err(fault) => Err(Stop::from(fault)),
        Ok(()) => Err(Stop::Accepted),
    }
}

fn act(book: &mut SeatBook, call: Call) -> Result<(), BookFault>
    requires { IsBusy book.old }
{
    match call {
        Call::Scan => let_go(book.scan(0)),
        Call::See(spot, word) => see(book, spot, word),
        Call::Write(spot, number) => write(book, spot, number),
        Call::Look => let_go(book.look(0)),
        Call::Show => let_go(book.show()),
        Call::Commit => {
            book.commit();
            Ok(())
        }
        Call::RollBack => {
            book.rollback();
            Ok(())
        }
    }
}

fn write(book: &mut SeatBook, spot: Spot, number: i64) -> Result<(), BookFault>
    requires { IsBusy book.old }
{
    book.write(spot.cell(), spot.written(number))
}

fn see(book: &mut SeatBook, spot: Spot, word: u32) -> Result<(), BookFault>
    requires { IsBusy book.old }
{
    let cell = spot.cell();
    let seen = see_cell(book, &cell, word);
    without(cell, seen)
}

fn see_cell(book: &mut SeatBook, cell: &Cell, word: u32) -> Result<(), BookFault>
    requires pending { IsInTransaction book.old.state }
    requires table { HasTable book.old (table_of cell.now) }
{
    let_go(touch_by(book, cell, word))
}
