//! Stores of which calls are timed, and the call of an offer.
ghost use Rattle.std.specs.Prelude.{IfOk, OnOk};
ghost use Rattle.history_core.specs.Transactions.{HasPending};
ghost use Rattle.seat_samples.specs.SessionStates.{IsReady};

use cell_base::{Cell, Level, Memory};
use held_values::kept;
use history_core::InitialState;
use seat_samples::{Stop, begin, idle_seat, read_many, with_table, write_alone, write_many};
use std::alloc::Global;
use valid_writes::{SeatBook, Store};

/// A book with an open session and the table `t`.
pub(crate) fn start(alloc: Global) -> Result<SeatBook, Stop>
    ensures { IfOk result IsReady }
{
    let store = Store::new(alloc, Level::Cc, InitialState::empty(alloc))?;
    idle_seat(with_table(alloc, store)?, 1)
}

/// So many transactions that read the cell, each by the word 1.
pub(crate) fn read_cell(book: &mut SeatBook, level: Level, count: u32) -> Result<(), Stop>
    requires { IsReady book.old }
    ensures { OnOk result (IsReady book.new) }
{
    read_many(book, level, 1, count)
}

/// So many transactions, of which the first one writes the cell that the others read.
pub(crate) fn fill(book: &mut SeatBook, level: Level, size: u32) -> Result<(), Stop>
    requires { IsReady book.old }
    ensures { OnOk result (IsReady book.new) }
{
    write_alone(book, level)?;
    read_cell(book, level, size.saturating_sub(1))?;
    Ok(())
}

/// A store in which so many transactions wrote the cell, and a further one of their session is pending.
pub(crate) fn written(alloc: Global, level: Level, writers: u32) -> Result<Store, Stop> {
    let mut book = start(alloc)?;
    let wrote = write_and_begin(&mut book, level, writers);
    kept(book.into_store(), wrote)
}

fn write_and_begin(book: &mut SeatBook, level: Level, writers: u32) -> Result<(), Stop>
    requires { IsReady book.old }
{
    write_many(book, level, writers)?;
    begin(book, level)
}

/// How many writes of the cell the pending transaction of session 1 is offered.
pub(crate) fn count_offered(store: &Store, cell: &Cell) -> Result<usize, Memory> {
    match store.history().pending(1) {
        Some(_) => count_offer(store, cell),
        None => Ok(0),
    }
}

fn count_offer(store: &Store, cell: &Cell) -> Result<usize, Memory>
    requires { HasPending store.now.events 1 }
{
    Ok(store.offer(1, cell)?.len())
}
