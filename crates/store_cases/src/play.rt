// Calls of several sessions in order, each with what it is offered and what it tells.
ghost use Rattle.std.specs.Prelude.{◌≡◌};
ghost use Rattle.history_core.specs.Events.{table_of};
ghost use Rattle.history_core.specs.Transactions.{HasPending};
ghost use Rattle.history_book.specs.Book.{IsInTransaction, HasTable};

use crate::keys::are_integers;
use crate::start::stage;
use cell_base::{Cell, Level, Value};
use held_values::{kept, let_go};
use history_book::Book;
use history_core::{BookFault, Event};
use seat_samples::{Stop, busy_seat, idle_seat, misplaced, touch_by, unlike};
use std::alloc::Global;
use table_samples::Spot;
use valid_writes::{SeatBook, Store};

/// A call, with what is expected of it. A number that a cell has is read as `Spot::value` says.
#[derive(Clone, Copy)]
pub enum Call {
    /// Starts a transaction at the served level.
    Begin,
    /// Starts a transaction at the level.
    At(Level),
    /// A scan of the table, which lists these keys.
    Scan(&'static [i64]),
    /// A read of the cell, which is offered these writes, by the word, and gives the number.
    Read(Spot, &'static [u32], u32, i64),
    /// A read of what the transaction has written to the cell, which gives the number.
    Own(Spot, i64),
    /// A write of the number.
    Write(Spot, i64),
    /// A commit.
    Commit,
    /// A rollback.
    RollBack,
}

/// Calls in order, each in its session.
pub type Calls = &'static [(u32, Call)];

/// A case: calls in order over a new store, in which five sessions are open.
#[derive(Clone, Copy)]
pub struct Case {
    /// The levels at which it goes so.
    pub levels: &'static [Level],
    /// Whether the rows 1 with 10 and 2 with 20 are there from the start.
    pub has_rows: bool,
    /// What goes before.
    pub before: Calls,
    /// What it is about.
    pub calls: Calls,
}

/// Plays the cases; the first call that isn't answered as its case says ends it.
pub fn hold(alloc: Global, cases: &[Case]) -> Result<(), Stop> {
    for case in cases {
        hold_one(alloc, case)?;
    }
    Ok(())
}

/// Plays the case at each of its levels.
fn hold_one(alloc: Global, case: &Case) -> Result<(), Stop> {
    for level in case.levels {
        let_go(play(alloc, *level, case))?;
    }
    Ok(())
}

/// The store after the case.
pub fn play(alloc: Global, level: Level, case: &Case) -> Result<Store, Stop> {
    let store = stage(alloc, level, case.has_rows)?;
    let store = play_all(store, case.before)?;
    play_all(store, case.calls)
}

/// Makes the calls.
fn play_all(store: Store, calls: Calls) -> Result<Store, Stop> {
    let mut store = store;
    for (session, call) in calls {
        store = play_one(store, *session, *call)?;
    }
    Ok(store)
}

/// Makes one call.
fn play_one(store: Store, session: u32, call: Call) -> Result<Store, Stop> {
    match call {
        Call::Begin => {
            let level = store.history().level();
            begin(store, session, level)
        }
        Call::At(level) => begin(store, session, level),
        _ => go_on(store, session, call),
    }
}

fn begin(store: Store, session: u32, level: Level) -> Result<Store, Stop> {
    let mut book = idle_seat(store, session)?;
    let begun = let_go(book.begin(level));
    Ok(kept(book.into_store(), begun)?)
}

/// Makes a call in the pending transaction.
fn go_on(store: Store, session: u32, call: Call) -> Result<Store, Stop> {
    let offered = be_offered(&store, session, call);
    answer(kept(store, offered)?, session, call)
}

fn answer(store: Store, session: u32, call: Call) -> Result<Store, Stop> {
    let mut book = busy_seat(store, session)?;
    let answered = be_answered(&mut book, call);
    kept(book.into_store(), answered)
}

/// Ends the case where a read isn't offered what it says.
fn be_offered(store: &Store, session: u32, call: Call) -> Result<(), Stop> {
    if is_offered(store, session, call)? {
        return Ok(());
    }
    Err(unlike(store.history()))
}

/// Makes the call, and ends the case where it doesn't give what it is to give.
fn be_answered(book: &mut SeatBook, call: Call) -> Result<(), Stop>
    requires pending { IsInTransaction book.old.state }
    requires table { HasTable book.old 0 }
{
    if act(book, call)? {
        return Ok(());
    }
    Err(unlike(book.history()))
}

/// Whether a read is offered what it says; other calls are offered nothing.
fn is_offered(store: &Store, session: u32, call: Call) -> Result<bool, Stop> {
    match call {
        Call::Read(spot, want, _, _) => offers(store, session, spot, want),
        _ => Ok(true),
    }
}

/// Whether the pending transaction of the session may read just these writes next.
fn offers(store: &Store, session: u32, spot: Spot, want: &[u32]) -> Result<bool, Stop> {
    match store.history().pending(session) {
        Some(_) => offers_at(store, session, &spot.cell(), want),
        None => Err(misplaced(store.history())),
    }
}

fn offers_at(store: &Store, session: u32, cell: &Cell, want: &[u32]) -> Result<bool, Stop>
    requires { HasPending store.now.events session }
{
    Ok(store.offer(session, cell)?.as_slice() == want)
}

/// Makes the call, and tells whether it gave what it is to give.
fn act(book: &mut SeatBook, call: Call) -> Result<bool, BookFault>
    requires pending { IsInTransaction book.old.state }
    requires table { HasTable book.old 0 }
{
    match call {
        Call::Scan(want) => scan(book, want),
        Call::Read(spot, offered, word, number) => read(book, spot, offered, word, number),
        Call::Own(spot, number) => own(book, spot, number),
        Call::Write(spot, number) => write(book, spot, number),
        Call::Commit => {
            book.commit();
            Ok(true)
        }
        Call::RollBack => {
            book.rollback();
            Ok(true)
        }
        Call::Begin => Ok(false),
        Call::At(_) => Ok(false),
    }
}

/// Scans the table. No where other keys are listed.
fn scan(book: &mut SeatBook, want: &[i64]) -> Result<bool, BookFault>
    requires pending { IsInTransaction book.old.state }
    requires table { HasTable book.old 0 }
{
    Ok(are_integers(book.scan(0)?.as_slice(), want))
}

fn write(book: &mut SeatBook, spot: Spot, number: i64) -> Result<bool, BookFault>
    requires pending { IsInTransaction book.old.state }
    requires table { HasTable book.old 0 }
{
    book.write(spot.cell(), spot.written(number))?;
    Ok(true)
}

/// Reads the cell by the word. No where the transaction has written it, or something else is told.
fn read(
    book: &mut SeatBook,
    spot: Spot,
    offered: &[u32],
    word: u32,
    number: i64,
) -> Result<bool, BookFault>
    requires pending { IsInTransaction book.old.state }
    requires table { HasTable book.old 0 }
{
    let reads = reads(book, &spot.cell(), word, &spot.value(number));
    Ok(reads? && is_told(book, offered, word))
}

fn reads(book: &mut SeatBook, cell: &Cell, word: u32, want: &Value) -> Result<bool, BookFault>
    requires pending { IsInTransaction book.old.state }
    requires table { HasTable book.old 0 }
    requires cell { table_of cell.now ≡ 0 }
{
    Ok(touch_by(book, cell, word)?.is_same(want))
}

/// Reads what the transaction has written to the cell. No where it hasn't, or another value is told.
fn own(book: &mut SeatBook, spot: Spot, number: i64) -> Result<bool, BookFault>
    requires pending { IsInTransaction book.old.state }
    requires table { HasTable book.old 0 }
{
    let reads = reads(book, &spot.cell(), 0, &spot.value(number));
    Ok(reads? && is_own(book))
}

/// Whether the last event is an own read.
fn is_own(book: &SeatBook) -> bool {
    matches!(book.history().events().last(), Some(Event::Own { .. }))
}

/// Whether the last event is a read that takes the one of the offered writes that the word picks.
fn is_told(book: &SeatBook, offered: &[u32], by: u32) -> bool {
    match book.history().events().last() {
        Some(
            Event::Read {
                source,
                count,
                word,
                ..
            },
        ) => {
            *count as usize == offered.len() && *word == by && picked(offered, by) == Some(*source)
        }
        _ => false,
    }
}

/// The write that the word picks.
fn picked(offered: &[u32], word: u32) -> Option<u32> {
    if offered.is_empty() {
        return None;
    }
    offered.get(word as usize % offered.len()).copied()
}
