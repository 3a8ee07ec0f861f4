// Two books on one history: in one thread by turns, and in two threads.
ghost use Rattle.std.specs.Prelude.{◌≡◌, ◌+◌, IfOk, OnOk};
ghost use Rattle.sound_table.specs.Sound.{IsSound};
ghost use Rattle.history_book.specs.Book.{no_session, IsIdle};
ghost use Rattle.shared_book.specs.Books.{past_of};
ghost use Rattle.seat_samples.specs.SessionStates.{IsReady, IsFresh, IsBusy};
ghost use Rattle.shared_cases.specs.Passes.{SamePass, ArePassesOf};

use crate::calls::{begin, close, commit, define, look, open, read, write};
use crate::lines::{Line, are_lines, is_whole};
use cell_base::{Level, Value};
use held_values::without;
use history_core::{BookFault, Event, InitialState};
use seat_samples::{Stop, with_table};
use shared_book::{Pass, Shared, SharedBook};
use sql_tree::Table;
use std::alloc::Global;
use std::sync::Wait;
use std::thread::{Threads, join};
use table_samples::{field, presence, table};
use valid_writes::Store;

/// Session 1 opens (1), defines the table (2) and looks (3).
fn set_up<R: Wait>(book: &mut SharedBook<'_, R>, table: &Table) -> Result<(), BookFault>
    requires none { book.old.state ≡ no_session }
    requires sound { IsSound table.now }
    ensures ready { OnOk result (IsReady (past_of book.new)) }
    ensures pass { SamePass book.old.pass book.new.pass }
{
    match open(book) {
        Ok(_) => define_and_look(book, table),
        Err(fault) => Err(fault),
    }
}

fn define_and_look<R: Wait>(book: &mut SharedBook<'_, R>, table: &Table) -> Result<(), BookFault>
    requires idle { IsIdle book.old.state }
    requires sound { IsSound table.now }
    ensures ready { OnOk result (IsReady (past_of book.new)) }
    ensures pass { SamePass book.old.pass book.new.pass }
{
    define(book, table)?;
    look(book)
}

/// A session opens and looks. The answer is its number.
fn enter<R: Wait>(book: &mut SharedBook<'_, R>) -> Result<u32, BookFault>
    requires { book.old.state ≡ no_session }
    ensures ready { OnOk result (IsReady (past_of book.new)) }
    ensures pass { SamePass book.old.pass book.new.pass }
{
    let session = open(book)?;
    look(book)?;
    Ok(session)
}

/// A transaction begins and writes the row of key 1.
fn write_row<R: Wait>(book: &mut SharedBook<'_, R>) -> Result<(), BookFault>
    requires { IsReady (past_of book.old) }
    ensures busy { OnOk result (IsBusy (past_of book.new)) }
    ensures pass { SamePass book.old.pass book.new.pass }
{
    begin(book)?;
    write(book, presence(), Value::Flag(true))?;
    write(book, field(), Value::Int(10))
}

/// A transaction begins and reads whether the row is there.
fn read_row<R: Wait>(book: &mut SharedBook<'_, R>, word: u32) -> Result<bool, BookFault>
    requires { IsReady (past_of book.old) }
    ensures fresh { OnOk result (IsFresh (past_of book.new)) }
    ensures pass { SamePass book.old.pass book.new.pass }
{
    begin(book)?;
    read_on(book, word)
}

/// Reads whether the row is there.
fn read_on<R: Wait>(book: &mut SharedBook<'_, R>, word: u32) -> Result<bool, BookFault>
    requires { IsFresh (past_of book.old) }
    ensures fresh { OnOk result (IsFresh (past_of book.new)) }
    ensures pass { SamePass book.old.pass book.new.pass }
{
    match read(book, &presence(), word) {
        Ok(value) => Ok(value.is_same(&Value::Flag(true))),
        Err(fault) => Err(fault),
    }
}

/// Session 1 writes the row (6 to 8). Session 2 begins and finds none (9, 10: 0). Session 1 commits (11). Now session 2 is offered both, and
/// takes the row (12: 0 1); it is offered the row alone (13: 1).
fn interleave<R: Wait>(
    first: &mut SharedBook<'_, R>,
    second: &mut SharedBook<'_, R>,
) -> Result<[bool; 3], BookFault>
    requires { IsReady (past_of first.old) × IsReady (past_of second.old) }
    ensures first { OnOk result (IsReady (past_of first.new)) }
    ensures second { OnOk result (IsFresh (past_of second.new)) }
    ensures pass { SamePass first.old.pass first.new.pass × SamePass second.old.pass second.new.pass }
{
    write_row(first)?;
    let before = read_row(second, 1)?;
    commit(first);
    let after = read_on(second, 1)?;
    let again = read_on(second, 0)?;
    Ok([before, after, again])
}

/// Session 2 commits (14) and begins anew (15). It is offered both again, takes that there is no row (16: 0 1), and commits (17).
fn read_anew<R: Wait>(book: &mut SharedBook<'_, R>) -> Result<bool, BookFault>
    requires { IsFresh (past_of book.old) }
    ensures ready { OnOk result (IsReady (past_of book.new)) }
    ensures pass { SamePass book.old.pass book.new.pass }
{
    end(book);
    let found = read_row(book, 0)?;
    end(book);
    Ok(found)
}

/// Commits a transaction that has written nothing.
fn end<R: Wait>(book: &mut SharedBook<'_, R>)
    requires { IsFresh (past_of book.old) }
    ensures ready { IsReady (past_of book.new) }
    ensures pass { SamePass book.old.pass book.new.pass }
{
    commit(book);
}

/// Both sessions, whose calls take turns. The answers are whether each read found the row.
fn play<R: Wait>(
    first: &mut SharedBook<'_, R>,
    second: &mut SharedBook<'_, R>,
    table: &Table,
) -> Result<[bool; 4], BookFault>
    requires none { (first.old.state ≡ no_session) × (second.old.state ≡ no_session) }
    requires sound { IsSound table.now }
    ensures none { OnOk result ((first.new.state ≡ no_session) × (second.new.state ≡ no_session)) }
    ensures pass { SamePass first.old.pass first.new.pass × SamePass second.old.pass second.new.pass }
{
    set_up(first, table)?;
    enter(second)?;
    let [before, after, again] = interleave(first, second)?;
    let anew = read_anew(second)?;
    close(first);
    close(second);
    Ok([before, after, again, anew])
}

/// A history that goes on from the store's, and a pass for each of two books.
fn shared_by_two(alloc: Global, store: Store) -> Result<(Shared, Pass, Pass), BookFault>
    ensures { IfOk result (λ made. ArePassesOf made.0 made.1 made.2) }
{
    let Ok((shared, mut pass)) = Shared::new(alloc, store) else {
        return Err(BookFault::Memory);
    };
    let other = shared.split(&mut pass);
    Ok((shared, pass, other))
}

/// The store that both leave.
fn store_of(shared: Shared, mut pass: Pass, other: Pass) -> Store
    requires { ArePassesOf shared pass other }
{
    shared.join(&mut pass, other);
    shared.finish(pass)
}

/// Both sessions on one shared history, and the store that it leaves.
fn play_on<R: Wait>(
    rt: &R,
    alloc: Global,
    store: Store,
    table: &Table,
) -> Result<(Store, [bool; 4]), BookFault>
    requires { IsSound table.now }
{
    let (shared, pass, other) = shared_by_two(alloc, store)?;
    let mut first = shared.book(rt, pass);
    let mut second = shared.book(rt, other);
    let found = play(&mut first, &mut second, table)?;
    let (pass, other) = (first.into_pass(), second.into_pass());
    Ok((store_of(shared, pass, other), found))
}

/// The same on a new history.
fn play_new<R: Wait>(rt: &R, alloc: Global, table: &Table) -> Result<(Store, [bool; 4]), BookFault>
    requires { IsSound table.now }
{
    let store = Store::new(alloc, Level::Rc, InitialState::empty(alloc))?;
    play_on(rt, alloc, store, table)
}

/// Whether each read found the row, and whether the events are those that were worked out.
fn take_turns<R: Wait>(rt: &R, alloc: Global) -> Result<([bool; 4], bool), BookFault> {
    let table = table(alloc)?;
    let played = play_new(rt, alloc, &table);
    let (store, found) = without(table, played)?;
    let are_lines = are_lines(store.history().events(), TURNS);
    Ok(without(store, (found, are_lines)))
}

const TURNS: &[Line] = &[
    (b'o', 1, 0, 0),
    (b'd', 1, 0, 0),
    (b'l', 1, 1, 0),
    (b'o', 2, 0, 0),
    (b'l', 2, 1, 0),
    (b'b', 1, 0, 0),
    (b'w', 1, 0, 0),
    (b'w', 1, 0, 0),
    (b'b', 2, 0, 0),
    (b'r', 2, 0, 1),
    (b'c', 1, 0, 0),
    (b'r', 2, 1, 2),
    (b'r', 2, 1, 1),
    (b'c', 2, 0, 0),
    (b'b', 2, 0, 0),
    (b'r', 2, 0, 2),
    (b'c', 2, 0, 0),
    (b'x', 1, 0, 0),
    (b'x', 2, 0, 0),
];

#[test]
fn two_books_take_turns(rt: HostRuntime) -> Result<(), BookFault> {
    let (found, are_lines) = take_turns(&rt, rt.alloc())?;
    assert_eq!(&rt; found, [false, true, true, false]);
    assert!(&rt; are_lines);
    Ok(())
}

/// A transaction that writes.
fn write_alone<R: Wait>(book: &mut SharedBook<'_, R>) -> Result<(), BookFault>
    requires { IsReady (past_of book.old) }
    ensures ready { OnOk result (IsReady (past_of book.new)) }
    ensures pass { SamePass book.old.pass book.new.pass }
{
    begin(book)?;
    write(book, presence(), Value::Flag(true))?;
    commit(book);
    Ok(())
}

/// So many of them.
fn write_many<R: Wait>(book: &mut SharedBook<'_, R>, count: u32) -> Result<(), BookFault>
    requires { IsReady (past_of book.old) }
    ensures ready { OnOk result (IsReady (past_of book.new)) }
    ensures pass { SamePass book.old.pass book.new.pass }
{
    for _ in 0..count {
        write_alone(book)?;
    }
    Ok(())
}

/// A session that opens, looks, writes in so many transactions and closes. The answer has its number.
fn work<R: Wait>(mut book: SharedBook<'_, R>, count: u32) -> Result<(Pass, u32), BookFault>
    requires { book.state ≡ no_session }
    ensures { IfOk result (λ done. SamePass book.entry.pass done.0) }
{
    let session = enter(&mut book)?;
    write_many(&mut book, count)?;
    close(&mut book);
    Ok((book.into_pass(), session))
}

/// Two workers in two threads. The answer is the store and their sessions.
fn work_in_two<R: Threads + Wait + Sync>(
    rt: &R,
    alloc: Global,
    store: Store,
    count: u32,
) -> Result<(Store, u32, u32), BookFault> {
    let (shared, pass, other) = shared_by_two(alloc, store)?;
    let first = shared.book(rt, pass);
    let second = shared.book(rt, other);
    let (one, two) = join(rt, || work(first, count), || work(second, count));
    let (pass, a) = one?;
    let (other, b) = two?;
    Ok((store_of(shared, pass, other), a, b))
}

/// A store in which session 1 has defined the table.
fn prepared(alloc: Global) -> Result<Store, Stop> {
    with_table(
        alloc,
        Store::new(alloc, Level::Rc, InitialState::empty(alloc))?,
    )
}

/// What isn't so after two sessions that committed fifty transactions each, or an empty text.
fn difference(events: &[Event], a: u32, b: u32) -> &'static str {
    if !((a == 2 && b == 3) || (a == 3 && b == 2)) {
        return "sessions";
    }
    if events.len() != 308 {
        return "events";
    }
    if !is_whole(events, 2, 50) {
        return "session 2";
    }
    if !is_whole(events, 3, 50) {
        return "session 3";
    }
    ""
}

/// The same of two sessions in two threads.
fn difference_in_two<R: Threads + Wait + Sync>(
    rt: &R,
    alloc: Global,
) -> Result<&'static str, Stop> {
    let (store, a, b) = work_in_two(rt, alloc, prepared(alloc)?, 50)?;
    let difference = difference(store.history().events(), a, b);
    Ok(without(store, difference))
}

#[test]
fn two_threads_commit_fifty_each(rt: HostRuntime) -> Result<(), Stop> {
    assert_eq!(&rt; difference_in_two(&rt, rt.alloc())?, "");
    Ok(())
}
