// A history that has as many tables as it may.
ghost use Rattle.std.specs.Prelude.{◌≡◌, IfOk, OnOk};
ghost use Rattle.sound_table.specs.Sound.{IsSound};
ghost use Rattle.history_book.specs.Book.{no_session, IsIdle};

use crate::held::right;
use cell_base::{Level, Memory};
use created_tables::table_of;
use held_values::without;
use history_book::Book;
use history_core::{BookFault, DefineAnswer, Event, History, InitialState, Limit};
use sql_tree::Table;
use std::alloc::Global;
use std::test::Fail;
use valid_writes::{SeatBook, Store};

/// What comes of further definitions once the tables `t0` to `t63` are there: of a 65th, of a name that is taken, and of the 65th again.
const FURTHER: &[(u32, Result<DefineAnswer, BookFault>)] = &[
    (64, Err(BookFault::Full(Limit::Tables))),
    (0, Ok(DefineAnswer::Taken(64))),
    (64, Err(BookFault::Full(Limit::Tables))),
];

/// The book of a new history without a row.
fn new_book(alloc: Global) -> Result<SeatBook, Memory>
    ensures { IfOk result (λ book. book.state ≡ no_session) }
{
    Ok(Store::new(alloc, Level::Rc, InitialState::empty(alloc))?.seat(None))
}

/// Opens the session.
fn open(book: &mut SeatBook) -> Result<(), BookFault>
    requires { book.old.state ≡ no_session }
    ensures { OnOk result (IsIdle book.new.state) }
{
    book.open()?;
    Ok(())
}

/// The table `t` with this number after the letter.
fn numbered(alloc: Global, number: u32) -> Result<Table, Memory>
    ensures { IfOk result IsSound }
{
    let text = format!(in alloc; "CREATE TABLE t{number} (k bigint PRIMARY KEY)")?;
    table_of(alloc, text.as_bytes())
}

/// What comes of a definition of that table.
fn define(alloc: Global, book: &mut SeatBook, number: u32) -> Result<DefineAnswer, BookFault>
    requires { IsIdle book.old.state }
    ensures { IsIdle book.new.state }
{
    let table = numbered(alloc, number)?;
    book.define(&table)
}

/// Defines the tables from `t0` on, so many at most; answers how many were defined, each with the number of its name.
fn define_many(alloc: Global, book: &mut SeatBook, number: u32) -> u32
    requires { IsIdle book.old.state }
    ensures { IsIdle book.new.state }
{
    let mut count = 0u32;
    for at in 0..number {
        if define(alloc, book, at) != Ok(DefineAnswer::Defined(at)) {
            return count;
        }
        count = count.saturating_add(1);
    }
    count
}

/// Makes further definitions; answers how many were answered as expected.
fn define_further(alloc: Global, book: &mut SeatBook) -> u32
    requires { IsIdle book.old.state }
    ensures { IsIdle book.new.state }
{
    let mut count = 0u32;
    for row in FURTHER {
        if define(alloc, book, row.0) != row.1 {
            return count;
        }
        count = count.saturating_add(1);
    }
    count
}

/// Whether the last event is a look at 64 tables.
fn ends_with_a_look(events: &[Event]) -> bool {
    matches!(
        events.last(),
        Some(Event::Look {
            session: 1,
            tables: 64
        })
    )
}

/// Whether the history has 64 tables, and an Open, 64 Defines and a Look.
fn is_full(history: &History) -> bool {
    history.tables().len() == 64
        && history.events().len() == 66
        && ends_with_a_look(history.events())
}

/// Whether all definitions are answered as expected.
fn defines_all(alloc: Global, book: &mut SeatBook) -> Result<bool, BookFault>
    requires { book.old.state ≡ no_session }
{
    open(book)?;
    Ok(
        define_many(alloc, book, 64) == 64
            && define_further(alloc, book) == 3
            && is_full(book.history()),
    )
}

#[test]
fn refuses_a_table_beyond_the_last(rt: HostRuntime) -> Result<(), Fail> {
    let mut book = new_book(rt.alloc())?;
    let defines_all = defines_all(rt.alloc(), &mut book);
    right("definitions", without(book, defines_all)?)
}
