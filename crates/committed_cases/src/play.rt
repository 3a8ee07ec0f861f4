// Transactions of one session. What a call asks for is tested, and where it isn't so the test ends.
ghost use Rattle.std.specs.Prelude.{◌≡◌, ◌↔◌, OnOk, IsTrue};
ghost use Rattle.history_core.specs.Events.{table_of as the_table};
ghost use Rattle.history_core.specs.Initial.{IsStorable};
ghost use Rattle.history_book.specs.Book.{no_session, IsIdle, IsInTransaction, HasTable};

use crate::cells::{Put, cell_of, value_of};
use crate::held::refused;
use cell_base::{Cell, Level, Value};
use created_tables::table_of;
use held_values::{kept, without};
use history_book::Book;
use history_core::{BookFault, InitialState};
use std::alloc::Global;
use valid_writes::{SeatBook, Store};

/// What a transaction writes, in order, and whether it commits. Otherwise it is rolled back.
#[derive(Clone, Copy)]
pub struct Transaction {
    pub writes: &'static [Put],
    pub commits: bool,
}

/// The store in which the first session has made two tables, `t` with numbers as keys and `u` with texts, and has played the transactions.
pub fn played(alloc: Global, transactions: &[Transaction]) -> Result<Store, BookFault> {
    let store = Store::new(alloc, Level::Cc, InitialState::empty(alloc))?;
    let mut book = store.seat(None);
    let played = play_all(alloc, &mut book, transactions);
    kept(book.into_store(), played)
}

/// Opens the session, defines the tables, and plays the transactions.
fn play_all(
    alloc: Global,
    book: &mut SeatBook,
    transactions: &[Transaction],
) -> Result<(), BookFault>
    requires { book.old.state ≡ no_session }
{
    open(alloc, book)?;
    for transaction in transactions {
        play(alloc, book, transaction)?;
    }
    Ok(())
}

/// Opens the session, and defines the tables.
fn open(alloc: Global, book: &mut SeatBook) -> Result<(), BookFault>
    requires { book.old.state ≡ no_session }
    ensures { OnOk result (IsIdle book.new.state) }
{
    book.open()?;
    define(
        alloc,
        book,
        b"CREATE TABLE t (k bigint PRIMARY KEY, v bigint)",
    )?;
    define(
        alloc,
        book,
        b"CREATE TABLE u (k text PRIMARY KEY, v bigint)",
    )
}

/// Defines the table that the text creates.
fn define(alloc: Global, book: &mut SeatBook, text: &[u8]) -> Result<(), BookFault>
    requires { IsIdle book.old.state }
    ensures { OnOk result (IsIdle book.new.state) }
{
    let table = table_of(alloc, text)?;
    let answer = book.define(&table);
    without(table, answer)?;
    Ok(())
}

/// Plays one transaction.
fn play(alloc: Global, book: &mut SeatBook, transaction: &Transaction) -> Result<(), BookFault>
    requires { IsIdle book.old.state }
    ensures { OnOk result (IsIdle book.new.state) }
{
    book.begin(Level::Cc)?;
    for put in transaction.writes {
        write_put(alloc, book, *put)?;
    }
    if transaction.commits {
        book.commit();
    } else {
        book.rollback();
    }
    Ok(())
}

/// Writes what is put.
fn write_put(alloc: Global, book: &mut SeatBook, put: Put) -> Result<(), BookFault>
    requires { IsInTransaction book.old.state }
    ensures { OnOk result (IsInTransaction book.new.state) }
{
    let cell = cell_of(alloc, put)?;
    write(book, cell, value_of(put))
}

/// Writes a cell of a table that is there.
fn write(book: &mut SeatBook, cell: Cell, value: Value) -> Result<(), BookFault>
    requires { IsInTransaction book.old.state }
    ensures { OnOk result (IsInTransaction book.new.state) }
{
    if !has_table(book, table(&cell)) || !is_storable(&value) {
        return refused((cell, value));
    }
    book.write(cell, value)
}

/// Whether the table is defined.
fn has_table(book: &SeatBook, table: u32) -> bool
    ensures { IsTrue result ↔ HasTable book.now table }
{
    (table as usize) < book.history().tables().len()
}

/// The table of the cell.
fn table(cell: &Cell) -> u32
    ensures { result ≡ the_table cell.now }
{
    match cell {
        Cell::Presence(table, _) => *table,
        Cell::Field(table, _, _) => *table,
    }
}

/// Whether the value can be written.
fn is_storable(value: &Value) -> bool
    ensures { IsTrue result ↔ IsStorable value.now }
{
    !matches!(value, Value::Unset | Value::Wide(_))
}
