// A store that begins with what another history has committed.
ghost use Rattle.std.specs.Prelude.{◌≡◌, ◌≤◌, ◌<◌, ◌+◌, ℕ, [], ◌∷◌, length, Some, Err, OnOk, IfOk, IfSome, IfNone};
ghost use Rattle.history_core.specs.declared.fault.Limit.{Limit};
ghost use Rattle.history_core.specs.Initial.{initial_load};
ghost use Rattle.committed_rows.specs.Start.{StartsAfter, HasNoRoom};
ghost use Rattle.committed_rows.specs.Defining.{started, CanStand, IsFresh, HasDefined, DefinesMore, MayDefine};

use crate::rows::committed_rows;
use cell_base::{Level, Memory};
use history_book::Book;
use history_core::{BookFault, History, InitialState};
use sql_tree::Table;
use std::alloc::Global;
use valid_writes::{SeatBook, Store};

/// A store of the level that starts after the history: the rows that are committed at its end are the initial state, and session 1 defines the
/// tables of the history, in order, and is closed. `None` comes exactly where no legal history starts so: a row lacks a field or has one too
/// many, or the load of the initial state and the number of the tables make 1,048,576 or more. An error is out of memory.
pub fn start_after(alloc: Global, level: Level, setup: &History) -> Result<Option<Store>, Memory>
    ensures some { IfOk result (λ answer. IfSome answer (λ store. StartsAfter level setup.now store)) }
    ensures none { IfOk result (λ answer. IfNone answer (HasNoRoom level setup.now)) }
{
    let cells = committed_rows(alloc, setup)?;
    let Some(initial) = InitialState::new(setup.tables(), cells) else {
        return Ok(None);
    };
    let store = Store::new(alloc, level, initial)?;
    match with_tables(store, setup.tables()) {
        Ok(store) => Ok(Some(store)),
        Err(BookFault::Full(_)) => Ok(None),
        Err(BookFault::Memory) => Err(Memory),
    }
}

/// The store after its first session has defined the tables and is closed.
fn with_tables(store: Store, tables: &[Table]) -> Result<Store, BookFault>
    requires events { store.events ≡ [] }
    requires tables { store.tables ≡ [] }
    requires load { initial_load store.initial < 1048576 }
    requires stand { CanStand tables.now }
    ensures ok { IfOk result (λ start. start ≡ started store.level store.initial tables.now) }
    ensures full { (limit : Limit) → result ≡ Err (BookFault.Full limit) → 1048576 ≤ initial_load store.initial + length tables.now }
{
    let mut seat = store.seat(None);
    define_all(&mut seat, tables)?;
    Ok(seat.into_store())
}

/// Opens the first session, defines the tables in it, and closes it.
fn define_all(seat: &mut SeatBook, tables: &[Table]) -> Result<(), BookFault>
    requires fresh { IsFresh seat.old }
    requires stand { CanStand tables.now }
    ensures ok { OnOk result (seat.new.seen ≡ started seat.old.seen.level seat.old.seen.initial tables.now) }
    ensures full { (limit : Limit) → result ≡ Err (BookFault.Full limit) → 1048576 ≤ initial_load seat.old.seen.initial + length tables.now }
{
    open(seat)?;
    for table in tables {
        define(seat, table)?;
    }
    close(seat);
    Ok(())
}

/// Opens the first session.
fn open(seat: &mut SeatBook) -> Result<(), BookFault>
    requires { IsFresh seat.old }
    ensures ok { OnOk result (DefinesMore seat.old [] seat.new) }
    ensures room { (limit : Limit) → ¬ (result ≡ Err (BookFault.Full limit)) }
{
    seat.open()?;
    Ok(())
}

/// Defines the next table.
fn define(seat: &mut SeatBook, table: &Table) -> Result<(), BookFault>
    requires defined { HasDefined seat.old }
    requires may { MayDefine seat.old table.now }
    ensures ok { OnOk result (DefinesMore seat.old (table.now ∷ []) seat.new) }
    ensures full { (limit : Limit) → result ≡ Err (BookFault.Full limit) → 1048576 ≤ initial_load seat.old.seen.initial + length seat.old.seen.tables + 1 }
{
    seat.define(table)?;
    Ok(())
}

/// Closes the first session.
fn close(seat: &mut SeatBook)
    requires { HasDefined seat.old }
    ensures { seat.new.seen ≡ started seat.old.seen.level seat.old.seen.initial seat.old.seen.tables }
{
    seat.close();
}
