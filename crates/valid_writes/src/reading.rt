// A read: what the word picks of the permitted list, and its value.
ghost use Rattle.std.specs.Prelude.{◌≡◌, ◌<◌, ◌≤◌, ◌%◌, length, slice_get, Some, Err, IfOk, OnErr};
ghost use Rattle.history_core.specs.declared.fault.Limit.{Limit};
ghost use Rattle.history_core.specs.Events.{begun, table_of};
ghost use Rattle.history_core.specs.Initial.{WritesInitially, absent_value};
ghost use Rattle.history_core.specs.Relations.{Writes, WritesValue};
ghost use Rattle.history_core.specs.Legal.{WroteItself, full_load};
ghost use Rattle.valid_writes.specs.declared.desk.Stage.TheVariants as stages;
ghost use Rattle.valid_writes.specs.Desk.{IsDesk, ReadsTo, Stays};

use crate::append::append_read;
use crate::choosing::choose_with_stars;
use crate::desk::Desk;
use crate::kept::load;
use crate::own::last_write;
use cell_base::{Cell, Memory, Value};
use history_core::{BookFault, History, InitialState, Limit};
use std::alloc::Global;

/// What stands in a cell that the initial state doesn't have.
fn absent(cell: &Cell) -> Value
    ensures { result ≡ absent_value cell.now }
{
    match cell {
        Cell::Presence(_, _) => Value::Flag(false),
        Cell::Field(_, _, _) => Value::Unset,
    }
}

/// What the initial transaction wrote to the cell.
fn initial_value(alloc: Global, initial: &InitialState, cell: &Cell) -> Result<Value, Memory>
    ensures { IfOk result (λ value. WritesInitially initial.now cell.now value) }
{
    match initial.value(cell) {
        Some(value) => {
            let copy = value.copy(alloc)?;
            Ok(copy)
        }
        None => Ok(absent(cell)),
    }
}

/// What the writer wrote to the cell.
fn value_of(alloc: Global, history: &History, source: u32, cell: &Cell) -> Result<Value, Memory>
    requires { Writes history.now.events source cell.now }
    ensures { IfOk result (λ value. WritesValue history.now.initial history.now.events source cell.now value) }
{
    if source == 0 {
        return initial_value(alloc, history.initial(), cell);
    }
    last_write(alloc, history, source, cell)
}

/// Reads a cell that the pending transaction hasn't written.
pub fn read_cell(desk: &mut Desk, cell: &Cell, word: u32) -> Result<Value, BookFault>
    requires kept { IsDesk desk.old }
    requires pending { desk.old.stage ≡ stages.Pending }
    requires unwritten { ¬ WroteItself desk.old.store.history.events desk.old.session cell.now }
    requires defined { table_of cell.now < length desk.old.store.history.tables }
    ensures kept { IsDesk desk.new }
    ensures ok { IfOk result (λ value. ReadsTo desk.old cell.now word value desk.new) }
    ensures full { (limit : Limit) → result ≡ Err (BookFault.Full limit) → full_load desk.new.store.history.initial desk.new.store.history.events ≡ Some limit }
    ensures err { OnErr result (Stays desk.old desk.new) }
{
    if load(&desk.store) >= 1_048_576 {
        return Err(BookFault::Full(Limit::Load));
    }
    let Ok(chosen) = choose_with_stars(&desk.store, desk.session, cell, word) else {
        return Err(BookFault::Memory);
    };
    let choice = chosen.choice;
    let Ok(value) = value_of(
        desk.store.alloc,
        desk.store.history.history(),
        choice.source,
        cell,
    ) else {
        return Err(BookFault::Memory);
    };
    let Ok(told) = value.copy(desk.store.alloc) else {
        return Err(BookFault::Memory);
    };
    let Ok(read) = cell.copy(desk.store.alloc) else {
        return Err(BookFault::Memory);
    };
    let session = desk.session;
    match append_read(
        &mut desk.store,
        session,
        read,
        choice,
        word,
        value,
        &chosen.stars,
    ) {
        Ok(()) => Ok(told),
        Err(fault) => Err(fault),
    }
}
