// Own reads: the cells that the pending transaction has written, and what it wrote last to each.
ghost use Rattle.std.specs.Prelude.{◌≡◌, ◌<◌, ◌≤◌, ◌↔◌, Some, Err, IsTrue, IfOk, OnErr, Contains};
ghost use Rattle.cell_base.specs.declared.value.Value.{Value as CellValue};
ghost use Rattle.history_core.specs.declared.fault.Limit.{Limit};
ghost use Rattle.history_core.specs.Events.{begun};
ghost use Rattle.history_core.specs.Relations.{HasWritten, LastWrites};
ghost use Rattle.history_core.specs.Legal.{Follows, WroteItself, full_load};
ghost use Rattle.valid_writes.specs.declared.desk.Stage.TheVariants as stages;
ghost use Rattle.valid_writes.specs.Desk.{IsDesk, GoesTo, Stays};

use crate::append::append;
use crate::desk::Desk;
use crate::kept::load;
use cell_base::{Cell, Memory, Value};
use history_core::{BookFault, Event, History, Limit};
use std::alloc::Global;
use txn_buffer::TxnBuffer;

/// Whether the buffer holds the cell.
fn writes_cell(buffer: &TxnBuffer, cell: &Cell) -> bool
    ensures { IsTrue result ↔ ((value : CellValue) × Contains buffer.now.writes (cell.now, value)) }
{
    match buffer.get(cell) {
        Some(_) => true,
        None => false,
    }
}

/// Whether the pending transaction of the session wrote the cell.
pub fn wrote_itself(history: &History, session: u32, cell: &Cell) -> bool
    ensures { IsTrue result ↔ WroteItself history.now.events session cell.now }
{
    let Some(number) = history.pending(session) else {
        return false;
    };
    writes_cell(&history.txn(number).buffer, cell)
}

/// What the transaction of the number wrote last to the cell.
pub fn last_write(
    alloc: Global,
    history: &History,
    number: u32,
    cell: &Cell,
) -> Result<Value, Memory>
    requires some { 0 < number }
    requires begun { number ≤ begun history.now.events }
    requires written { HasWritten history.now.events number cell.now }
    ensures { IfOk result (λ value. LastWrites history.now.events number cell.now value) }
{
    match history.txn(number).buffer.get(cell) {
        Some(value) => {
            let copy = value.copy(alloc)?;
            Ok(copy)
        }
        None => unreachable!(),
    }
}

/// What the pending transaction of the session wrote last to the cell.
fn own_value(alloc: Global, history: &History, session: u32, cell: &Cell) -> Result<Value, Memory>
    requires { WroteItself history.now.events session cell.now }
    ensures { IfOk result (λ value. Follows history.now.initial history.now.events (Event.Own session cell.now value)) }
{
    match history.pending(session) {
        Some(number) => last_write(alloc, history, number, cell),
        None => unreachable!(),
    }
}

/// Reads a cell that the pending transaction has written.
pub fn own_cell(desk: &mut Desk, cell: &Cell) -> Result<Value, BookFault>
    requires kept { IsDesk desk.old }
    requires pending { desk.old.stage ≡ stages.Pending }
    requires written { WroteItself desk.old.store.history.events desk.old.session cell.now }
    ensures kept { IsDesk desk.new }
    ensures ok { IfOk result (λ value. GoesTo desk.old (Event.Own desk.old.session cell.now value) desk.old.session stages.Pending desk.new) }
    ensures last { IfOk result (λ value. Follows desk.old.store.history.initial desk.old.store.history.events (Event.Own desk.old.session cell.now value)) }
    ensures full { (limit : Limit) → result ≡ Err (BookFault.Full limit) → full_load desk.new.store.history.initial desk.new.store.history.events ≡ Some limit }
    ensures err { OnErr result (Stays desk.old desk.new) }
{
    if load(&desk.store) >= 1_048_576 {
        return Err(BookFault::Full(Limit::Load));
    }
    let session = desk.session;
    let Ok(value) = own_value(
        desk.store.alloc,
        desk.store.history.history(),
        session,
        cell,
    ) else {
        return Err(BookFault::Memory);
    };
    let Ok(told) = value.copy(desk.store.alloc) else {
        return Err(BookFault::Memory);
    };
    let Ok(read) = cell.copy(desk.store.alloc) else {
        return Err(BookFault::Memory);
    };
    let event = Event::Own {
        session,
        cell: read,
        value,
    };
    match append(&mut desk.store, event) {
        Ok(()) => Ok(told),
        Err(fault) => Err(fault),
    }
}
