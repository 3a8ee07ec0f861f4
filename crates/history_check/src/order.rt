// A trace, its events and its order.
ghost use Rattle.std.specs.Prelude.{◌≡◌, ◌<◌, length, OnOk};
ghost use Rattle.history_check.specs.Breaches.{AreRight, IfBreach};
ghost use Rattle.cell_writers.specs.Numbered.{AreNumbered};
ghost use Rattle.history_check.specs.Notes.{AreCellNotes};
ghost use Rattle.history_check.specs.Orders.{IsRightTrace, IsFirstBreach, IsFirstOrderBreach, breach_of};

use crate::events::note_events;
use crate::{Breach, CheckFault};
use cell_writers::CellNotes;
use history_log::Trace;
use order_test::{EventWalk, InTurn, Unkept, first_unkept_by};
use std::alloc::Global;

/// Judges a trace: that its events are a history of its initial state, as `check_events` does, and that its order meets the history. It holds
/// each transaction once and the initial one first, keeps the order of each session, has each source before its reader, and before each source
/// whatever other writer of the cell the read sees at the level of its transaction. The breach is the first of the events, and after them
/// the first of the order.
///
/// Whether the initial state is one, so that its cells ascend and each field's row is there, is the reader's matter: `history_log::read` sees to
/// it. One of 4,294,967,296 cells or more is refused as out of memory.
pub fn check(alloc: Global, trace: &Trace) -> Result<(), CheckFault>
    requires few { length trace.now.events < 4294967296 }
    ensures ok { OnOk result (IsRightTrace trace.now) }
    ensures breach { IfBreach result (IsFirstBreach trace.now) }
{
    check_by(alloc, &InTurn, trace)
}

/// The same, where the walk goes over the events before their order is judged one after another.
pub fn check_by<W: EventWalk>(alloc: Global, walk: &W, trace: &Trace) -> Result<(), CheckFault>
    requires few { length trace.now.events < 4294967296 }
    ensures ok { OnOk result (IsRightTrace trace.now) }
    ensures breach { IfBreach result (IsFirstBreach trace.now) }
{
    match note_events(alloc, trace.initial.as_slice(), trace.events.as_slice()) {
        Ok(cells) => check_order_by(alloc, walk, &cells, trace),
        Err(fault) => Err(fault),
    }
}

/// Judges the order of a trace whose events are right, with the numbers and the notes of their cells. The breach is the first of the order.
pub fn check_order(alloc: Global, cells: &CellNotes, trace: &Trace) -> Result<(), CheckFault>
    requires notes { AreCellNotes trace.now.events cells.now }
    requires numbered { AreNumbered trace.now.events cells.now.numbers }
    requires right { AreRight trace.now.initial trace.now.events }
    requires few { length trace.now.events < 4294967296 }
    ensures ok { OnOk result (IsRightTrace trace.now) }
    ensures breach { IfBreach result (IsFirstBreach trace.now) }
{
    check_order_by(alloc, &InTurn, cells, trace)
}

/// The same, where the walk goes over the events before they are judged one after another.
pub fn check_order_by<W: EventWalk>(
    alloc: Global,
    walk: &W,
    cells: &CellNotes,
    trace: &Trace,
) -> Result<(), CheckFault>
    requires notes { AreCellNotes trace.now.events cells.now }
    requires numbered { AreNumbered trace.now.events cells.now.numbers }
    requires right { AreRight trace.now.initial trace.now.events }
    requires few { length trace.now.events < 4294967296 }
    ensures ok { OnOk result (IsRightTrace trace.now) }
    ensures breach { IfBreach result (IsFirstBreach trace.now) }
{
    match first_unkept_by(
        alloc,
        walk,
        trace.events.as_slice(),
        cells,
        trace.order.as_slice(),
    ) {
        Ok(None) => Ok(()),
        Ok(Some(unkept)) => Err(CheckFault::Breach(told_of(unkept))),
        Err(_memory) => Err(CheckFault::Memory),
    }
}

/// The breach that is told of what the order doesn't keep.
fn told_of(unkept: Unkept) -> Breach
    ensures { result ≡ breach_of unkept }
{
    match unkept {
        Unkept::Order => Breach::Order,
        Unkept::Session { earlier, later } => Breach::Session { earlier, later },
        Unkept::Read {
            event,
            origin,
            reader,
        } => Breach::Read {
            event,
            origin,
            reader,
        },
        Unkept::Axiom {
            event,
            origin,
            rival,
            reader,
            cell,
        } => Breach::Axiom {
            event,
            origin,
            rival,
            reader,
            cell,
        },
    }
}
