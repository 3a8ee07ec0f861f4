// The events of a trace, one after another.
ghost use Rattle.std.specs.Prelude.{◌≡◌, ◌<◌, ◌∷◌, ◌++◌, [], length, OnOk, IfOk, IfNone};
ghost use Rattle.history_check.specs.Breaches.{AreRight, IsFirstEventBreach, IfBreach};
ghost use Rattle.history_check.specs.Found.{IsFound};
ghost use Rattle.cell_writers.specs.Numbered.{AreNumbered};
ghost use Rattle.history_check.specs.Notes.{AreNotes, AreCellNotes};

use crate::CheckFault;
use crate::broken_rule::{BrokenRule, breach_at};
use crate::cell_notes::cell_notes;
use crate::judge::verdict;
use crate::notes::{Notes, no_notes};
use crate::noting::note;
use crate::rows::Rows;
use cell_base::{Cell, Memory, Value};
use cell_writers::CellNotes;
use history_core::Event;
use history_log::Trace;
use std::alloc::Global;

/// Judges the events of a trace, whatever its order: that they are a history of its initial state, event by event, with sources that are
/// there, their values, and counts from 1 to the number of candidates. Limits of a history aren't looked at. The breach is the first in the
/// order of the events. As in `check`, whether the initial state is one isn't judged, and one of 4,294,967,296 cells or more is refused as out of
/// memory.
pub fn check_events(alloc: Global, trace: &Trace) -> Result<(), CheckFault>
    requires few { length trace.now.events < 4294967296 }
    ensures ok { OnOk result (AreRight trace.now.initial trace.now.events) }
    ensures breach { IfBreach result (IsFirstEventBreach trace.now.initial trace.now.events) }
{
    match note_events(alloc, trace.initial.as_slice(), trace.events.as_slice()) {
        Ok(_cells) => Ok(()),
        Err(fault) => Err(fault),
    }
}

/// The notes of the cells after all events, where each of these keeps to the rules.
pub fn note_events(
    alloc: Global,
    initial: &[(Cell, Value)],
    events: &[Event],
) -> Result<CellNotes, CheckFault>
    requires few { length events.now < 4294967296 }
    ensures notes { IfOk result (AreCellNotes events.now) }
    ensures numbered { IfOk result (λ cells. AreNumbered events.now cells.numbers) }
    ensures right { OnOk result (AreRight initial.now events.now) }
    ensures breach { IfBreach result (IsFirstEventBreach initial.now events.now) }
{
    match parts_of(alloc, initial, events) {
        Ok((rows, cells)) => note_all(alloc, cells, &rows, events),
        Err(_memory) => Err(CheckFault::Memory),
    }
}

/// The initial state with its indexes, and the numbers of the cells of the events.
fn parts_of<'a>(
    alloc: Global,
    initial: &'a [(Cell, Value)],
    events: &[Event],
) -> Result<(Rows<'a>, CellNotes), Memory>
    requires few { length events.now < 4294967296 }
    ensures rows { IfOk result (λ parts. parts.0 ≡ initial.now) }
    ensures numbered { IfOk result (λ parts. AreNumbered events.now parts.1.numbers) }
    ensures notes { IfOk result (λ parts. AreCellNotes [] parts.1) }
{
    let rows = Rows::new(alloc, initial)?;
    let cells = cell_notes(alloc, events)?;
    Ok((rows, cells))
}

/// The notes of the cells after all events of this initial state, where each of these keeps to the rules.
fn note_all(
    alloc: Global,
    cells: CellNotes,
    initial: &Rows,
    events: &[Event],
) -> Result<CellNotes, CheckFault>
    requires few { length events.now < 4294967296 }
    requires notes { AreCellNotes [] cells }
    requires numbered { AreNumbered events.now cells.numbers }
    ensures notes { IfOk result (AreCellNotes events.now) }
    ensures numbered { IfOk result (λ cells. AreNumbered events.now cells.numbers) }
    ensures right { OnOk result (AreRight initial.now events.now) }
    ensures breach { IfBreach result (IsFirstEventBreach initial.now events.now) }
{
    let mut cells = cells;
    let mut notes = no_notes(alloc);
    for at in 0..events.len() {
        match judge_event(&mut notes, &mut cells, initial, &events[..at], &events[at]) {
            Ok(None) => {}
            Ok(Some(rule)) => return Err(CheckFault::Breach(breach_at(at as u32 + 1, rule))),
            Err(_memory) => return Err(CheckFault::Memory),
        }
    }
    Ok(cells)
}

/// Judges one event, and notes it where it keeps to all rules. The first rule that it breaks, if it breaks one.
fn judge_event(
    notes: &mut Notes,
    cells: &mut CellNotes,
    initial: &Rows,
    before: &[Event],
    event: &Event,
) -> Result<Option<BrokenRule>, Memory>
    requires notes { AreNotes before.now notes.old }
    requires cells { AreCellNotes before.now cells.old }
    requires numbered { AreNumbered (before.now ++ event.now ∷ []) cells.old.numbers }
    requires few { length before.now < 4294967295 }
    ensures found { IfOk result (IsFound initial.now before.now event.now) }
    ensures numbers { cells.new.numbers ≡ cells.old.numbers }
    ensures notes { IfOk result (λ found. IfNone found (AreNotes (before.now ++ event.now ∷ []) notes.new)) }
    ensures cells { IfOk result (λ found. IfNone found (AreCellNotes (before.now ++ event.now ∷ []) cells.new)) }
{
    let found = verdict(notes, cells, initial, before, event)?;
    match found {
        Some(rule) => Ok(Some(rule)),
        None => {
            note(notes, cells, before, event)?;
            Ok(None)
        }
    }
}
