// Who writes a cell, and what.
ghost use Rattle.std.specs.Prelude.{◌≡◌, ◌<◌, ◌≤◌, ◌↔◌, ℕ, length, IsTrue, Any};
ghost use Rattle.history_core.specs.Events.{begun};
ghost use Rattle.history_core.specs.Initial.{WritesInitially, absent_value};
ghost use Rattle.history_core.specs.Relations.{HasWritten, LastWrites, Writes, WritesValue};
ghost use Rattle.history_core.specs.Transactions.{IsPending};
ghost use Rattle.history_core.specs.Legal.{WroteItself};
ghost use Rattle.history_check.specs.Rules.{HasCandidates};
ghost use Rattle.history_check.specs.Keys.{HasLaterWriter};
ghost use Rattle.history_check.specs.Notes.{AreNotes, IsLastWriteAt, IsNoteOf};

use crate::commits::is_committed;
use crate::notes::{Notes, pending_in};
use crate::rows::Rows;
use cell_base::{Cell, Value};
use cell_writers::CellNote;
use history_core::Event;

/// Whether the write at the place, which is the last of the cell by the transaction, has the value.
fn writes_value(before: &[Event], place: u32, number: u32, cell: &Cell, value: &Value) -> bool
    requires { IsLastWriteAt before.now number cell.now place }
    ensures { IsTrue result ↔ LastWrites before.now number cell.now value.now }
{
    match &before[place as usize] {
        Event::Write { value: written, .. } => written.is_same(value),
        _ => unreachable!(),
    }
}

/// Whether the transaction has written the cell, committed or not.
fn has_written(note: &CellNote, before: &[Event], number: u32, cell: &Cell) -> bool
    requires { IsNoteOf before.now cell.now note.now }
    ensures { IsTrue result ↔ HasWritten before.now number cell.now }
{
    match note.places.get(number) {
        Some(_place) => true,
        None => false,
    }
}

/// Whether the value is the last that the transaction wrote to the cell, committed or not.
fn wrote_last(note: &CellNote, before: &[Event], number: u32, cell: &Cell, value: &Value) -> bool
    requires { IsNoteOf before.now cell.now note.now }
    ensures { IsTrue result ↔ LastWrites before.now number cell.now value.now }
{
    match note.places.get(number) {
        Some(place) => writes_value(before, place, number, cell, value),
        None => false,
    }
}

/// Whether the pending transaction of the session has written the cell.
pub fn wrote_itself(
    notes: &Notes,
    note: &CellNote,
    before: &[Event],
    session: u32,
    cell: &Cell,
) -> bool
    requires notes { AreNotes before.now notes.now }
    requires note { IsNoteOf before.now cell.now note.now }
    ensures { IsTrue result ↔ WroteItself before.now session cell.now }
{
    match pending_in(notes, before, session) {
        Some(number) => has_written(note, before, number, cell),
        None => false,
    }
}

/// Whether the pending transaction of the session wrote the value last to the cell.
pub fn gives_own_value(
    notes: &Notes,
    note: &CellNote,
    before: &[Event],
    session: u32,
    cell: &Cell,
    value: &Value,
) -> bool
    requires notes { AreNotes before.now notes.now }
    requires note { IsNoteOf before.now cell.now note.now }
    ensures { IsTrue result ↔ ((txn : ℕ) × IsPending before.now txn session × LastWrites before.now txn cell.now value.now) }
{
    match pending_in(notes, before, session) {
        Some(number) => wrote_last(note, before, number, cell, value),
        None => false,
    }
}

/// Whether the transaction comes after the initial one, has committed and writes the cell.
fn is_later_writer(note: &CellNote, before: &[Event], number: u32, cell: &Cell) -> bool
    requires { IsNoteOf before.now cell.now note.now }
    ensures { IsTrue result ↔ ((0 < number) × Writes before.now number cell.now) }
{
    note.committed.contains(number)
}

/// Whether a transaction after the initial one writes the cell.
pub fn has_later_writer(note: &CellNote, before: &[Event], cell: &Cell) -> bool
    requires { IsNoteOf before.now cell.now note.now }
    ensures { IsTrue result ↔ HasLaterWriter before.now cell.now }
{
    if note.committed.as_slice().is_empty() {
        return false;
    }
    true
}

/// Whether the transaction is the initial one, or a committed one that writes the cell.
pub fn is_writer(note: &CellNote, before: &[Event], number: u32, cell: &Cell) -> bool
    requires { IsNoteOf before.now cell.now note.now }
    ensures { IsTrue result ↔ Writes before.now number cell.now }
{
    if number == 0 {
        return true;
    }
    is_later_writer(note, before, number, cell)
}

/// How many transactions write the cell, the initial one among them.
pub fn count_writers(note: &CellNote, before: &[Event], cell: &Cell) -> u32
    requires note { IsNoteOf before.now cell.now note.now }
    requires few { length before.now < 4294967295 }
    ensures { HasCandidates before.now cell.now result }
{
    let later = note.committed.as_slice();
    later.len() as u32 + 1
}

/// Whether the value is what stands in a cell that the initial state doesn't have.
pub fn is_absent_value(cell: &Cell, value: &Value) -> bool
    ensures { IsTrue result ↔ (value.now ≡ absent_value cell.now) }
{
    match cell {
        Cell::Presence(_table, _key) => value.is_same(&Value::Flag(false)),
        Cell::Field(_table, _key, _column) => value.is_same(&Value::Unset),
    }
}

/// Whether the initial transaction wrote the value to the cell.
fn wrote_initially(initial: &Rows, cell: &Cell, value: &Value) -> bool
    ensures { IsTrue result ↔ WritesInitially initial.now cell.now value.now }
{
    if initial.has_cell(cell) {
        return initial.holds(cell, value);
    }
    is_absent_value(cell, value)
}

/// Whether the transaction is the initial one or a committed one, and wrote the value last to the cell.
pub fn gives_value(
    notes: &Notes,
    note: &CellNote,
    initial: &Rows,
    before: &[Event],
    number: u32,
    cell: &Cell,
    value: &Value,
) -> bool
    requires notes { AreNotes before.now notes.now }
    requires note { IsNoteOf before.now cell.now note.now }
    requires begun { number ≤ begun before.now }
    ensures { IsTrue result ↔ WritesValue initial.now before.now number cell.now value.now }
{
    if number == 0 {
        return wrote_initially(initial, cell, value);
    }
    is_committed(notes, before, number) && wrote_last(note, before, number, cell, value)
}
