// What the rules say of one event.
ghost use Rattle.std.specs.Prelude.{◌≡◌, ◌<◌, ◌≤◌, ◌+◌, ◌∷◌, ◌++◌, ◌⊎◌, [], ℕ, List, length, IfOk, OnOk, IsTrue, take, Err};
ghost use Rattle.cell_base.specs.declared.cell.Cell.{Cell as CellValue};
ghost use Rattle.cell_base.specs.declared.value.Value.{Value as ValueOf};
ghost use Rattle.history_core.specs.declared.event.Event.{Event};
ghost use Rattle.history_core.specs.Relations.{Writes};
ghost use Rattle.history_check.specs.Rules.{IsInShape};
ghost use Rattle.history_check.specs.Found.{IsFound};
ghost use Rattle.cell_writers.specs.Numbered.{AreNumbered};
ghost use Rattle.history_check.specs.Notes.{AreNotes, AreCellNotes, IsNoteOf};

use crate::broken_rule::BrokenRule;
use crate::cell_notes::note_at;
use crate::keys::lists_keys;
use crate::notes::Notes;
use crate::rows::Rows;
use crate::shape::is_in_shape;
use crate::sources::{count_writers, gives_own_value, gives_value, is_writer, wrote_itself};
use cell_base::{Cell, Key, Memory, Value};
use cell_writers::{CellNote, CellNotes};
use history_core::Event;

/// The number of the next event.
fn next_number(before: &[Event]) -> u32
    requires { length before.now < 4294967295 }
    ensures { result ≡ length before.now + 1 }
{
    before.len() as u32 + 1
}

/// The first rule that the event breaks.
pub fn verdict(
    notes: &Notes,
    cells: &CellNotes,
    initial: &Rows,
    before: &[Event],
    event: &Event,
) -> Result<Option<BrokenRule>, Memory>
    requires notes { AreNotes before.now notes.now }
    requires cells { AreCellNotes before.now cells.now }
    requires numbered { AreNumbered (before.now ++ event.now ∷ []) cells.now.numbers }
    requires few { length before.now < 4294967295 }
    ensures { IfOk result (IsFound initial.now before.now event.now) }
{
    if !is_in_shape(notes, before, event) {
        return Ok(Some(BrokenRule::Shape));
    }
    match event {
        Event::Look { session, tables } => Ok(of_look(notes, before, *session, *tables)),
        Event::Show { session, number } => Ok(of_show(before, *session, *number)),
        Event::Scan {
            session,
            table,
            keys,
        } => of_scan(
            notes,
            cells,
            initial,
            before,
            *session,
            *table,
            keys.as_slice(),
        ),
        Event::Read {
            session,
            cell,
            source,
            count,
            word,
            value,
        } => {
            let note = note_at(cells, before, event, cell);
            Ok(of_read(
                notes, note, initial, before, *session, cell, *source, *count, *word, value,
            ))
        }
        Event::Own {
            session,
            cell,
            value,
        } => {
            let note = note_at(cells, before, event, cell);
            Ok(of_own(notes, note, before, *session, cell, value))
        }
        Event::Open { .. } => Ok(None),
        Event::Close { .. } => Ok(None),
        Event::Define { .. } => Ok(None),
        Event::Begin { .. } => Ok(None),
        Event::Write { .. } => Ok(None),
        Event::Commit { .. } => Ok(None),
        Event::Rollback { .. } => Ok(None),
    }
}

/// The verdict on a look.
fn of_look(notes: &Notes, before: &[Event], session: u32, tables: u32) -> Option<BrokenRule>
    requires notes { AreNotes before.now notes.now }
    requires shape { IsInShape before.now (Event.Look session tables) }
    ensures { (initial : List (CellValue × ValueOf)) → IsFound initial before.now (Event.Look session tables) result }
{
    let expected = notes.tables;
    if tables == expected {
        return None;
    }
    Some(BrokenRule::Number(expected))
}

/// The verdict on a show.
fn of_show(before: &[Event], session: u32, number: u32) -> Option<BrokenRule>
    requires shape { IsInShape before.now (Event.Show session number) }
    requires few { length before.now < 4294967295 }
    ensures { (initial : List (CellValue × ValueOf)) → IsFound initial before.now (Event.Show session number) result }
{
    let expected = next_number(before);
    if number == expected {
        return None;
    }
    Some(BrokenRule::Number(expected))
}

/// The verdict on a scan.
fn of_scan(
    notes: &Notes,
    cells: &CellNotes,
    initial: &Rows,
    before: &[Event],
    session: u32,
    table: u32,
    keys: &[Key],
) -> Result<Option<BrokenRule>, Memory>
    requires notes { AreNotes before.now notes.now }
    requires cells { AreCellNotes before.now cells.now }
    requires numbered { AreNumbered before.now cells.now.numbers }
    requires shape { IsInShape before.now (Event.Scan session table keys.now) }
    requires few { length before.now < 4294967295 }
    ensures { IfOk result (IsFound initial.now before.now (Event.Scan session table keys.now)) }
{
    let lists = lists_keys(notes, cells, initial, before, session, table, keys)?;
    if lists {
        return Ok(None);
    }
    Ok(Some(BrokenRule::Keys))
}

/// Which rule a read breaks whose source doesn't give its value: there is no such source, or the value is wrong.
fn wrong_source(note: &CellNote, before: &[Event], source: u32, cell: &Cell) -> BrokenRule
    requires { IsNoteOf before.now cell.now note.now }
    ensures { (Writes before.now source cell.now × (result ≡ BrokenRule.Value)) ⊎ ((¬ Writes before.now source cell.now) × (result ≡ BrokenRule.Source)) }
{
    if is_writer(note, before, source, cell) {
        BrokenRule::Value
    } else {
        BrokenRule::Source
    }
}

/// The verdict on an external read.
fn of_read(
    notes: &Notes,
    note: &CellNote,
    initial: &Rows,
    before: &[Event],
    session: u32,
    cell: &Cell,
    source: u32,
    count: u32,
    word: u32,
    value: &Value,
) -> Option<BrokenRule>
    requires notes { AreNotes before.now notes.now }
    requires note { IsNoteOf before.now cell.now note.now }
    requires shape { IsInShape before.now (Event.Read session cell.now source count word value.now) }
    requires few { length before.now < 4294967295 }
    ensures { IsFound initial.now before.now (Event.Read session cell.now source count word value.now) result }
{
    if wrote_itself(notes, note, before, session, cell) {
        return Some(BrokenRule::Own);
    }
    if !gives_value(notes, note, initial, before, source, cell, value) {
        return Some(wrong_source(note, before, source, cell));
    }
    let candidates = count_writers(note, before, cell);
    if count == 0 {
        return Some(BrokenRule::Count(candidates));
    }
    if count > candidates {
        return Some(BrokenRule::Count(candidates));
    }
    None
}

/// The verdict on an internal read.
fn of_own(
    notes: &Notes,
    note: &CellNote,
    before: &[Event],
    session: u32,
    cell: &Cell,
    value: &Value,
) -> Option<BrokenRule>
    requires notes { AreNotes before.now notes.now }
    requires note { IsNoteOf before.now cell.now note.now }
    requires shape { IsInShape before.now (Event.Own session cell.now value.now) }
    ensures { (initial : List (CellValue × ValueOf)) → IsFound initial before.now (Event.Own session cell.now value.now) result }
{
    if !wrote_itself(notes, note, before, session, cell) {
        return Some(BrokenRule::Own);
    }
    if !gives_own_value(notes, note, before, session, cell, value) {
        return Some(BrokenRule::Value);
    }
    None
}
