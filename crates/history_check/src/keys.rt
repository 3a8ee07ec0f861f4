// Whether a scan lists the keys that it has to, and no other.
ghost use Rattle.std.specs.Prelude.{◌<◌, ◌⊎◌, ◌↔◌, length, IsTrue, IfOk, Contains};
ghost use Rattle.cell_base.specs.declared.cell.Cell.{Cell as CellValue};
ghost use Rattle.history_check.specs.TableKeys.{keys_at};
ghost use Rattle.history_core.specs.Legal.{IsKeyBelow, ListsKeys, WroteItself};
ghost use Rattle.history_check.specs.Keys.{IsAscending, HasLaterWriter, IsPresent, IsToList, ListsAll, ListsNoOther};
ghost use Rattle.cell_writers.specs.Numbered.{AreNumbered};
ghost use Rattle.history_check.specs.Notes.{AreNotes, AreCellNotes};

use crate::cell_notes::note_of;
use crate::notes::Notes;
use crate::rows::Rows;
use crate::sources::{has_later_writer, wrote_itself};
use crate::table_keys::{Keys, TableKeys, keys_of};
use cell_base::{Cell, Key, Memory, Value};
use cell_writers::CellNotes;
use history_core::Event;
use std::cmp::Ordering;

/// Whether the keys of the table that the session lists are those that a scan has to list, ascending.
pub fn lists_keys(
    notes: &Notes,
    cells: &CellNotes,
    initial: &Rows,
    before: &[Event],
    session: u32,
    table: u32,
    keys: &[Key],
) -> Result<bool, Memory>
    requires notes { AreNotes before.now notes.now }
    requires cells { AreCellNotes before.now cells.now }
    requires numbered { AreNumbered before.now cells.now.numbers }
    requires few { length before.now < 4294967295 }
    ensures { IfOk result (λ lists. IsTrue lists ↔ ListsKeys initial.now before.now session table keys.now) }
{
    if !ascend(keys) {
        return Ok(false);
    }
    if !lists_table(
        notes,
        cells,
        initial,
        before,
        session,
        table,
        keys,
        initial.keys(),
    )? {
        return Ok(false);
    }
    if !lists_table(
        notes,
        cells,
        initial,
        before,
        session,
        table,
        keys,
        &notes.keys,
    )? {
        return Ok(false);
    }
    lists_no_other(notes, cells, initial, before, session, table, keys)
}

/// Whether each key is below the next.
fn ascend(keys: &[Key]) -> bool
    ensures { IsTrue result ↔ IsAscending keys.now }
{
    for at in 1..keys.len() {
        if !is_below(&keys[at - 1], &keys[at]) {
            return false;
        }
    }
    true
}

/// Whether the one key is below the other.
fn is_below(low: &Key, high: &Key) -> bool
    ensures { IsTrue result ↔ IsKeyBelow low.now high.now }
{
    match low.cmp(high) {
        Ordering::Less => true,
        Ordering::Equal => false,
        Ordering::Greater => false,
    }
}

/// Whether the key is among those that ascend.
fn contains_key(keys: &[Key], key: &Key) -> bool
    requires { IsAscending keys.now }
    ensures { IsTrue result ↔ Contains keys.now key.now }
{
    match keys.binary_search(key) {
        Ok(_at) => true,
        Err(_at) => false,
    }
}

/// Whether the key is listed, where a scan has to list it.
fn is_listed(
    notes: &Notes,
    cells: &CellNotes,
    initial: &Rows,
    before: &[Event],
    session: u32,
    table: u32,
    keys: &[Key],
    key: &Key,
) -> Result<bool, Memory>
    requires notes { AreNotes before.now notes.now }
    requires cells { AreCellNotes before.now cells.now }
    requires numbered { AreNumbered before.now cells.now.numbers }
    requires few { length before.now < 4294967295 }
    requires ascending { IsAscending keys.now }
    ensures { IfOk result (λ listed. IsTrue listed ↔ (IsToList initial.now before.now session table key.now → Contains keys.now key.now)) }
{
    if contains_key(keys, key) {
        return Ok(true);
    }
    let is = is_to_list(notes, cells, initial, before, session, table, key)?;
    Ok(!is)
}

/// Whether each of these keys is listed that a scan has to list.
fn lists_all(
    notes: &Notes,
    cells: &CellNotes,
    initial: &Rows,
    before: &[Event],
    session: u32,
    table: u32,
    keys: &[Key],
    among: &Keys,
) -> Result<bool, Memory>
    requires notes { AreNotes before.now notes.now }
    requires cells { AreCellNotes before.now cells.now }
    requires numbered { AreNumbered before.now cells.now.numbers }
    requires few { length before.now < 4294967295 }
    requires ascending { IsAscending keys.now }
    ensures { IfOk result (λ all. IsTrue all ↔ ListsAll initial.now before.now session table among.now keys.now) }
{
    for key in among.iter() {
        if !is_listed(notes, cells, initial, before, session, table, keys, key)? {
            return Ok(false);
        }
    }
    Ok(true)
}

/// Whether each of the table's keys in the index is listed that a scan has to list.
fn lists_table(
    notes: &Notes,
    cells: &CellNotes,
    initial: &Rows,
    before: &[Event],
    session: u32,
    table: u32,
    keys: &[Key],
    index: &TableKeys,
) -> Result<bool, Memory>
    requires notes { AreNotes before.now notes.now }
    requires cells { AreCellNotes before.now cells.now }
    requires numbered { AreNumbered before.now cells.now.numbers }
    requires few { length before.now < 4294967295 }
    requires ascending { IsAscending keys.now }
    ensures { IfOk result (λ all. IsTrue all ↔ ListsAll initial.now before.now session table (keys_at index.now table) keys.now) }
{
    match keys_of(index, table) {
        Some(among) => lists_all(notes, cells, initial, before, session, table, keys, among),
        None => Ok(true),
    }
}

/// Whether some transaction after the initial one, or the pending one of the session, wrote the cell.
fn is_written(notes: &Notes, cells: &CellNotes, before: &[Event], session: u32, cell: &Cell) -> bool
    requires notes { AreNotes before.now notes.now }
    requires cells { AreCellNotes before.now cells.now }
    requires numbered { AreNumbered before.now cells.now.numbers }
    ensures { IsTrue result ↔ (HasLaterWriter before.now cell.now ⊎ WroteItself before.now session cell.now) }
{
    match note_of(cells, before, cell) {
        Some(note) => {
            has_later_writer(note, before, cell) || wrote_itself(notes, note, before, session, cell)
        }
        None => false,
    }
}

/// Whether the presence of a row is true from the start, or some transaction, or the pending one of the session, wrote it.
fn is_present(
    notes: &Notes,
    cells: &CellNotes,
    initial: &Rows,
    before: &[Event],
    session: u32,
    cell: &Cell,
) -> bool
    requires notes { AreNotes before.now notes.now }
    requires cells { AreCellNotes before.now cells.now }
    requires numbered { AreNumbered before.now cells.now.numbers }
    ensures { IsTrue result ↔ IsPresent initial.now before.now session cell.now }
{
    if initial.holds(cell, &Value::Flag(true)) {
        return true;
    }
    is_written(notes, cells, before, session, cell)
}

/// Whether the row is one that a scan has to list.
fn is_to_list(
    notes: &Notes,
    cells: &CellNotes,
    initial: &Rows,
    before: &[Event],
    session: u32,
    table: u32,
    key: &Key,
) -> Result<bool, Memory>
    requires notes { AreNotes before.now notes.now }
    requires cells { AreCellNotes before.now cells.now }
    requires numbered { AreNumbered before.now cells.now.numbers }
    requires few { length before.now < 4294967295 }
    ensures { IfOk result (λ is. IsTrue is ↔ IsPresent initial.now before.now session (CellValue.Presence table key.now)) }
{
    let key = key.copy(notes.alloc)?;
    let cell = Cell::Presence(table, key);
    let is = is_present(notes, cells, initial, before, session, &cell);
    Ok(is)
}

/// Whether each listed key is one that a scan has to list.
fn lists_no_other(
    notes: &Notes,
    cells: &CellNotes,
    initial: &Rows,
    before: &[Event],
    session: u32,
    table: u32,
    keys: &[Key],
) -> Result<bool, Memory>
    requires notes { AreNotes before.now notes.now }
    requires cells { AreCellNotes before.now cells.now }
    requires numbered { AreNumbered before.now cells.now.numbers }
    requires few { length before.now < 4294967295 }
    ensures { IfOk result (λ lists. IsTrue lists ↔ ListsNoOther initial.now before.now session table keys.now) }
{
    for key in keys {
        if !is_to_list(notes, cells, initial, before, session, table, key)? {
            return Ok(false);
        }
    }
    Ok(true)
}
