// Reads and writes of cells.
ghost use Rattle.std.specs.Prelude.{◌≡◌, ◌<◌, ◌≤◌, ◌+◌, ◌-◌, true, Some, IsTrue, IfOk, IfSome, length, slice_get};
ghost use Rattle.right_logs.specs.Accesses.{GivesLast, GivesValue, IsClearRead, MayTouch, ShowsLast, ShowsRead};
ghost use Rattle.right_logs.specs.Passes.{Goes, Stands};

use crate::guesses::number_cell;
use crate::noted_values::NotedValues;
use crate::open_reads::{ReadNote, add_read};
use crate::pass::Pass;
use crate::seats::pending_of;
use crate::txn_notes::note_source;
use cell_base::{Cell, Memory, Value};
use cell_writers::CellNote;
use history_check::{add_place, is_absent_value, is_storable, set_place, table_in};
use history_core::Event;
use order_test::Places;

/// Whether the transaction has written the cell, and the value last.
fn gives_last(note: &CellNote, values: &NotedValues, txn: u32, value: &Value) -> bool
    ensures { IsTrue result → GivesLast note.now values.now txn value.now }
{
    match note.places.get(txn) {
        Some(place) => values.holds(place, value),
        None => false,
    }
}

/// Whether the transaction has committed.
fn is_committed(committed: &[bool], txn: u32) -> bool
    requires { 0 < txn }
    ensures { IsTrue result → slice_get committed.now (txn - 1) ≡ Some true }
{
    if txn as usize > committed.len() {
        return false;
    }
    committed[txn as usize - 1]
}

/// Whether the source is the initial transaction, which left the cell without a value, or has committed, and wrote the value last.
fn gives_value(
    note: &CellNote,
    values: &NotedValues,
    committed: &[bool],
    cell: &Cell,
    source: u32,
    value: &Value,
) -> bool
    ensures { IsTrue result → GivesValue note.now values.now committed.now cell.now source value.now }
{
    if source == 0 {
        return is_absent_value(cell, value);
    }
    is_committed(committed, source) && gives_last(note, values, source, value)
}

/// Whether so many sources may have been offered.
fn fits_count(note: &CellNote, count: u32) -> bool
    ensures { IsTrue result → (0 < count) × (count ≤ length note.now.committed + 1) }
{
    count != 0 && count as usize - 1 <= note.committed.as_slice().len()
}

/// Whether the notes show that a read is right.
fn is_clear_read(
    note: &CellNote,
    values: &NotedValues,
    committed: &[bool],
    cell: &Cell,
    reader: u32,
    source: u32,
    count: u32,
    value: &Value,
) -> bool
    ensures { IsTrue result → IsClearRead note.now values.now committed.now cell.now reader source count value.now }
{
    if note.places.get(reader).is_some() {
        return false;
    }
    if !fits_count(note, count) {
        return false;
    }
    gives_value(note, values, committed, cell, source, value)
}

/// Whether the pass shows that a read of the cell, which has the number, is right.
fn is_clear(
    pass: &Pass,
    at: u32,
    cell: &Cell,
    reader: u32,
    source: u32,
    count: u32,
    value: &Value,
) -> bool
    requires { at < length pass.now.cells.notes.items }
    ensures { IsTrue result → ShowsRead pass.now at cell.now reader source count value.now }
{
    is_clear_read(
        &pass.cells.notes[at as usize],
        &pass.values,
        &pass.committed,
        cell,
        reader,
        source,
        count,
        value,
    )
}

/// Whether the pass shows that the transaction has written the cell of the number, and the value last.
fn shows_last(pass: &Pass, at: u32, txn: u32, value: &Value) -> bool
    requires { at < length pass.now.cells.notes.items }
    ensures { IsTrue result → ShowsLast pass.now at txn value.now }
{
    gives_last(&pass.cells.notes[at as usize], &pass.values, txn, value)
}

/// The transaction that is pending in the session, where the table of the cell is there.
fn owner_of(pass: &Pass, session: u32, cell: &Cell) -> Option<u32>
    ensures { IfSome result (MayTouch pass.now session cell.now) }
{
    if table_in(cell) as usize >= pass.names.len() {
        return None;
    }
    pending_of(&pass.session_notes, session)
}

/// Takes an external read.
pub fn take_read(
    pass: &mut Pass,
    places: &Places,
    session: u32,
    cell: &Cell,
    source: u32,
    count: u32,
    word: u32,
    value: &Value,
) -> Result<bool, Memory>
    requires stands { Stands places.now.at.items pass.old }
    requires few { length pass.old.values < 2147483644 }
    ensures { IfOk result (λ goes. IsTrue goes → Goes places.now.at.items (Event.Read session cell.now source count word value.now) pass.old pass.new) }
{
    let Some(reader) = owner_of(pass, session, cell) else {
        return Ok(false);
    };
    let at = number_cell(&mut pass.cells, &mut pass.guesses, cell)?;
    if !is_clear(pass, at, cell, reader, source, count, value) {
        return Ok(false);
    }
    let place = pass.values.len() as u32;
    note_source(pass.clocks, &mut pass.txns, pass.clocked, reader, source)?;
    let note = ReadNote {
        cell: at,
        source,
        reader,
        place,
    };
    add_read(&mut pass.reads, session, note)?;
    pass.values.push_unset()?;
    Ok(true)
}

/// Takes an internal read.
pub fn take_own(
    pass: &mut Pass,
    places: &Places,
    session: u32,
    cell: &Cell,
    value: &Value,
) -> Result<bool, Memory>
    requires stands { Stands places.now.at.items pass.old }
    requires few { length pass.old.values < 2147483644 }
    ensures { IfOk result (λ goes. IsTrue goes → Goes places.now.at.items (Event.Own session cell.now value.now) pass.old pass.new) }
{
    let Some(reader) = owner_of(pass, session, cell) else {
        return Ok(false);
    };
    let at = number_cell(&mut pass.cells, &mut pass.guesses, cell)?;
    if !shows_last(pass, at, reader, value) {
        return Ok(false);
    }
    pass.values.push_unset()?;
    Ok(true)
}

/// Takes a write.
pub fn take_write(
    pass: &mut Pass,
    places: &Places,
    session: u32,
    cell: &Cell,
    value: &Value,
) -> Result<bool, Memory>
    requires stands { Stands places.now.at.items pass.old }
    requires few { length pass.old.values < 2147483644 }
    ensures { IfOk result (λ goes. IsTrue goes → Goes places.now.at.items (Event.Write session cell.now value.now) pass.old pass.new) }
{
    let Some(writer) = owner_of(pass, session, cell) else {
        return Ok(false);
    };
    if !is_storable(value) {
        return Ok(false);
    }
    let at = number_cell(&mut pass.cells, &mut pass.guesses, cell)?;
    let place = pass.values.len() as u32;
    set_place(&mut pass.cells.notes, at as usize, writer, place)?;
    add_place(&mut pass.pending, session, place)?;
    pass.values.push(value)?;
    Ok(true)
}
