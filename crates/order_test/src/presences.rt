// The keys of each table whose presence a committed transaction wrote, each with the first of these.
ghost use Rattle.std.specs.Prelude.{◌≡◌, ◌≤◌, ◌<◌, ◌+◌, IsTrue, IfOk, OnOk, Contains, length};
ghost use Rattle.order_test.specs.Entries.{IsEntryAt, AreAscending};
ghost use Rattle.order_test.specs.Firsts.{firsts_at, KeepsFirsts, HoldCommitted, HoldsFirst, HoldFirsts, ListsUpTo};

use crate::firsts::{TableFirsts, new_firsts, note_key};
use crate::rivals::contains_key;
use cell_base::{Cell, Key, Memory};
use cell_writers::CellNotes;
use std::alloc::Global;

/// The cell of the number, and the transactions that have committed and write it.
pub fn entry_at<'a>(cells: &'a CellNotes, at: usize) -> (&'a Cell, &'a [u32])
    requires within { at < length cells.now.notes.items }
    requires count { length cells.now.notes.items ≡ length cells.now.numbers.cells.keys }
    ensures { IsEntryAt cells.now at (result.0.now, result.1.now) }
{
    match cells.numbers.cells.get_index(at) {
        Some(cell) => (cell, cells.notes[at].committed.as_slice()),
        None => unreachable!(),
    }
}

/// Notes the key of a presence with the first of its numbers.
fn note_presence(firsts: &mut TableFirsts, cell: &Cell, numbers: &[u32]) -> Result<(), Memory>
    ensures kept { KeepsFirsts firsts.old firsts.new }
    ensures noted { OnOk result (HoldsFirst firsts.new numbers.now cell.now) }
{
    match cell {
        Cell::Presence(table, key) => {
            if numbers.len() == 0 {
                return Ok(());
            }
            let key = key.copy(firsts.alloc)?;
            note_key(firsts, *table, key, numbers[0])
        }
        Cell::Field(..) => Ok(()),
    }
}

/// The same of the cell at the place.
fn note_entry(firsts: &mut TableFirsts, cells: &CellNotes, at: usize) -> Result<(), Memory>
    requires firsts { HoldFirsts cells.now at firsts.old }
    requires within { at < length cells.now.notes.items }
    requires count { length cells.now.notes.items ≡ length cells.now.numbers.cells.keys }
    ensures { OnOk result (HoldFirsts cells.now (at + 1) firsts.new) }
{
    let (cell, numbers) = entry_at(cells, at);
    note_presence(firsts, cell, numbers)
}

/// The keys of all presences, where they are wanted.
pub fn firsts_of(alloc: Global, cells: &CellNotes, wanted: bool) -> Result<TableFirsts, Memory>
    requires count { length cells.now.notes.items ≡ length cells.now.numbers.cells.keys }
    requires ascending { AreAscending cells.now }
    ensures { IfOk result (λ firsts. IsTrue wanted → HoldCommitted cells.now firsts) }
{
    let mut firsts = new_firsts(alloc);
    if !wanted {
        return Ok(firsts);
    }
    for at in 0..cells.notes.len() {
        note_entry(&mut firsts, cells, at)?;
    }
    Ok(firsts)
}

/// Whether the key of the pair is listed, or its number is above the top.
fn is_listed_to(pair: &(u32, Key), keys: &[Key], top: u32) -> bool
    ensures { IsTrue result → pair.now.0 ≤ top → Contains keys.now pair.now.1 }
{
    pair.0 > top || contains_key(keys, &pair.1)
}

/// Whether each of the keys with a number up to the top is listed.
fn are_listed_to(pairs: &[(u32, Key)], keys: &[Key], top: u32) -> bool
    ensures { IsTrue result → ListsUpTo pairs.now keys.now top }
{
    for at in 0..pairs.len() {
        if !is_listed_to(&pairs[at], keys, top) {
            return false;
        }
    }
    true
}

/// The same of the keys of a table.
pub fn table_lists_to(firsts: &TableFirsts, table: u32, keys: &[Key], top: u32) -> bool
    ensures { IsTrue result → ListsUpTo (firsts_at firsts.now table) keys.now top }
{
    match firsts.tables.get(&table) {
        Some(list) => are_listed_to(list.as_slice(), keys, top),
        None => true,
    }
}
