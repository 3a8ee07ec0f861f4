// What is noted of each cell, at its number.
ghost use Rattle.std.specs.Prelude.{◌≡◌, ◌<◌, [], length, IfOk, OnOk};
ghost use Rattle.cell_writers.specs.Numbered.{AddsNote, AreBlank, AreNumbered, TakesCell};

use crate::cell_numbers::{CellNumbers, number_cell, number_cells};
use crate::numbers::Numbers;
use crate::txn_places::TxnPlaces;
use cell_base::{Cell, Memory};
use history_core::Event;
use indexmap::IndexSet;
use std::alloc::Global;

/// Where each transaction that wrote a cell did so last, and the numbers of those that have committed, ascending.
#[derive(Debug, Drop)]
pub struct CellNote {
    pub places: TxnPlaces,
    pub committed: Numbers,
}

/// The numbers of the cells of some events, and the note of each cell at its number.
#[derive(Debug, Drop)]
pub struct CellNotes {
    pub numbers: CellNumbers,
    pub notes: Vec<CellNote>,
}

/// So many notes of which none says anything.
fn blank_notes(alloc: Global, count: usize) -> Result<Vec<CellNote>, Memory>
    ensures count { IfOk result (λ notes. length notes.items ≡ count) }
    ensures blank { IfOk result (λ notes. AreBlank notes.items) }
{
    let mut notes = Vec::new(alloc);
    for _at in 0..count {
        notes.push(CellNote {
            places: TxnPlaces::new(alloc),
            committed: Numbers::new(alloc),
        })?;
    }
    Ok(notes)
}

/// The numbers of the cells of the events, and notes that say nothing.
pub fn blank_cells(alloc: Global, events: &[Event]) -> Result<CellNotes, Memory>
    requires { length events.now < 4294967296 }
    ensures numbered { IfOk result (λ cells. AreNumbered events.now cells.numbers) }
    ensures count { IfOk result (λ cells. length cells.notes.items ≡ length cells.numbers.cells.keys) }
    ensures blank { IfOk result (λ cells. AreBlank cells.notes.items) }
{
    let numbers = number_cells(alloc, events)?;
    let notes = blank_notes(alloc, numbers.cells.len())?;
    Ok(CellNotes { numbers, notes })
}

/// No cell. Takes no memory.
pub fn no_cells(alloc: Global) -> CellNotes
    ensures cells { result.numbers.cells.keys ≡ [] }
    ensures numbers { result.numbers.of_events.items ≡ [] }
    ensures notes { result.notes.items ≡ [] }
{
    CellNotes {
        numbers: CellNumbers {
            alloc,
            cells: IndexSet::new(alloc),
            of_events: Vec::new(alloc),
        },
        notes: Vec::new(alloc),
    }
}

/// Gives the last cell a note that says nothing, where it has none yet.
fn add_note(cells: &mut CellNotes) -> Result<(), Memory>
    ensures numbers { cells.new.numbers ≡ cells.old.numbers }
    ensures notes { OnOk result (AddsNote (length cells.old.numbers.cells.keys) cells.old.notes.items cells.new.notes.items) }
{
    if cells.notes.len() >= cells.numbers.cells.len() {
        return Ok(());
    }
    let alloc = cells.numbers.alloc;
    cells.notes.push(CellNote {
        places: TxnPlaces::new(alloc),
        committed: Numbers::new(alloc),
    })?;
    Ok(())
}

/// Numbers the cell of the next event. One that is new has a note that says nothing.
pub fn take_cell(cells: &mut CellNotes, cell: &Cell) -> Result<u32, Memory>
    requires count { length cells.old.notes.items ≡ length cells.old.numbers.cells.keys }
    requires few { length cells.old.numbers.cells.keys < 4294967296 }
    ensures { IfOk result (λ number. TakesCell cells.old cell.now number cells.new) }
{
    let number = number_cell(&mut cells.numbers, cell)?;
    cells.numbers.of_events.push(number)?;
    add_note(cells)?;
    Ok(number)
}
