// The cells of events, numbered.
ghost use Rattle.std.specs.Prelude.{◌≡◌, ◌<◌, ◌+◌, ◌∷◌, ◌++◌, [], Some, None, ℕ, length, IfOk, IfSome, IfNone, OnOk, slice_get};
ghost use Rattle.cell_base.specs.declared.cell.Cell.{Cell as CellData};
ghost use Rattle.cell_writers.specs.Numbered.{AreNumbered, AreNumberedSo, AddsCell, NumbersNext, cell_in};

use cell_base::{Cell, Memory};
use history_core::Event;
use indexmap::IndexSet;
use std::alloc::Global;

/// The cells of some events, each once and numbered from 0, and for each event the number of its cell; 0 for one that has none.
#[derive(Debug, Drop)]
pub struct CellNumbers {
    pub alloc: Global,
    pub cells: IndexSet<Cell>,
    pub of_events: Vec<u32>,
}

/// The cell that the event reads or writes. `None` for one that does neither.
fn cell_of(event: &Event) -> Option<&Cell>
    ensures some { IfSome result (λ cell. cell_in event.now ≡ Some cell.now) }
    ensures none { IfNone result (cell_in event.now ≡ None) }
{
    match event {
        Event::Read { cell, .. } => Some(cell),
        Event::Own { cell, .. } => Some(cell),
        Event::Write { cell, .. } => Some(cell),
        Event::Open { .. } => None,
        Event::Close { .. } => None,
        Event::Define { .. } => None,
        Event::Look { .. } => None,
        Event::Begin { .. } => None,
        Event::Scan { .. } => None,
        Event::Commit { .. } => None,
        Event::Rollback { .. } => None,
        Event::Show { .. } => None,
    }
}

/// The number of the cell, which is the next one where it has none yet.
pub fn number_cell(numbers: &mut CellNumbers, cell: &Cell) -> Result<u32, Memory>
    requires few { length numbers.old.cells.keys < 4294967296 }
    ensures kept { numbers.new.of_events ≡ numbers.old.of_events }
    ensures ok { OnOk result (AddsCell numbers.old.cells.keys cell.now numbers.new.cells.keys) }
    ensures is { IfOk result (λ n. slice_get numbers.new.cells.keys n ≡ Some cell.now) }
{
    match numbers.cells.get_index_of(cell) {
        Some(at) => Ok(at as u32),
        None => {
            let next = numbers.cells.len() as u32;
            let copy = cell.copy(numbers.alloc)?;
            numbers.cells.insert(copy)?;
            Ok(next)
        }
    }
}

/// The number of the event's cell, which is added where it has none yet; 0 for an event that has no cell.
fn next_number(numbers: &mut CellNumbers, event: &Event) -> Result<u32, Memory>
    requires few { length numbers.old.cells.keys < 4294967296 }
    ensures kept { numbers.new.of_events ≡ numbers.old.of_events }
    ensures next { IfOk result (λ n. NumbersNext event.now numbers.old.cells.keys n numbers.new.cells.keys) }
{
    match cell_of(event) {
        Some(cell) => number_cell(numbers, cell),
        None => Ok(0),
    }
}

/// Numbers the cell of the next event.
fn number_event(numbers: &mut CellNumbers, before: &[Event], event: &Event) -> Result<(), Memory>
    requires numbered { AreNumberedSo before.now numbers.old }
    requires few { length before.now < 4294967295 }
    ensures { OnOk result (AreNumberedSo (before.now ++ event.now ∷ []) numbers.new) }
{
    let number = next_number(numbers, event)?;
    numbers.of_events.push(number)?;
    Ok(())
}

/// Numbers the cells of the events.
pub fn number_cells(alloc: Global, events: &[Event]) -> Result<CellNumbers, Memory>
    requires { length events.now < 4294967296 }
    ensures { IfOk result (AreNumbered events.now) }
{
    let mut numbers = CellNumbers {
        alloc,
        cells: IndexSet::new(alloc),
        of_events: Vec::new(alloc),
    };
    for at in 0..events.len() {
        number_event(&mut numbers, &events[..at], &events[at])?;
    }
    Ok(numbers)
}

/// The number of the cell. `None` where no event reads or writes it.
pub fn number_of(numbers: &CellNumbers, cell: &Cell) -> Option<usize>
    ensures some { IfSome result (λ n. slice_get numbers.now.cells.keys n ≡ Some cell.now) }
    ensures none { IfNone result ((n : ℕ) → slice_get numbers.now.cells.keys n ≡ Some cell.now → ⊥) }
{
    numbers.cells.get_index_of(cell)
}
