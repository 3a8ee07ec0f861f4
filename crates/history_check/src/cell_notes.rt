// The notes of the cells, which are numbered beforehand.
ghost use Rattle.std.specs.Prelude.{◌≡◌, ◌≤◌, ◌<◌, ◌∷◌, ◌++◌, [], ℕ, Some, None, length, slice_get, IfOk, IfSome, IfNone};
ghost use Rattle.cell_writers.specs.Numbered.{AreNumbered, cell_in};
ghost use Rattle.history_core.specs.Relations.{HasWritten};
ghost use Rattle.history_check.specs.Notes.{AreCellNotes, IsNoteOf};

use cell_base::{Cell, Memory};
use cell_writers::{CellNote, CellNotes, blank_cells, number_of};
use history_core::Event;
use std::alloc::Global;

/// The numbers of the cells of the events, and notes of none of the events.
pub fn cell_notes(alloc: Global, events: &[Event]) -> Result<CellNotes, Memory>
    requires { length events.now < 4294967296 }
    ensures numbered { IfOk result (λ cells. AreNumbered events.now cells.numbers) }
    ensures notes { IfOk result (AreCellNotes []) }
{
    blank_cells(alloc, events)
}

/// The number of the cell of the event, which comes next after those before it.
pub fn number_at(cells: &CellNotes, before: &[Event], event: &Event, cell: &Cell) -> usize
    requires numbered { AreNumbered (before.now ++ event.now ∷ []) cells.now.numbers }
    requires is { cell_in event.now ≡ Some cell.now }
    ensures { slice_get cells.now.numbers.cells.keys result ≡ Some cell.now }
{
    cells.numbers.of_events[before.len()] as usize
}

/// The note of the cell of the event, which comes next.
pub fn note_at<'a>(
    cells: &'a CellNotes,
    before: &[Event],
    event: &Event,
    cell: &Cell,
) -> &'a CellNote
    requires notes { AreCellNotes before.now cells.now }
    requires numbered { AreNumbered (before.now ++ event.now ∷ []) cells.now.numbers }
    requires is { cell_in event.now ≡ Some cell.now }
    ensures { IsNoteOf before.now cell.now result.now }
{
    &cells.notes[number_at(cells, before, event, cell)]
}

/// The note of the cell. `None` where no event reads or writes it.
pub fn note_of<'a>(cells: &'a CellNotes, before: &[Event], cell: &Cell) -> Option<&'a CellNote>
    requires notes { AreCellNotes before.now cells.now }
    requires numbered { AreNumbered before.now cells.now.numbers }
    ensures some { IfSome result (λ note. IsNoteOf before.now cell.now note.now) }
    ensures none { IfNone result ((number : ℕ) → ¬ HasWritten before.now number cell.now) }
{
    match number_of(&cells.numbers, cell) {
        Some(number) => Some(&cells.notes[number]),
        None => None,
    }
}
