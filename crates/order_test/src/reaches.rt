// How far the committed writers of each cell up to each of them reach in the order.
ghost use Rattle.std.specs.Prelude.{◌≡◌, ◌≤◌, ◌<◌, ◌+◌, Some, IsTrue, IfOk, OnOk, length, slice_get};
ghost use Rattle.std.specs.List.Sorted.{IsStrictlyIncreasing};
ghost use Rattle.cell_writers.specs.declared.cell_note.CellNote.{CellNote as NoteOf};
ghost use Rattle.order_test.specs.Entries.{AreAscending};
ghost use Rattle.order_test.specs.Firsts.{HoldCommitted};
ghost use Rattle.order_test.specs.Reaches.{IsReach, AddsReach, AreReaches, AreReachesUpTo, StandNoFurther};

use crate::firsts::TableFirsts;
use crate::places::{Places, place_at};
use crate::presences::firsts_of;
use cell_base::Memory;
use cell_writers::CellNotes;
use std::alloc::Global;

/// Beside each number that is noted at a cell the greatest place in the order of those up to it, cell after cell.
#[derive(Debug, Drop)]
pub struct CellReaches {
    /// Where those of each cell begin.
    pub starts: Vec<usize>,
    pub highest: Vec<usize>,
    /// The keys whose presence was written, where there is a scan.
    pub firsts: TableFirsts,
}

/// The later of two places.
fn later(first: usize, second: usize) -> usize
    ensures { (first ≤ result) × (second ≤ result) }
{
    first.max(second)
}

/// Puts the reaches of the numbers after the others.
fn add_reach(highest: &mut Vec<usize>, places: &Places, numbers: &[u32]) -> Result<(), Memory>
    ensures { OnOk result (AddsReach places.now.at.items numbers.now (length numbers.now) highest.old.items highest.new.items) }
{
    let mut top = 0;
    for at in 0..numbers.len() {
        top = later(top, place_at(places, numbers[at]));
        highest.push(top)?;
    }
    Ok(())
}

/// Notes the numbers of one cell more.
fn note_cell(
    reaches: &mut CellReaches,
    places: &Places,
    cells: &CellNotes,
    at: usize,
) -> Result<(), Memory>
    requires reaches { AreReachesUpTo places.now.at.items cells.now.notes.items at reaches.old }
    requires within { at < length cells.now.notes.items }
    ensures firsts { reaches.new.firsts ≡ reaches.old.firsts }
    ensures reaches { OnOk result (AreReachesUpTo places.now.at.items cells.now.notes.items (at + 1) reaches.new) }
{
    let numbers = cells.notes[at].committed.as_slice();
    let start = reaches.highest.len();
    reaches.starts.push(start)?;
    add_reach(&mut reaches.highest, places, numbers)
}

/// How far the writers reach, and the keys whose presence was written, where there is a scan.
pub fn reaches_of(
    alloc: Global,
    cells: &CellNotes,
    places: &Places,
    scans: bool,
) -> Result<CellReaches, Memory>
    requires count { length cells.now.notes.items ≡ length cells.now.numbers.cells.keys }
    requires ascending { AreAscending cells.now }
    ensures reaches { IfOk result (AreReaches places.now.at.items cells.now) }
    ensures firsts { IfOk result (λ reaches. IsTrue scans → HoldCommitted cells.now reaches.firsts) }
{
    let mut reaches = CellReaches {
        starts: Vec::new(alloc),
        highest: Vec::new(alloc),
        firsts: firsts_of(alloc, cells, scans)?,
    };
    for at in 0..cells.notes.len() {
        note_cell(&mut reaches, places, cells, at)?;
    }
    Ok(reaches)
}

/// Whether none of the numbers up to the limit stands after the source.
fn stand_no_further(
    places: &Places,
    numbers: &[u32],
    highest: &[usize],
    start: usize,
    limit: u32,
    from: u32,
) -> bool
    requires ascending { IsStrictlyIncreasing numbers.now }
    requires reach { IsReach places.now.at.items numbers.now highest.now start }
    ensures { IsTrue result → StandNoFurther places.now.at.items numbers.now limit from }
{
    let place = place_at(places, from);
    match numbers.binary_search(&limit) {
        Ok(at) => highest[start + at] <= place,
        Err(at) => at == 0 || highest[start + at - 1] <= place,
    }
}

/// Whether none of the transactions up to the limit that wrote the cell of the number stands after the source.
pub fn cell_is_clear(
    places: &Places,
    cells: &CellNotes,
    reaches: &CellReaches,
    number: usize,
    limit: u32,
    from: u32,
) -> bool
    requires within { number < length cells.now.notes.items }
    requires ascending { AreAscending cells.now }
    requires reaches { AreReaches places.now.at.items cells.now reaches.now }
    ensures { IsTrue result → (note : NoteOf) → slice_get cells.now.notes.items number ≡ Some note → StandNoFurther places.now.at.items note.committed limit from }
{
    stand_no_further(
        places,
        cells.notes[number].committed.as_slice(),
        &reaches.highest,
        reaches.starts[number],
        limit,
        from,
    )
}
