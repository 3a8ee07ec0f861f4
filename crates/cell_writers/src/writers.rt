// The transactions that write each cell.
ghost use Rattle.std.specs.Prelude.{◌≡◌, ◌≤◌, [], ℕ, Contains, OnOk, OnErr, IfSome, IfNone};
ghost use Rattle.cell_base.specs.declared.cell.Cell.{Cell as CellData};
ghost use Rattle.cell_writers.specs.Writers.{numbers_at, AreAscending, GainsWriter, GainsWrites, IsLastUpTo};

use crate::numbers::{Numbers, last_up_to};
use cell_base::{Cell, Memory, Value};
use indexmap::IndexMap;
use std::alloc::Global;

/// For each cell the numbers of transactions.
#[derive(Debug, Drop)]
pub struct CellWriters {
    pub alloc: Global,
    pub lists: IndexMap<Cell, Numbers>,
}

/// No cell. Takes no memory.
pub fn new_writers(alloc: Global) -> CellWriters
    ensures { (cell : CellData) → numbers_at result cell ≡ [] }
{
    CellWriters {
        alloc,
        lists: IndexMap::new(alloc),
    }
}

/// The numbers that are noted at the cell.
pub fn writers_at<'a>(writers: &'a CellWriters, cell: &Cell) -> &'a [u32]
    ensures { result.now ≡ numbers_at writers.now cell.now }
{
    match writers.lists.get(cell) {
        Some(numbers) => numbers.as_slice(),
        None => &[],
    }
}

/// Of the numbers at the cell the greatest up to the limit.
pub fn last_writer(writers: &CellWriters, cell: &Cell, limit: u32) -> Option<u32>
    requires { AreAscending writers.now }
    ensures some { IfSome result (IsLastUpTo (numbers_at writers.now cell.now) limit) }
    ensures none { IfNone result ((other : ℕ) → Contains (numbers_at writers.now cell.now) other → ¬ (other ≤ limit)) }
{
    last_up_to(writers_at(writers, cell), limit)
}

/// Notes one number at a cell that has none.
fn start_list(writers: &mut CellWriters, cell: &Cell, number: u32) -> Result<(), Memory>
    requires ascending { AreAscending writers.old }
    requires empty { numbers_at writers.old cell.now ≡ [] }
    ensures ascending { AreAscending writers.new }
    ensures ok { OnOk result (GainsWriter writers.old cell.now number writers.new) }
{
    let key = cell.copy(writers.alloc)?;
    let numbers = Numbers::one(writers.alloc, number)?;
    writers.lists.insert(key, numbers)?;
    Ok(())
}

/// Notes the number at the cell.
fn note_writer(writers: &mut CellWriters, cell: &Cell, number: u32) -> Result<(), Memory>
    requires ascending { AreAscending writers.old }
    ensures ascending { AreAscending writers.new }
    ensures ok { OnOk result (GainsWriter writers.old cell.now number writers.new) }
{
    match writers.lists.get_mut(cell) {
        Some(numbers) => numbers.insert(number),
        None => start_list(writers, cell, number),
    }
}

/// Notes the number at all cells that were written.
pub fn note_writes(
    writers: &mut CellWriters,
    writes: &[(Cell, Value)],
    number: u32,
) -> Result<(), Memory>
    requires ascending { AreAscending writers.old }
    ensures ascending { AreAscending writers.new }
    ensures ok { OnOk result (GainsWrites writers.old writes.now number writers.new) }
{
    for entry in writes {
        note_writer(writers, &entry.0, number)?;
    }
    Ok(())
}
