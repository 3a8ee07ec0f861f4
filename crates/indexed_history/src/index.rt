// The transactions that wrote each cell, by cell.
ghost use Rattle.std.specs.Prelude.{◌≡◌, [], OnOk, OnErr};
ghost use Rattle.cell_base.specs.declared.cell.Cell.{Cell as CellData};
ghost use Rattle.indexed_history.specs.Index.{numbers_at, AreAscending, GainsWriter, LosesWriter, ListsSame, Forgets};

use crate::numbers::Numbers;
use cell_base::{Cell, Memory, Value};
use indexmap::IndexMap;
use std::alloc::Global;

/// For each cell the numbers of transactions.
#[derive(Debug, Drop)]
pub struct Index {
    pub alloc: Global,
    pub lists: IndexMap<Cell, Numbers>,
}

/// No cell. Takes no memory.
pub fn new(alloc: Global) -> Index
    ensures { (cell : CellData) → numbers_at result cell ≡ [] }
{
    Index {
        alloc,
        lists: IndexMap::new(alloc),
    }
}

/// The numbers that are listed at the cell.
pub fn numbers_of<'a>(index: &'a Index, cell: &Cell) -> &'a [u32]
    ensures { result.now ≡ numbers_at index.now cell.now }
{
    match index.lists.get(cell) {
        Some(numbers) => numbers.as_slice(),
        None => &[],
    }
}

/// Lists one number at a cell that has none.
fn start_list(index: &mut Index, cell: &Cell, number: u32) -> Result<(), Memory>
    requires ascending { AreAscending index.old }
    requires empty { numbers_at index.old cell.now ≡ [] }
    ensures ascending { AreAscending index.new }
    ensures ok { OnOk result (GainsWriter index.old cell.now number index.new) }
    ensures err { OnErr result (ListsSame index.old index.new) }
{
    let key = cell.copy(index.alloc)?;
    let numbers = Numbers::one(index.alloc, number)?;
    index.lists.insert(key, numbers)?;
    Ok(())
}

/// Lists the number at the cell. Out of memory the lists stay.
pub fn note_writer(index: &mut Index, cell: &Cell, number: u32) -> Result<(), Memory>
    requires ascending { AreAscending index.old }
    ensures ascending { AreAscending index.new }
    ensures ok { OnOk result (GainsWriter index.old cell.now number index.new) }
    ensures err { OnErr result (ListsSame index.old index.new) }
{
    match index.lists.get_mut(cell) {
        Some(numbers) => numbers.insert(number),
        None => start_list(index, cell, number),
    }
}

/// Takes the number out of the cell's list. Takes no memory.
pub fn forget_writer(index: &mut Index, cell: &Cell, number: u32)
    requires ascending { AreAscending index.old }
    ensures ascending { AreAscending index.new }
    ensures loses { LosesWriter index.old cell.now number index.new }
{
    match index.lists.get_mut(cell) {
        Some(numbers) => numbers.remove(number),
        None => {}
    }
}

/// Takes the number out of the lists of all cells that were written. Takes no memory.
pub fn forget_writes(index: &mut Index, writes: &[(Cell, Value)], number: u32)
    requires ascending { AreAscending index.old }
    ensures { Forgets index.old writes.now number index.new }
{
    for entry in writes {
        forget_writer(index, &entry.0, number);
    }
}
