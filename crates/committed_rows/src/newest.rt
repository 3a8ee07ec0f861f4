// The newest value of each cell.
ghost use Rattle.std.specs.Prelude.{◌≡◌, None, OnOk};
ghost use Rattle.cell_base.specs.declared.cell.Cell.{Cell as CellData};
ghost use Rattle.committed_rows.specs.Walk.{value_at, GainsValue, Fills};

use cell_base::{Cell, Memory, Value};
use std::alloc::Global;
use std::collections::BTreeMap;

/// For each cell that was written a value, in the order of the cells.
#[derive(Debug, Drop)]
pub struct Newest {
    pub alloc: Global,
    pub values: BTreeMap<Cell, Value>,
}

/// No cell. Takes no memory.
pub fn new(alloc: Global) -> Newest
    ensures { (cell : CellData) → value_at result cell ≡ None }
{
    Newest {
        alloc,
        values: BTreeMap::new(alloc),
    }
}

/// Notes the value of a cell that has none.
fn add(newest: &mut Newest, cell: &Cell, value: &Value) -> Result<(), Memory>
    ensures { OnOk result (GainsValue newest.old cell.now value.now newest.new) }
{
    let key = cell.copy(newest.alloc)?;
    let copy = value.copy(newest.alloc)?;
    newest.values.insert(key, copy)?;
    Ok(())
}

/// Notes the values of the cells that have none yet.
pub fn fill(newest: &mut Newest, writes: &[(Cell, Value)]) -> Result<(), Memory>
    ensures { OnOk result (Fills newest.old writes.now newest.new) }
{
    for write in writes {
        if !newest.values.contains_key(&write.0) {
            add(newest, &write.0, &write.1)?;
        }
    }
    Ok(())
}
