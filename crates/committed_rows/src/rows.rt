// Gathers the rows that are there, with their fields.
ghost use Rattle.std.specs.Prelude.{◌≡◌, ◌↔◌, IfOk, IsTrue};
ghost use Rattle.std.specs.BTreeMap.{IsOrdered};
ghost use Rattle.history_core.specs.Initial.{IsAscending};
ghost use Rattle.committed_rows.specs.Rows.{AreCommittedRows};
ghost use Rattle.committed_rows.specs.Walk.{cell_cmp, AreRowsOf, FitsRows, HasRow};

use crate::newest::Newest;
use crate::walk::newest_values;
use cell_base::{Cell, Key, Memory, Value};
use history_core::History;
use std::alloc::Global;
use std::cmp::Ordering;

/// The rows that are there at the end of the history, ascending as cells are ordered: of each row its presence, which is true, and its fields
/// with their newest values. It goes once through what the transactions wrote, and fails where memory runs out, and nowhere else.
pub fn committed_rows(alloc: Global, history: &History) -> Result<Vec<(Cell, Value)>, Memory>
    ensures { IfOk result (λ cells. AreCommittedRows history.now cells.items) }
{
    let _ = history.events();
    let mut newest = newest_values(alloc, history)?;
    rows_of(alloc, &mut newest)
}

/// Takes out the rows that are there.
fn rows_of(alloc: Global, newest: &mut Newest) -> Result<Vec<(Cell, Value)>, Memory>
    ensures rows { IfOk result (λ cells. AreRowsOf newest.old.values.entries cells.items) }
    ensures ordered { IsOrdered cell_cmp newest.old.values }
{
    let _ = newest.values.len();
    let mut cells = Vec::new(alloc);
    while let Some((cell, value)) = newest.values.pop_first() {
        if is_there(cells.as_slice(), &cell, &value) {
            cells.push((cell, value))?;
        }
    }
    Ok(cells)
}

/// Whether the value is of a row that is there: a presence that is true, or a field of a row among the cells.
fn is_there(cells: &[(Cell, Value)], cell: &Cell, value: &Value) -> bool
    requires { IsAscending cells.now }
    ensures { IsTrue result ↔ FitsRows cells.now cell.now value.now }
{
    match cell {
        Cell::Presence(_, _) => matches!(value, Value::Flag(true)),
        Cell::Field(table, key, _) => has_row(cells, *table, key),
    }
}

/// Whether the presence of the row is among the cells.
fn has_row(cells: &[(Cell, Value)], table: u32, key: &Key) -> bool
    requires { IsAscending cells.now }
    ensures { IsTrue result ↔ HasRow cells.now table key.now }
{
    let mut low = 0;
    let mut high = cells.len();
    while low < high {
        let middle = low + (high - low) / 2;
        match order(&cells[middle].0, table, key) {
            Ordering::Less => low = middle + 1,
            Ordering::Equal => return true,
            Ordering::Greater => high = middle,
        }
    }
    false
}

/// How the cell stands to the presence of the row.
fn order(cell: &Cell, table: u32, key: &Key) -> Ordering
    ensures { result ≡ cell_cmp cell.now (Cell.Presence table key.now) }
{
    match cell {
        Cell::Presence(of_table, of_key) => of_table.cmp(&table).then(of_key.cmp(key)),
        Cell::Field(_, _, _) => Ordering::Greater,
    }
}
