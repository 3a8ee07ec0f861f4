// Searches in cells that ascend: where a cell stands, and where the rows of a table begin.
ghost use Rattle.std.specs.Prelude.{◌≡◌, ◌≤◌, ◌-◌, length, take, drop, IfSome, IfNone};
ghost use Rattle.txn_buffer.specs.Buffer.{StandsAt, IsAbsent};
ghost use Rattle.cell_base.specs.contracts.cell.CellOrd.TheImpl as cell_order;
ghost use Rattle.history_core.specs.Initial.{IsAscending, AreRowsOf, IsInitialState};
ghost use Rattle.history_core.specs.Judged.{cell_at, is_row_below, IsCut};

use cell_base::{Cell, Key, Value};
use std::cmp::Ordering;

/// Where the cell stands.
pub fn place_of_cell(cells: &[(Cell, Value)], cell: &Cell) -> Option<usize>
    requires { IsAscending cells.now }
    ensures found { IfSome result (λ at. StandsAt cells.now cell.now at) }
    ensures absent { IfNone result (IsAbsent cells.now cell.now) }
{
    match cell {
        Cell::Presence(table, key) => place_of(cells, *table, key, None),
        Cell::Field(table, key, column) => place_of(cells, *table, key, Some(*column as usize)),
    }
}

/// Where the field of the row stands, or its presence where no column is given.
pub fn place_of(
    cells: &[(Cell, Value)],
    table: u32,
    key: &Key,
    column: Option<usize>,
) -> Option<usize>
    requires { IsAscending cells.now }
    ensures found { IfSome result (λ at. StandsAt cells.now (cell_at table key.now column) at) }
    ensures absent { IfNone result (IsAbsent cells.now (cell_at table key.now column)) }
{
    let mut low = 0;
    let mut high = cells.len();
    while low < high {
        let middle = low + (high - low) / 2;
        match order(&cells[middle].0, table, key, column) {
            Ordering::Less => low = middle + 1,
            Ordering::Equal => return Some(middle),
            Ordering::Greater => high = middle,
        }
    }
    None
}

/// How the cell stands to the field of the row, or to its presence where no column is given.
fn order(cell: &Cell, table: u32, key: &Key, column: Option<usize>) -> Ordering
    ensures { result ≡ (cell_order.ghosts).cmp cell.now (cell_at table key.now column) }
{
    match cell {
        Cell::Presence(of_table, of_key) => match column {
            None => of_table.cmp(&table).then(of_key.cmp(key)),
            Some(_) => Ordering::Less,
        },
        Cell::Field(of_table, of_key, of_column) => match column {
            None => Ordering::Greater,
            Some(column) => of_table
                .cmp(&table)
                .then(of_key.cmp(key))
                .then((*of_column as usize).cmp(&column)),
        },
    }
}

/// The presences of the table's rows.
pub fn rows_of(cells: &[(Cell, Value)], table: u32) -> &[(Cell, Value)]
    requires { IsInitialState cells.now }
    ensures { AreRowsOf cells.now table result.now }
{
    let from = rows_below(cells, u64::from(table));
    let to = rows_below(cells, u64::from(table) + 1);
    part(cells, from, to)
}

/// The cells from the one place to the other.
fn part(cells: &[(Cell, Value)], from: usize, to: usize) -> &[(Cell, Value)]
    requires order { from ≤ to }
    requires within { to ≤ length cells.now }
    ensures { result.now ≡ take (to - from) (drop from cells.now) }
{
    &cells[from..to]
}

/// Where the rows of tables below this one end.
fn rows_below(cells: &[(Cell, Value)], bound: u64) -> usize
    requires { IsAscending cells.now }
    ensures { IsCut cells.now bound result }
{
    let mut low = 0;
    let mut high = cells.len();
    while low < high {
        let middle = low + (high - low) / 2;
        if is_below(&cells[middle].0, bound) {
            low = middle + 1;
        } else {
            high = middle;
        }
    }
    low
}

/// Whether the cell is the presence of a row of a table below this one.
fn is_below(cell: &Cell, bound: u64) -> bool
    ensures { result ≡ is_row_below cell.now bound }
{
    match cell {
        Cell::Presence(table, _) => u64::from(*table) < bound,
        Cell::Field(_, _, _) => false,
    }
}
