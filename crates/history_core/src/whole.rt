// Whether cells are an initial state of whole rows.
ghost use Rattle.std.specs.Prelude.{◌≡◌, ◌≤◌, ◌<◌, ◌↔◌, ℕ, true, length, IsTrue, IfSome, IfNone};
ghost use Rattle.cell_base.specs.contracts.cell.CellOrd.TheImpl as cell_order;
ghost use Rattle.std.specs.declared.cmp.Ordering.TheVariants.{Less};
ghost use Rattle.cell_base.specs.declared.value.Value.{Value};
ghost use Rattle.history_core.specs.Initial.{IsAscending, IsInitialState, IsStorable, IsThereInitially, HoldsWholeRows, initial_load};
ghost use Rattle.history_core.specs.Judged.{IsAboveLast, HasField, HasFields, IsWholeRow, HasColumn, IsRightCell, IsRightAt};

use crate::search::place_of;
use crate::weight::text_weight;
use cell_base::{Cell, Key, Value};
use sql_tree::Table;
use std::cmp::Ordering;

/// The load of an initial state stays below this.
const MOST_LOAD: u64 = 1_048_576;

/// Whether the cells are an initial state, and hold whole rows of the tables.
pub fn are_whole_rows(tables: &[Table], cells: &[(Cell, Value)]) -> bool
    ensures { IsTrue result ↔ (IsInitialState cells.now × HoldsWholeRows tables.now cells.now) }
{
    ascend(cells) && are_right(tables, cells)
}

/// What the cells weigh, where that is less than the greatest load.
pub fn small_load(cells: &[(Cell, Value)]) -> Option<u64>
    ensures some { IfSome result (λ load. load ≡ initial_load cells.now) }
    ensures small { IfSome result (λ load. load < 1048576) }
    ensures none { IfNone result (1048576 ≤ initial_load cells.now) }
{
    let mut load = 0;
    for cell in cells {
        load += text_weight(&cell.0, &cell.1);
        if load >= MOST_LOAD {
            return None;
        }
    }
    Some(load)
}

/// Whether the cells ascend.
fn ascend(cells: &[(Cell, Value)]) -> bool
    ensures { IsTrue result ↔ IsAscending cells.now }
{
    for at in 0..cells.len() {
        if !is_above_last(cells, at) {
            return false;
        }
    }
    true
}

/// Whether the cell at the place is above the one before it.
fn is_above_last(cells: &[(Cell, Value)], at: usize) -> bool
    requires { at < length cells.now }
    ensures { IsTrue result ↔ IsAboveLast cells.now at }
{
    if at == 0 {
        return true;
    }
    is_below(&cells[at - 1].0, &cells[at].0)
}

/// Whether the one cell is below the other.
fn is_below(first: &Cell, second: &Cell) -> bool
    ensures { IsTrue result ↔ ((cell_order.ghosts).cmp first.now second.now ≡ Less) }
{
    first.cmp(second) == Ordering::Less
}

/// Whether each cell, of those that ascend, is one of an initial state of whole rows.
fn are_right(tables: &[Table], cells: &[(Cell, Value)]) -> bool
    requires { IsAscending cells.now }
    ensures { IsTrue result ↔ ((at : ℕ) → at < length cells.now → IsRightAt tables.now cells.now at) }
{
    for at in 0..cells.len() {
        if !is_right(tables, cells, at) {
            return false;
        }
    }
    true
}

/// Whether the cell at the place is one of an initial state of whole rows.
fn is_right(tables: &[Table], cells: &[(Cell, Value)], at: usize) -> bool
    requires ascending { IsAscending cells.now }
    requires within { at < length cells.now }
    ensures { IsTrue result ↔ IsRightAt tables.now cells.now at }
{
    is_right_cell(tables, cells, &cells[at].0, &cells[at].1)
}

/// Whether the cell with its value is one of an initial state of whole rows.
fn is_right_cell(tables: &[Table], cells: &[(Cell, Value)], cell: &Cell, value: &Value) -> bool
    requires { IsAscending cells.now }
    ensures { IsTrue result ↔ IsRightCell tables.now cells.now cell.now value.now }
{
    match cell {
        Cell::Presence(table, key) => is_right_presence(tables, cells, *table, key, value),
        Cell::Field(table, key, column) => {
            is_right_field(tables, cells, *table, key, *column, value)
        }
    }
}

/// Whether a presence is true, and of a whole row.
fn is_right_presence(
    tables: &[Table],
    cells: &[(Cell, Value)],
    table: u32,
    key: &Key,
    value: &Value,
) -> bool
    requires { IsAscending cells.now }
    ensures { IsTrue result ↔ ((value.now ≡ Value.Flag true) × IsWholeRow tables.now cells.now table key.now) }
{
    is_true(value) && is_whole(tables, cells, table, key)
}

/// Whether a field is of a row that is there and of a column of its table, and its value can be written.
fn is_right_field(
    tables: &[Table],
    cells: &[(Cell, Value)],
    table: u32,
    key: &Key,
    column: u32,
    value: &Value,
) -> bool
    requires { IsAscending cells.now }
    ensures { IsTrue result ↔ (IsThereInitially cells.now table key.now × IsStorable value.now × HasColumn tables.now table column) }
{
    is_there(cells, table, key) && is_storable(value) && has_column(tables, table, column)
}

/// Whether the value says that a row is there.
fn is_true(value: &Value) -> bool
    ensures { IsTrue result ↔ (value.now ≡ Value.Flag true) }
{
    matches!(value, Value::Flag(true))
}

/// Whether the value can be written.
fn is_storable(value: &Value) -> bool
    ensures { IsTrue result ↔ IsStorable value.now }
{
    !matches!(value, Value::Unset | Value::Wide(_))
}

/// Whether the row is there.
fn is_there(cells: &[(Cell, Value)], table: u32, key: &Key) -> bool
    requires { IsAscending cells.now }
    ensures { IsTrue result ↔ IsThereInitially cells.now table key.now }
{
    match place_of(cells, table, key, None) {
        Some(at) => is_true(&cells[at].1),
        None => false,
    }
}

/// Whether the table is there, and has the column beside its key.
fn has_column(tables: &[Table], table: u32, column: u32) -> bool
    ensures { IsTrue result ↔ HasColumn tables.now table column }
{
    match tables.get(table as usize) {
        Some(of_table) => { (column as usize) < of_table.columns.len() && column != of_table.key }
        None => false,
    }
}

/// Whether the table of the row is there, and the row is whole.
fn is_whole(tables: &[Table], cells: &[(Cell, Value)], table: u32, key: &Key) -> bool
    requires { IsAscending cells.now }
    ensures { IsTrue result ↔ IsWholeRow tables.now cells.now table key.now }
{
    match tables.get(table as usize) {
        Some(of_table) => has_fields(cells, table, key, of_table),
        None => false,
    }
}

/// Whether the row has each field of the table's columns but the key's.
fn has_fields(cells: &[(Cell, Value)], table: u32, key: &Key, of_table: &Table) -> bool
    requires { IsAscending cells.now }
    ensures { IsTrue result ↔ HasFields cells.now table key.now of_table.now }
{
    for column in 0..of_table.columns.len() {
        if !has_field(cells, table, key, column, of_table.key) {
            return false;
        }
    }
    true
}

/// Whether the row has the field of the column, or the column is the key's.
fn has_field(cells: &[(Cell, Value)], table: u32, key: &Key, column: usize, of_key: u32) -> bool
    requires { IsAscending cells.now }
    ensures { IsTrue result ↔ HasField cells.now table key.now of_key column }
{
    if column == of_key as usize {
        return true;
    }
    match place_of(cells, table, key, Some(column)) {
        Some(_) => true,
        None => false,
    }
}
