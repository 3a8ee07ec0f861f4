// Which cell may come next in an initial state.
ghost use Rattle.std.specs.Prelude.{◌≡◌, ◌∷◌, ◌++◌, [], ◌↔◌, true, IsTrue};
ghost use Rattle.std.specs.declared.cmp.Ordering.TheVariants.{Less};
ghost use Rattle.cell_base.specs.declared.cell.Cell.TheVariants as kinds;
ghost use Rattle.cell_base.specs.contracts.cell.CellOrd.TheImpl as cell_order;
ghost use Rattle.history_core.specs.Initial.{IsInitialState, IsThereInitially, IsStorable, FitsCell};
ghost use Rattle.history_log.specs.Rows.{IsAbove};

use cell_base::{Cell, Key, Value};
use std::cmp::Ordering;

/// Whether the cells are still an initial state with this cell, and its value, after them.
pub fn fits_next(initial: &[(Cell, Value)], cell: &Cell, value: &Value) -> bool
    requires { IsInitialState initial.now }
    ensures { IsTrue result ↔ IsInitialState (initial.now ++ (cell.now, value.now) ∷ []) }
{
    is_above(initial, cell) && may_stand(initial, cell, value)
}

/// Whether the cell is above all others.
fn is_above(initial: &[(Cell, Value)], cell: &Cell) -> bool
    requires { IsInitialState initial.now }
    ensures { IsTrue result ↔ IsAbove initial.now cell.now }
{
    match initial.last() {
        Some(last) => is_below(&last.0, cell),
        None => true,
    }
}

/// Whether the one cell is below the other.
fn is_below(first: &Cell, second: &Cell) -> bool
    ensures { IsTrue result ↔ ((cell_order.ghosts).cmp first.now second.now ≡ Less) }
{
    first.cmp(second) == Ordering::Less
}

/// Whether the value may stand in the cell: in a presence, that the row is there; in a field of a row that is there, what can be written.
fn may_stand(initial: &[(Cell, Value)], cell: &Cell, value: &Value) -> bool
    requires { IsInitialState initial.now }
    ensures { IsTrue result ↔ FitsCell initial.now cell.now value.now }
{
    match cell {
        Cell::Presence(..) => is_true(value),
        Cell::Field(table, key, _) => has_row(initial, *table, key) && is_storable(value),
    }
}

/// Whether the value says that a row is there.
fn is_true(value: &Value) -> bool
    ensures { IsTrue result ↔ (value.now ≡ Value.Flag true) }
{
    matches!(value, Value::Flag(true))
}

/// Whether the value can be written.
fn is_storable(value: &Value) -> bool
    ensures { IsTrue result ↔ IsStorable value.now }
{
    !matches!(value, Value::Unset | Value::Wide(_))
}

/// Whether the row is there.
fn has_row(cells: &[(Cell, Value)], table: u32, key: &Key) -> bool
    requires { IsInitialState cells.now }
    ensures { IsTrue result ↔ IsThereInitially cells.now table key.now }
{
    let mut low = 0;
    let mut high = cells.len();
    while low < high {
        let middle = low + (high - low) / 2;
        match order(&cells[middle].0, table, key) {
            Ordering::Less => low = middle + 1,
            Ordering::Equal => return true,
            Ordering::Greater => high = middle,
        }
    }
    false
}

/// How the cell stands to the presence of the row.
fn order(cell: &Cell, table: u32, key: &Key) -> Ordering
    ensures { result ≡ (cell_order.ghosts).cmp cell.now (kinds.Presence table key.now) }
{
    match cell {
        Cell::Presence(of_table, of_key) => of_table.cmp(&table).then(of_key.cmp(key)),
        Cell::Field(..) => Ordering::Greater,
    }
}
