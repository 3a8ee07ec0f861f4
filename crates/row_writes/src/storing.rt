// What holds of a row that is stored.
ghost use Rattle.std.specs.Prelude.{◌≡◌, map, Ok};
ghost use Rattle.typing_rules.specs.Outcome.{and_then};
ghost use Rattle.row_meaning.specs.Storing as spec;

use crate::evaluation::is_false;
use cell_base::{SqlState, Value};
use sql_tree::{Column, Table, TypedExpr};

/// Whether the column is never null and the value is.
pub fn is_missing(column: &Column, value: &Value) -> bool
    ensures { result ≡ spec.is_missing column.now value.now }
{
    column.not_null && matches!(value, Value::Null)
}

fn has_no_missing(columns: &[Column], values: &[Value]) -> bool
    ensures { result ≡ spec.has_no_missing columns.now values.now }
{
    for (column, value) in columns.iter().zip(values) {
        if is_missing(column, value) {
            return false;
        }
    }
    true
}

/// The CHECKs in order.
fn checked(checks: &[TypedExpr], row: &[Value]) -> Result<(), SqlState>
    ensures { spec.checked checks.now row.now ≡ and_then result (λ _. Ok row.now) }
{
    for check in checks {
        if is_false(check, row)? {
            return Err(SqlState::S23514);
        }
    }
    Ok(())
}

/// Some CHECKs of a table in order.
pub fn checked_some(checks: &[&TypedExpr], row: &[Value]) -> Result<(), SqlState>
    ensures { spec.checked (map (λ c. c.now) checks.now) row.now ≡ and_then result (λ _. Ok row.now) }
{
    for check in checks {
        if is_false(check, row)? {
            return Err(SqlState::S23514);
        }
    }
    Ok(())
}

/// Whether the row may be stored: no column that is never null is null, and no CHECK is false.
pub fn stored(table: &Table, row: &[Value]) -> Result<(), SqlState>
    ensures { spec.stored (table.now).columns (table.now).checks row.now ≡ and_then result (λ _. Ok row.now) }
{
    if has_no_missing(table.columns.as_slice(), row) {
        checked(table.checks.as_slice(), row)
    } else {
        Err(SqlState::S23502)
    }
}
