// The rows that an INSERT makes.
ghost use Rattle.std.specs.Prelude.{[], length, map, slice_get, unwrap_or, IfOk};
ghost use Rattle.typing_rules.specs.Assignment.{assigned};
ghost use Rattle.typing_rules.specs.Outcome.{and_then, all_of};
ghost use Rattle.expr_eval.specs.Values.{value_of};
ghost use Rattle.typing_rules.specs.Gives.{Gives};
ghost use Rattle.row_meaning.specs.Insertion as spec;
ghost use Rattle.row_writes.specs.Widths.{AreWithin};

use crate::evaluation::{converted, value_alone};
use crate::keys::{has_twins, sorted_by_keys};
use crate::storing::stored;
use cell_base::{Items, Key, SqlFault, SqlState, Value};
use sql_tree::{Column, Table, TypedExpr};
use std::alloc::Global;

fn value_for(alloc: Global, column: &Column, expr: &TypedExpr) -> Result<Value, SqlFault>
    ensures { Gives (and_then (value_of expr.now []) (assigned (column.now).kind)) result }
{
    let value = value_alone(alloc, expr)?;
    converted(alloc, value, column.kind)
}

/// The values of a row, each as one of its column's type.
fn row_of(alloc: Global, columns: &[Column], exprs: &[TypedExpr]) -> Result<Items<Value>, SqlFault>
    ensures { Gives (spec.row_of columns.now exprs.now) result }
{
    let mut row = Items::new(alloc);
    for (column, expr) in columns.iter().zip(exprs) {
        let value = value_for(alloc, column, expr)?;
        row.push(value)?;
    }
    Ok(row)
}

/// The key that the value of the key's column is.
fn key_of(alloc: Global, row: &[Value], key: u32) -> Result<Key, SqlFault>
    ensures { Gives (spec.key_of (unwrap_or (slice_get row.now key) Value.Null)) result }
{
    match row.get(key as usize) {
        Some(Value::Int(n)) => Ok(Key::Int(*n)),
        Some(Value::Text(text)) => Ok(Key::Text(text.copy(alloc)?)),
        _ => Err(SqlFault::State(SqlState::S23502)),
    }
}

/// A row with its key.
fn keyed_row(
    alloc: Global,
    table: &Table,
    exprs: &[TypedExpr],
) -> Result<(Key, Items<Value>), SqlFault>
    ensures { Gives (spec.keyed_row table.now exprs.now) result }
{
    let row = row_of(alloc, table.columns.as_slice(), exprs)?;
    stored(table, row.as_slice())?;
    let key = key_of(alloc, row.as_slice(), table.key)?;
    Ok((key, row))
}

/// All rows, in text order.
fn keyed_rows(
    alloc: Global,
    table: &Table,
    rows: &[Items<TypedExpr>],
) -> Result<Items<(Key, Items<Value>)>, SqlFault>
    ensures { Gives (all_of (map (spec.keyed_row table.now) rows.now)) result }
{
    let mut made = Items::new(alloc);
    for row in rows {
        made.push(keyed_row(alloc, table, row.as_slice())?)?;
    }
    Ok(made)
}

/// The rows of an INSERT of these rows of expressions, keys ascending: for each its key and one value for each column.
///
/// No row has more values than the table has columns.
///
/// Row by row: what the conversion of a value to its column's type gives; `S23502` where a column that is never null is null,
/// `S23514` where a CHECK is false. After all rows: `S23505` where a key stands twice (PostgreSQL's documentation,
/// "INSERT").
#[tactic(auto, unfolding(row_meaning::specs::Insertion::rows_to_insert))]
pub fn rows_to_insert(
    alloc: Global,
    table: &Table,
    rows: &[Items<TypedExpr>],
) -> Result<Items<(Key, Items<Value>)>, SqlFault>
    ensures exact { Gives (spec.rows_to_insert table.now rows.now) result }
    ensures within { IfOk result (λ made. AreWithin (length (table.now).columns) made) }
{
    let made = keyed_rows(alloc, table, rows)?;
    let sorted = sorted_by_keys(made)?;
    if has_twins(sorted.as_slice()) {
        return Err(SqlFault::State(SqlState::S23505));
    }
    Ok(sorted)
}
