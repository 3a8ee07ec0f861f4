// The rows of an INSERT.
ghost use Rattle.std.specs.Prelude.{◌≡◌, List, Option, None, length, map, replicate, IfOk, IfErr, Ok, Err};
ghost use Rattle.sql_tree.specs.declared.typed_expr.TypedExpr.{TypedExpr};
ghost use Rattle.typing_rules.specs.Insert.{cells};
ghost use Rattle.typing_rules.specs.Outcome.{all_of, and_then};
ghost use Rattle.typing_rules.specs.Gives.{Gives};
ghost use Rattle.change_typing.specs.Rows as spec;
ghost use Rattle.change_typing.specs.Rows.{IsPlaced};
ghost use Rattle.change_typing.specs.Targets.{AreColumns, targets};

use crate::cell::{cell, default_value};
use cell_base::{Items, Memory, SqlFault};
use expr_typing::Entry;
use sql_tree::{Column, Expr, TypedExpr};
use std::alloc::Global;
use typing_parts::ColumnAt;

/// A slot without an expression for each column.
fn empty_slots(alloc: Global, count: usize) -> Result<Vec<Option<TypedExpr>>, Memory>
    ensures { IfOk result (λ slots. slots.items ≡ replicate {A = Option TypedExpr} count None) }
{
    let mut slots = Vec::new(alloc);
    for _ in 0..count {
        slots.push(None)?;
    }
    Ok(slots)
}

/// The slots with a value in the one of this number, where it was made.
fn with_value<T: Drop, E>(
    slots: Vec<Option<T>>,
    number: u32,
    made: Result<T, E>,
) -> Result<Vec<Option<T>>, E>
    ensures placed { IfOk result (λ after. IsPlaced made number slots.items after.items) }
    ensures refused { IfErr result (λ why. made ≡ Err why) }
{
    match made {
        Ok(value) => {
            let mut slots = slots;
            if let Some(slot) = slots.get_mut(number as usize) {
                *slot = Some(value);
            }
            Ok(slots)
        }
        Err(why) => Err(why),
    }
}

/// A slot for each column of the table, in which the expressions of these columns stand. Expressions of an INSERT see no column.
fn slots_of(
    alloc: Global,
    count: usize,
    columns: &[ColumnAt<'_>],
    row: &[Option<Expr>],
) -> Result<Items<Option<TypedExpr>>, SqlFault>
    ensures { Gives (and_then (cells (targets columns.now) row.now)
        (λ es. Ok (spec.put (replicate {A = Option TypedExpr} count None) (targets columns.now) es))) result }
{
    let scope: [Entry<'_>; 0] = [];
    let mut slots = empty_slots(alloc, count)?;
    for (at, expr) in columns.iter().zip(row) {
        slots = with_value(slots, at.number, cell(alloc, at.column, expr, &scope))?;
    }
    Ok(Items::from_vec(slots))
}

fn value_or(alloc: Global, column: &Column, slot: Option<TypedExpr>) -> Result<TypedExpr, Memory>
    ensures { IfOk result (λ value. value ≡ spec.value_or column.now slot) }
{
    match slot {
        Some(value) => Ok(value),
        None => default_value(alloc, column),
    }
}

/// What stands in the slots, and defaults where nothing does.
fn filled(
    alloc: Global,
    columns: &[Column],
    slots: Items<Option<TypedExpr>>,
) -> Result<Items<TypedExpr>, Memory>
    requires { length slots ≡ length columns.now }
    ensures { IfOk result (λ row. row ≡ spec.filled slots columns.now) }
{
    let mut row = Items::new(alloc);
    for slot in slots.into_vec() {
        let column = &columns[row.len()];
        let value = value_or(alloc, column, slot)?;
        row.push(value)?;
    }
    Ok(row)
}

fn typed_row(
    alloc: Global,
    columns: &[Column],
    given: &[ColumnAt<'_>],
    row: &[Option<Expr>],
) -> Result<Items<TypedExpr>, SqlFault>
    requires { AreColumns (length columns.now) (targets given.now) }
    ensures { Gives (spec.row_over columns.now (targets given.now) row.now) result }
{
    let slots = slots_of(alloc, columns.len(), given, row)?;
    Ok(filled(alloc, columns, slots)?)
}

/// One expression for each column in each row, where rows have values for these columns.
pub fn typed_rows(
    alloc: Global,
    columns: &[Column],
    given: &[ColumnAt<'_>],
    rows: &[Items<Option<Expr>>],
) -> Result<Items<Items<TypedExpr>>, SqlFault>
    requires { AreColumns (length columns.now) (targets given.now) }
    ensures { Gives (all_of (map (spec.row_over columns.now (targets given.now)) rows.now)) result }
{
    let mut typed = Items::new(alloc);
    for row in rows {
        let made = typed_row(alloc, columns, given, row.as_slice())?;
        typed.push(made)?;
    }
    Ok(typed)
}
