// The columns of a SELECT's result.
ghost use Rattle.std.specs.Prelude.{◌≡◌, ◌++◌, ◌+◌, ◌^◌, ◌-◌, [], Ok, IfOk, codes, nat_lt, min};
ghost use Rattle.sql_tree.specs.declared.expr.Expr.{out-Expr};
ghost use Rattle.typing_rules.specs.Outcome.{and_then};
ghost use Rattle.typing_rules.specs.Select as spec;
ghost use Rattle.expr_typing.specs.Scope.{IsNarrow, sources};
ghost use Rattle.typing_rules.specs.Gives.{GivesBy};
ghost use Rattle.select_typing.specs.Outputs.{outputs};

use crate::kept::beside;
use crate::output::{Output, with_output};
use crate::star::{width, with_star};
use cell_base::{Items, Memory, SqlFault, SqlState, Text};
use expr_typing::{Entry, typed_item};
use sql_tree::{Expr, Item};
use std::alloc::Global;
use typing_rules::Place;

/// The most columns of a result.
const MAX_OUTPUTS: usize = 1664;

/// The name of a column that has none.
fn unnamed(alloc: Global) -> Result<Text, Memory>
    ensures { IfOk result (λ name. name ≡ codes "?column?") }
{
    match Text::from_bytes(alloc, "?column?".as_bytes()) {
        Ok(name) => Ok(name),
        Err(_) => Err(Memory),
    }
}

/// The name of an item without an alias: the column's, else the function's.
fn plain_name(alloc: Global, expr: &Expr) -> Result<Text, Memory>
    ensures { IfOk result (λ name. name ≡ spec.plain_name (out-Expr expr.now)) }
{
    match expr {
        Expr::Column(_, name) => name.copy(alloc),
        Expr::Call(name, _) => name.copy(alloc),
        _ => unnamed(alloc),
    }
}

fn output_name(alloc: Global, expr: &Expr, alias: &Option<Text>) -> Result<Text, Memory>
    ensures { IfOk result (λ name. name ≡ spec.name_or (spec.plain_name (out-Expr expr.now)) alias.now) }
{
    match alias {
        Some(alias) => alias.copy(alloc),
        None => plain_name(alloc, expr),
    }
}

/// How many columns an item has, at most the greatest number.
fn item_width(item: &Item, scope: &[Entry<'_>]) -> usize
    ensures { result ≡ min (spec.width (sources scope.now) item.now) (2 ^ 64 - 1) }
{
    match item {
        Item::Star => width(scope),
        Item::Expr(_, _) => 1,
    }
}

/// Whether an item's columns are too many after so many.
fn is_too_wide(before: usize, item: &Item, scope: &[Entry<'_>]) -> bool
    ensures { result ≡ nat_lt 1664 (before + spec.width (sources scope.now) item.now) }
{
    before.saturating_add(item_width(item, scope)) > MAX_OUTPUTS
}

/// The columns of an item after those that stand before.
fn with_item(
    alloc: Global,
    before: Items<Output>,
    item: &Item,
    scope: &[Entry<'_>],
    place: Place,
) -> Result<Items<Output>, SqlFault>
    requires { IsNarrow scope.now }
    ensures { GivesBy outputs (and_then (spec.outputs_of place (sources scope.now) item.now) (λ more. Ok (outputs before ++ more))) result }
{
    match item {
        Item::Star => with_star(alloc, before, scope, place),
        Item::Expr(expr, alias) => {
            let typed = typed_item(alloc, expr, scope, place);
            let (before, typed) = beside(before, typed)?;
            let name = output_name(alloc, expr, alias);
            let ((before, typed), name) = beside((before, typed), name)?;
            Ok(with_output(before, Output { name, expr: typed })?)
        }
    }
}

/// The columns of the result, from left to right.
pub fn outputs_of(
    alloc: Global,
    items: &[Item],
    scope: &[Entry<'_>],
    place: Place,
) -> Result<Items<Output>, SqlFault>
    requires { IsNarrow scope.now }
    ensures { GivesBy outputs (spec.items_from place (sources scope.now) [] items.now) result }
{
    let mut outputs = Items::new(alloc);
    for item in items {
        if is_too_wide(outputs.len(), item, scope) {
            return Err(SqlFault::State(SqlState::S54000));
        }
        outputs = with_item(alloc, outputs, item, scope, place)?;
    }
    Ok(outputs)
}
