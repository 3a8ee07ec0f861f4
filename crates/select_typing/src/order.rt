// The terms of ORDER BY.
ghost use Rattle.std.specs.Prelude.{◌≡◌, List, map};
ghost use Rattle.sql_tree.specs.declared.expr.Expr.{out-Expr};
ghost use Rattle.typing_rules.specs.Outcome.{all_of};
ghost use Rattle.typing_rules.specs.Select as spec;
ghost use Rattle.typing_rules.specs.Gives.{Gives};
ghost use Rattle.expr_typing.specs.Scope.{IsNarrow, sources};
ghost use Rattle.select_typing.specs.Outputs as columns;
ghost use Rattle.select_typing.specs.Parts.{is_group};

use crate::output::{Output, output_named};
use cell_base::{Items, SqlFault, SqlState};
use expr_typing::{Entry, typed_item};
use sql_tree::{Expr, OrderTerm, TypedExpr};
use std::alloc::Global;
use typing_rules::Place;

/// The place from 0 of a position from 1.
fn index_of(position: i64) -> Option<usize>
    ensures { (all : List spec.Output) → spec.at_position all position ≡ columns.at_index all result }
{
    usize::try_from(position).ok()?.checked_sub(1)
}

fn at_index(alloc: Global, outputs: &[Output], index: Option<usize>) -> Result<TypedExpr, SqlFault>
    ensures { Gives (columns.at_index (columns.outputs outputs.now) index) result }
{
    match index {
        None => Err(SqlFault::State(SqlState::S42601)),
        Some(index) => match outputs.get(index) {
            None => Err(SqlFault::State(SqlState::S42601)),
            Some(output) => Ok(output.expr.copy(alloc)?),
        },
    }
}

/// The value at a position, from 1.
fn at_position(alloc: Global, outputs: &[Output], position: i64) -> Result<TypedExpr, SqlFault>
    ensures { Gives (spec.at_position (columns.outputs outputs.now) position) result }
{
    at_index(alloc, outputs, index_of(position))
}

fn term_value(
    alloc: Global,
    expr: &Expr,
    scope: &[Entry<'_>],
    outputs: &[Output],
) -> Result<TypedExpr, SqlFault>
    requires { IsNarrow scope.now }
    ensures { Gives (spec.term_at (sources scope.now) (columns.outputs outputs.now) expr.now (out-Expr expr.now)) result }
{
    match expr {
        Expr::Int(position) => at_position(alloc, outputs, *position),
        Expr::Column(None, name) => match output_named(outputs, name) {
            Some(output) => Ok(output.expr.copy(alloc)?),
            None => typed_item(alloc, expr, scope, Place::Row),
        },
        _ => typed_item(alloc, expr, scope, Place::Row),
    }
}

fn term_of(
    alloc: Global,
    term: &OrderTerm,
    scope: &[Entry<'_>],
    outputs: &[Output],
) -> Result<(TypedExpr, bool), SqlFault>
    requires { IsNarrow scope.now }
    ensures { Gives (spec.term_of (sources scope.now) (columns.outputs outputs.now) term.now) result }
{
    let value = term_value(alloc, &term.expr, scope, outputs)?;
    Ok((value, term.descending))
}

fn terms_of(
    alloc: Global,
    terms: &[OrderTerm],
    scope: &[Entry<'_>],
    outputs: &[Output],
) -> Result<Items<(TypedExpr, bool)>, SqlFault>
    requires { IsNarrow scope.now }
    ensures { Gives (all_of (map (spec.term_of (sources scope.now) (columns.outputs outputs.now)) terms.now)) result }
{
    let mut typed = Items::new(alloc);
    for term in terms {
        let value = term_of(alloc, term, scope, outputs)?;
        typed.push(value)?;
    }
    Ok(typed)
}

/// The terms of ORDER BY, from left to right. A SELECT over groups of rows has none.
pub fn order_of(
    alloc: Global,
    terms: &[OrderTerm],
    scope: &[Entry<'_>],
    outputs: &[Output],
    place: Place,
) -> Result<Items<(TypedExpr, bool)>, SqlFault>
    requires { IsNarrow scope.now }
    ensures { Gives (spec.order_of (is_group place) (sources scope.now) (columns.outputs outputs.now) terms.now) result }
{
    match terms {
        [] => Ok(Items::new(alloc)),
        [_, ..] => match place {
            Place::Group => Err(SqlFault::State(SqlState::S0A000)),
            Place::Row => terms_of(alloc, terms, scope, outputs),
        },
    }
}
