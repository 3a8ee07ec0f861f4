// The columns that `*` stands for.
ghost use Rattle.std.specs.Prelude.{◌≡◌, ◌<◌, ◌^◌, ◌-◌, ◌++◌, Ok, IfOk, length, min};
ghost use Rattle.sql_tree.specs.declared.typed_expr.TypedNode.TheVariants as node;
ghost use Rattle.typing_rules.specs.Expressions.{typed_node};
ghost use Rattle.typing_rules.specs.Outcome.{and_then};
ghost use Rattle.typing_rules.specs.Select as spec;
ghost use Rattle.expr_typing.specs.Scope.{IsNarrow, sources};
ghost use Rattle.typing_rules.specs.Gives.{GivesBy};
ghost use Rattle.select_typing.specs.Outputs.{output, outputs};

use crate::output::{Output, with_output};
use cell_base::{Items, Memory, SqlFault, SqlState};
use expr_typing::Entry;
use sql_tree::{Column, TypedExpr, TypedNode};
use std::alloc::Global;
use typing_rules::Place;

/// How many columns `*` stands for, at most the greatest number.
pub fn width(scope: &[Entry<'_>]) -> usize
    ensures { result ≡ min (length (spec.star_outputs 0 (sources scope.now))) (2 ^ 64 - 1) }
{
    let mut width: usize = 0;
    for entry in scope {
        width = width.saturating_add(entry.table.columns.len());
    }
    width
}

fn column_output(alloc: Global, entry: u32, number: u32, column: &Column) -> Result<Output, Memory>
    ensures { IfOk result (λ o. output o ≡ record { name = column.now.name; expr = typed_node column.now.kind (node.Column entry number) }) }
{
    Ok(Output {
        name: column.name.copy(alloc)?,
        expr: TypedExpr {
            kind: column.kind,
            node: TypedNode::Column(entry, number),
        },
    })
}

/// The columns of an entry's table after those that stand before.
fn with_columns(
    alloc: Global,
    before: Items<Output>,
    entry: u32,
    columns: &[Column],
) -> Result<Items<Output>, Memory>
    requires { length columns.now < 2 ^ 32 }
    ensures { IfOk result (λ all. outputs all ≡ outputs before ++ spec.column_outputs entry 0 columns.now) }
{
    let mut all = before;
    for (i, column) in columns.iter().enumerate() {
        all = with_output(all, column_output(alloc, entry, i as u32, column)?)?;
    }
    Ok(all)
}

/// The columns of all entries after those that stand before.
fn with_all_columns(
    alloc: Global,
    before: Items<Output>,
    scope: &[Entry<'_>],
) -> Result<Items<Output>, Memory>
    requires { IsNarrow scope.now }
    ensures { IfOk result (λ all. outputs all ≡ outputs before ++ spec.star_outputs 0 (sources scope.now)) }
{
    let mut all = before;
    for (i, entry) in scope.iter().enumerate() {
        all = with_columns(alloc, all, i as u32, entry.table.columns.as_slice())?;
    }
    Ok(all)
}

/// The columns that `*` stands for, after those that stand before.
pub fn with_star(
    alloc: Global,
    before: Items<Output>,
    scope: &[Entry<'_>],
    place: Place,
) -> Result<Items<Output>, SqlFault>
    requires { IsNarrow scope.now }
    ensures { GivesBy outputs (and_then (spec.star_of place (sources scope.now)) (λ more. Ok (outputs before ++ more))) result }
{
    match (scope, place) {
        ([], _) => Err(SqlFault::State(SqlState::S42601)),
        ([_, ..], Place::Group) => Err(SqlFault::State(SqlState::S42803)),
        ([_, ..], Place::Row) => Ok(with_all_columns(alloc, before, scope)?),
    }
}
