// The CHECKs that mention an assigned column.
ghost use Rattle.std.specs.Prelude.{◌≡◌, map, IfOk};
ghost use Rattle.std.specs.List.{list_any};
ghost use Rattle.typing_rules.specs.Mentions as spec;
ghost use Rattle.row_meaning.specs.Changes as changes;

use cell_base::Memory;
use sql_tree::{TypedExpr, TypedNode};
use std::alloc::Global;

/// Whether a column of the one table stands in the expression.
#[cycle(mentions)]
fn mentions(expr: &TypedExpr, column: u32) -> bool
    ensures { result ≡ spec.mentions 0 column expr.now }
{
    match &expr.node {
        TypedNode::Constant(_) | TypedNode::Aggregate(_, None) => false,
        TypedNode::Column(entry, place) => *entry == 0 && *place == column,
        TypedNode::Aggregate(_, Some(operand))
        | TypedNode::Neg(operand)
        | TypedNode::Not(operand)
        | TypedNode::IsNull(operand, _) => mentions(operand.get(), column),
        TypedNode::Binary(_, left, right) => {
            mentions(left.get(), column) || mentions(right.get(), column)
        }
        TypedNode::In(left, members, _) => {
            mentions(left.get(), column) || any_mentions(members.as_slice(), column)
        }
    }
}

#[cycle(mentions)]
fn any_mentions(exprs: &[TypedExpr], column: u32) -> bool
    ensures { result ≡ list_any (spec.mentions 0 column) exprs.now }
{
    for expr in exprs {
        if mentions(expr, column) {
            return true;
        }
    }
    false
}

fn mentions_assigned(check: &TypedExpr, set: &[(u32, TypedExpr)]) -> bool
    ensures { result ≡ list_any (λ a. spec.mentions 0 a.0 check.now) set.now }
{
    set.iter().any(|(column, _)| mentions(check, *column))
}

/// The CHECKs that mention an assigned column, in order.
pub fn checks_on<'a>(
    alloc: Global,
    set: &[(u32, TypedExpr)],
    checks: &'a [TypedExpr],
) -> Result<Vec<&'a TypedExpr>, Memory>
    ensures { IfOk result (λ kept. map (λ c. c.now) kept.items ≡ changes.checks_on set.now checks.now) }
{
    let mut kept = Vec::new(alloc);
    for check in checks {
        if mentions_assigned(check, set) {
            kept.push(check)?;
        }
    }
    Ok(kept)
}
