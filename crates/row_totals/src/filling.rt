// The values of expressions whose aggregates have their values.
ghost use Rattle.std.specs.Prelude.{◌≡◌, map, Ok, false};
ghost use Rattle.cell_base.specs.declared.value.Value.TheVariants.{Flag};
ghost use Rattle.expr_eval.specs.Lent.{owned, Lends};
ghost use Rattle.expr_eval.specs.Operators as operators;
ghost use Rattle.expr_eval.specs.Values as values;
ghost use Rattle.typing_rules.specs.Gives.{Gives};
ghost use Rattle.typing_rules.specs.Outcome.{Outcome, and_then};
ghost use Rattle.row_totals.specs.Filling as filling;
ghost use Rattle.row_totals.specs.Filling.{Fills, Got, of_got};

use cell_base::{Items, SqlFault, SqlState, SqlType, Value};
use expr_eval::{Datum, binary, compared, denied, either, negated, null_test, of_kind, to_value};
use sql_tree::{Op, TypedExpr, TypedNode};
use std::alloc::Global;

/// The values of some expressions, given the values of their aggregates in text order.
pub fn fill_all(
    alloc: Global,
    exprs: &[TypedExpr],
    totals: &[Value],
) -> Result<Items<Value>, SqlFault>
    ensures { Gives (filling.all_filled exprs.now (map Ok totals.now)) result }
{
    let mut values = Items::new(alloc);
    let mut left = totals;
    for expr in exprs {
        let (value, rest) = fill(expr, left)?;
        values.push(to_value(alloc, value)?)?;
        left = rest;
    }
    Ok(values)
}

/// The value of an expression, and the values of aggregates that it leaves.
#[cycle(fills)]
fn fill<'a>(expr: &'a TypedExpr, totals: &'a [Value]) -> Result<(Datum<'a>, &'a [Value]), SqlState>
    ensures { Fills result (filling.filled expr.now (map Ok totals.now)) }
{
    match &expr.node {
        TypedNode::Constant(value) => Ok((of_kind(expr.kind, value), totals)),
        TypedNode::Column(_, _) => Ok((Datum::Null, totals)),
        TypedNode::Aggregate(_, _) => Ok(first_of(expr.kind, totals)),
        TypedNode::Neg(operand) => minus(expr.kind, fill(operand.get(), totals)),
        TypedNode::Not(operand) => not(fill(operand.get(), totals)),
        TypedNode::IsNull(operand, denies) => tested(fill(operand.get(), totals), *denies),
        TypedNode::Binary(op, left, right) => match fill(left.get(), totals) {
            Ok((left, rest)) => two(expr.kind, *op, left, fill(right.get(), rest)),
            Err(code) => Err(code),
        },
        TypedNode::In(left, members, denies) => match fill(left.get(), totals) {
            Ok((left, rest)) => among(any_equal(left, members.as_slice(), rest), *denies),
            Err(code) => Err(code),
        },
    }
}

/// The value of the first aggregate, and what is left.
fn first_of<'a>(kind: SqlType, totals: &'a [Value]) -> (Datum<'a>, &'a [Value])
    ensures { filling.first_of kind (map Ok totals.now) ≡ Ok (owned result.0, map Ok result.1.now) }
{
    match totals.split_first() {
        Some((total, rest)) => (of_kind(kind, total), rest),
        None => (Datum::Null, totals),
    }
}

/// A value, and what is left.
fn beside<'a>(
    value: Result<Datum<'a>, SqlState>,
    rest: &'a [Value],
) -> Result<(Datum<'a>, &'a [Value]), SqlState>
    ensures { (outcome : operators.Outcome) → Lends value.entry outcome → Fills result (and_then outcome (λ v. Ok (v, map Ok rest.now))) }
{
    match value {
        Ok(value) => Ok((value, rest)),
        Err(code) => Err(code),
    }
}

/// Minus what the operand comes to.
fn minus<'a>(
    kind: SqlType,
    operand: Result<(Datum<'a>, &'a [Value]), SqlState>,
) -> Result<(Datum<'a>, &'a [Value]), SqlState>
    ensures { (outcome : Outcome Got) → Fills operand.entry outcome → Fills result (of_got (operators.negated kind) outcome) }
{
    match operand {
        Ok((operand, rest)) => beside(negated(kind, operand), rest),
        Err(code) => Err(code),
    }
}

/// NOT of what the operand comes to.
fn not<'a>(
    operand: Result<(Datum<'a>, &'a [Value]), SqlState>,
) -> Result<(Datum<'a>, &'a [Value]), SqlState>
    ensures { (outcome : Outcome Got) → Fills operand.entry outcome → Fills result (of_got (λ v. Ok (operators.denied v)) outcome) }
{
    match operand {
        Ok((operand, rest)) => Ok((denied(operand), rest)),
        Err(code) => Err(code),
    }
}

/// IS NULL of what the operand comes to, or IS NOT NULL.
fn tested<'a>(
    operand: Result<(Datum<'a>, &'a [Value]), SqlState>,
    denies: bool,
) -> Result<(Datum<'a>, &'a [Value]), SqlState>
    ensures { (outcome : Outcome Got) → Fills operand.entry outcome → Fills result (of_got (λ v. Ok (values.null_test denies v)) outcome) }
{
    match operand {
        Ok((operand, rest)) => {
            let tested = null_test(operand);
            Ok((if denies { denied(tested) } else { tested }, rest))
        }
        Err(code) => Err(code),
    }
}

/// IN, given what is found among the members, or NOT IN.
fn among<'a>(
    found: Result<(Datum<'a>, &'a [Value]), SqlState>,
    denies: bool,
) -> Result<(Datum<'a>, &'a [Value]), SqlState>
    ensures { (outcome : Outcome Got) → Fills found.entry outcome → Fills result (of_got (λ v. Ok (values.denied_if denies v)) outcome) }
{
    match found {
        Ok((found, rest)) => Ok((if denies { denied(found) } else { found }, rest)),
        Err(code) => Err(code),
    }
}

/// An operator of two operands, given what the second comes to.
fn two<'a>(
    kind: SqlType,
    op: Op,
    left: Datum<'a>,
    right: Result<(Datum<'a>, &'a [Value]), SqlState>,
) -> Result<(Datum<'a>, &'a [Value]), SqlState>
    ensures { (outcome : Outcome Got) → Fills right.entry outcome → Fills result (of_got (operators.binary kind op (owned left.entry)) outcome) }
{
    match right {
        Ok((right, rest)) => beside(binary(kind, op, left, right), rest),
        Err(code) => Err(code),
    }
}

#[cycle(fills)]
fn any_equal<'a>(
    left: Datum<'a>,
    members: &'a [TypedExpr],
    totals: &'a [Value],
) -> Result<(Datum<'a>, &'a [Value]), SqlState>
    ensures { Fills result (filling.members_filled (owned left.entry) (Flag false) (map filling.filled members.now) (map Ok totals.now)) }
{
    let mut found = Datum::Flag(false);
    let mut rest = totals;
    for member in members {
        let (next, left_over) = fill(member, rest)?;
        found = either(found, compared(Op::Eq, left, next));
        rest = left_over;
    }
    Ok((found, rest))
}
