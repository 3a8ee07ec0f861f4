// The value of an expression.
ghost use Rattle.std.specs.Prelude.{◌≡◌, true, Ok, IfOk};
ghost use Rattle.typing_rules.specs.Kinds.{is_null_or_of};
ghost use Rattle.typing_rules.specs.WellTyped.{ColumnTypes, IsWellTyped};
ghost use Rattle.expr_eval.specs.Operators as operators;
ghost use Rattle.expr_eval.specs.Operators.{Outcome};
ghost use Rattle.expr_eval.specs.Answers.{Answers};
ghost use Rattle.expr_eval.specs.Lent.{owned, seen, Lends};
ghost use Rattle.expr_eval.specs.Values as values;
ghost use Rattle.expr_eval.specs.Values.{value_of, values_of, of_one};

use crate::compare::compared;
use crate::compute::{arithmetic, negated};
use crate::datum::{Datum, to_value};
use crate::logic::{both, denied, either, null_test};
use crate::lookup::{column, of_kind};
use cell_base::{SqlFault, SqlState, SqlType, Value};
use sql_tree::{Op, TypedExpr, TypedNode};
use std::alloc::Global;

/// The value of an expression over a row, which has one list of column values for each entry of FROM.
pub fn eval(alloc: Global, expr: &TypedExpr, row: &[&[Value]]) -> Result<Value, SqlFault>
    ensures exact { Answers result (value_of expr.now (seen row.now)) }
    ensures typed { (types : ColumnTypes) → IsWellTyped types expr.now
        → IfOk result (λ value. is_null_or_of (expr.now).kind value ≡ true) }
{
    let value = datum_of(expr, row)?;
    Ok(to_value(alloc, value)?)
}

/// The value of an expression over a row, which borrows its text from either. Takes no memory.
#[cycle(values)]
pub fn datum_of<'a>(expr: &'a TypedExpr, row: &'a [&'a [Value]]) -> Result<Datum<'a>, SqlState>
    ensures { Lends result (value_of expr.now (seen row.now)) }
{
    match &expr.node {
        TypedNode::Constant(value) => Ok(of_kind(expr.kind, value)),
        TypedNode::Column(entry, place) => Ok(column(expr.kind, row, *entry, *place)),
        TypedNode::Aggregate(_, _) => Ok(Datum::Null),
        TypedNode::Neg(operand) => minus(expr.kind, datum_of(operand.get(), row)),
        TypedNode::Not(operand) => not(datum_of(operand.get(), row)),
        TypedNode::IsNull(operand, denies) => tested(datum_of(operand.get(), row), *denies),
        TypedNode::Binary(op, left, right) => match datum_of(left.get(), row) {
            Ok(left) => two(expr.kind, *op, left, datum_of(right.get(), row)),
            Err(code) => Err(code),
        },
        TypedNode::In(left, members, denies) => match datum_of(left.get(), row) {
            Ok(left) => among(any_equal(left, members.as_slice(), row), *denies),
            Err(code) => Err(code),
        },
    }
}

/// Minus what the operand comes to.
fn minus<'a>(kind: SqlType, operand: Result<Datum<'a>, SqlState>) -> Result<Datum<'a>, SqlState>
    ensures { (outcome : Outcome) → Lends operand.entry outcome → Lends result (of_one (operators.negated kind) outcome) }
{
    match operand {
        Ok(operand) => negated(kind, operand),
        Err(code) => Err(code),
    }
}

/// NOT of what the operand comes to.
fn not<'a>(operand: Result<Datum<'a>, SqlState>) -> Result<Datum<'a>, SqlState>
    ensures { (outcome : Outcome) → Lends operand.entry outcome → Lends result (of_one (λ v. Ok (operators.denied v)) outcome) }
{
    match operand {
        Ok(operand) => Ok(denied(operand)),
        Err(code) => Err(code),
    }
}

/// IS NULL of what the operand comes to, or IS NOT NULL.
fn tested<'a>(operand: Result<Datum<'a>, SqlState>, denies: bool) -> Result<Datum<'a>, SqlState>
    ensures { (outcome : Outcome) → Lends operand.entry outcome → Lends result (of_one (λ v. Ok (values.null_test denies v)) outcome) }
{
    match operand {
        Ok(operand) => {
            let tested = null_test(operand);
            Ok(if denies { denied(tested) } else { tested })
        }
        Err(code) => Err(code),
    }
}

/// IN, given what is found among the members, or NOT IN.
fn among<'a>(found: Result<Datum<'a>, SqlState>, denies: bool) -> Result<Datum<'a>, SqlState>
    ensures { (outcome : Outcome) → Lends found.entry outcome → Lends result (of_one (λ v. Ok (values.denied_if denies v)) outcome) }
{
    match found {
        Ok(found) => Ok(if denies { denied(found) } else { found }),
        Err(code) => Err(code),
    }
}

/// An operator of two operands, given what the second comes to.
fn two<'a>(
    kind: SqlType,
    op: Op,
    left: Datum<'a>,
    right: Result<Datum<'a>, SqlState>,
) -> Result<Datum<'a>, SqlState>
    ensures { (outcome : Outcome) → Lends right.entry outcome → Lends result (of_one (operators.binary kind op (owned left.entry)) outcome) }
{
    match right {
        Ok(right) => binary(kind, op, left, right),
        Err(code) => Err(code),
    }
}

#[cycle(values)]
fn any_equal<'a>(
    left: Datum<'a>,
    members: &'a [TypedExpr],
    row: &'a [&'a [Value]],
) -> Result<Datum<'a>, SqlState>
    ensures { Lends result (values.among (Ok (owned left.entry)) (values_of members.now (seen row.now))) }
{
    let mut found = Datum::Flag(false);
    for member in members {
        let next = compared(Op::Eq, left, datum_of(member, row)?);
        found = either(found, next);
    }
    Ok(found)
}

/// An operator of two operands.
pub fn binary<'a>(
    kind: SqlType,
    op: Op,
    left: Datum<'a>,
    right: Datum<'a>,
) -> Result<Datum<'a>, SqlState>
    ensures { Lends result (operators.binary kind op (owned left.entry) (owned right.entry)) }
{
    match op {
        Op::And => Ok(both(left, right)),
        Op::Or => Ok(either(left, right)),
        Op::Eq | Op::Ne | Op::Lt | Op::Le | Op::Gt | Op::Ge => Ok(compared(op, left, right)),
        Op::Add | Op::Sub | Op::Mul | Op::Div | Op::Rem => arithmetic(kind, op, left, right),
    }
}
