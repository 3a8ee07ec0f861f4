// Arithmetic on integers that don't leave their type.
ghost use Rattle.std.specs.Prelude.{ℤ, FitsSigned};
ghost use Rattle.std.specs.Int.{w64};
ghost use Rattle.std.specs.Option.{SomeIff};
ghost use Rattle.expr_eval.specs.Lent.{owned, Lends};
ghost use Rattle.expr_eval.specs.Operators as operators;

use crate::datum::Datum;
use cell_base::{SqlState, SqlType};
use sql_tree::Op;

/// `+ - * / %`: null where an operand is no integer.
pub fn arithmetic<'a>(
    kind: SqlType,
    op: Op,
    left: Datum<'a>,
    right: Datum<'a>,
) -> Result<Datum<'a>, SqlState>
    ensures { Lends result (operators.arithmetic kind op (owned left.entry) (owned right.entry)) }
{
    match (left, right) {
        (Datum::Int(a), Datum::Int(b)) => computed(kind, op, a, b),
        _ => Ok(Datum::Null),
    }
}

/// A sign.
pub fn negated<'a>(kind: SqlType, operand: Datum<'a>) -> Result<Datum<'a>, SqlState>
    ensures { Lends result (operators.negated kind (owned operand.entry)) }
{
    match operand {
        Datum::Int(n) => in_range(kind, n.checked_neg()),
        _ => Ok(Datum::Null),
    }
}

fn computed<'a>(kind: SqlType, op: Op, a: i64, b: i64) -> Result<Datum<'a>, SqlState>
    ensures { Lends result (operators.computed kind op a b) }
{
    match op {
        Op::Add => in_range(kind, a.checked_add(b)),
        Op::Sub => in_range(kind, a.checked_sub(b)),
        Op::Mul => in_range(kind, a.checked_mul(b)),
        Op::Div => {
            if b == 0 {
                Err(SqlState::S22012)
            } else {
                in_range(kind, a.checked_div(b))
            }
        }
        Op::Rem => {
            if b == 0 {
                Err(SqlState::S22012)
            } else {
                of_type(kind, a.wrapping_rem(b))
            }
        }
        _ => Ok(Datum::Null),
    }
}

/// The number, where it has 64 bits and is one of the type.
fn in_range<'a>(kind: SqlType, number: Option<i64>) -> Result<Datum<'a>, SqlState>
    ensures { (n : ℤ) → SomeIff number (FitsSigned w64 n) n → Lends result (operators.in_range kind n) }
{
    match number {
        Some(n) => of_type(kind, n),
        None => Err(SqlState::S22003),
    }
}

fn of_type<'a>(kind: SqlType, n: i64) -> Result<Datum<'a>, SqlState>
    ensures { Lends result (operators.in_range kind n) }
{
    match kind {
        SqlType::Integer if i32::try_from(n).is_err() => Err(SqlState::S22003),
        SqlType::Integer | SqlType::Bigint => Ok(Datum::Int(n)),
        _ => Err(SqlState::S22003),
    }
}
