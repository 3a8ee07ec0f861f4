// Comparisons.
ghost use Rattle.std.specs.Prelude.{◌≡◌};
ghost use Rattle.expr_eval.specs.Lent.{owned};
ghost use Rattle.expr_eval.specs.Operators as operators;

use crate::datum::Datum;
use sql_tree::Op;
use std::cmp::Ordering;

/// `= <> < <= > >=`: null where the values have no order.
pub fn compared<'a>(op: Op, left: Datum<'a>, right: Datum<'a>) -> Datum<'a>
    ensures { owned result ≡ operators.compared op (owned left.entry) (owned right.entry) }
{
    match order_of(left, right) {
        Some(order) => Datum::Flag(holds(op, order)),
        None => Datum::Null,
    }
}

/// Integers by value, text by bytes, false below true. Null has no order, nor have values of two types.
pub fn order_of(left: Datum<'_>, right: Datum<'_>) -> Option<Ordering>
    ensures { result ≡ operators.order_of (owned left.entry) (owned right.entry) }
{
    match (left, right) {
        (Datum::Int(a), Datum::Int(b)) => Some(a.cmp(&b)),
        (Datum::Text(a), Datum::Text(b)) => Some(a.cmp(b)),
        (Datum::Flag(a), Datum::Flag(b)) => Some(a.cmp(&b)),
        _ => None,
    }
}

fn holds(op: Op, order: Ordering) -> bool
    ensures { result ≡ operators.holds op order }
{
    match op {
        Op::Eq => order.is_eq(),
        Op::Ne => order.is_ne(),
        Op::Lt => order.is_lt(),
        Op::Le => order.is_le(),
        Op::Gt => order.is_gt(),
        Op::Ge => order.is_ge(),
        _ => false,
    }
}
