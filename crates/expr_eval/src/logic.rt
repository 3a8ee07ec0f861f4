// Three-valued logic: null stands for unknown.
ghost use Rattle.std.specs.Prelude.{◌≡◌, false};
ghost use Rattle.expr_eval.specs.Lent.{owned};
ghost use Rattle.expr_eval.specs.Operators as operators;
ghost use Rattle.expr_eval.specs.Values as values;

use crate::datum::Datum;

/// AND.
pub fn both<'a>(left: Datum<'a>, right: Datum<'a>) -> Datum<'a>
    ensures { owned result ≡ operators.both (owned left.entry) (owned right.entry) }
{
    match (left, right) {
        (Datum::Flag(false), _) | (_, Datum::Flag(false)) => Datum::Flag(false),
        (Datum::Flag(true), Datum::Flag(true)) => Datum::Flag(true),
        _ => Datum::Null,
    }
}

/// OR.
pub fn either<'a>(left: Datum<'a>, right: Datum<'a>) -> Datum<'a>
    ensures { owned result ≡ operators.either (owned left.entry) (owned right.entry) }
{
    match (left, right) {
        (Datum::Flag(true), _) | (_, Datum::Flag(true)) => Datum::Flag(true),
        (Datum::Flag(false), Datum::Flag(false)) => Datum::Flag(false),
        _ => Datum::Null,
    }
}

/// NOT.
pub fn denied(operand: Datum<'_>) -> Datum<'_>
    ensures { owned result ≡ operators.denied (owned operand.entry) }
{
    match operand {
        Datum::Flag(flag) => Datum::Flag(!flag),
        _ => Datum::Null,
    }
}

/// IS NULL.
pub fn null_test<'a>(operand: Datum<'a>) -> Datum<'a>
    ensures { owned result ≡ values.null_test false (owned operand.entry) }
{
    Datum::Flag(matches!(operand, Datum::Null))
}
