// A value that borrows its text.
ghost use Rattle.std.specs.Prelude.{◌≡◌, Ok, IfOk, OnErr};
ghost use Rattle.expr_eval.specs.Answers.{IsTextOutcome};
ghost use Rattle.expr_eval.specs.Lent.{owned};
ghost use Rattle.typing_rules.specs.Kinds as kinds;

use cell_base::{Memory, Text, Value};
use std::alloc::Global;

/// The value of an expression while it is evaluated. Its text stands in the row or in the expression, so no operator copies
/// one.
#[derive(Clone, Copy)]
pub enum Datum<'a> {
    Null,
    Flag(bool),
    Int(i64),
    Wide(i128),
    Text(&'a Text),
}

/// Whether it is null.
pub fn is_null(datum: Datum<'_>) -> bool
    ensures { result ≡ kinds.is_null (owned datum.entry) }
{
    matches!(datum, Datum::Null)
}

/// The value, with a copy of its text.
pub fn to_value(alloc: Global, datum: Datum<'_>) -> Result<Value, Memory>
    ensures ok { IfOk result (λ value. value ≡ owned datum.entry) }
    ensures memory { OnErr result (IsTextOutcome (Ok (owned datum.entry))) }
{
    match datum {
        Datum::Null => Ok(Value::Null),
        Datum::Flag(flag) => Ok(Value::Flag(flag)),
        Datum::Int(n) => Ok(Value::Int(n)),
        Datum::Wide(n) => Ok(Value::Wide(n)),
        Datum::Text(text) => Ok(Value::Text(text.copy(alloc)?)),
    }
}
