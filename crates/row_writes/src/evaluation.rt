// The values of expressions over one row.
ghost use Rattle.std.specs.Prelude.{◌≡◌, [], ◌∷◌, Ok};
ghost use Rattle.typing_rules.specs.Assignment.{assigned};
ghost use Rattle.typing_rules.specs.Outcome.{and_then};
ghost use Rattle.expr_eval.specs.Values.{value_of};
ghost use Rattle.row_meaning.specs.Combinations as combinations;
ghost use Rattle.typing_rules.specs.Gives.{Gives};
ghost use Rattle.row_meaning.specs.Storing as storing;

use cell_base::{SqlFault, SqlState, SqlType, Value};
use expr_eval::{Datum, assign, datum_of, eval};
use sql_tree::TypedExpr;
use std::alloc::Global;

/// The value of an expression that sees no row.
pub fn value_alone(alloc: Global, expr: &TypedExpr) -> Result<Value, SqlFault>
    ensures { Gives (value_of expr.now []) result }
{
    eval(alloc, expr, &[])
}

/// The value of an expression over a row.
pub fn value_over(alloc: Global, expr: &TypedExpr, row: &[Value]) -> Result<Value, SqlFault>
    ensures { Gives (value_of expr.now (row.now ∷ [])) result }
{
    eval(alloc, expr, &[row])
}

/// Whether a condition is true over a row. Takes no memory.
pub fn is_true(condition: &TypedExpr, row: &[Value]) -> Result<bool, SqlState>
    ensures { result ≡ and_then (value_of condition.now (row.now ∷ [])) (λ v. Ok (combinations.is_true v)) }
{
    Ok(matches!(datum_of(condition, &[row])?, Datum::Flag(true)))
}

/// Whether a condition is false over a row: neither true nor unknown. Takes no memory.
pub fn is_false(condition: &TypedExpr, row: &[Value]) -> Result<bool, SqlState>
    ensures { result ≡ and_then (value_of condition.now (row.now ∷ [])) (λ v. Ok (storing.is_false v)) }
{
    Ok(matches!(datum_of(condition, &[row])?, Datum::Flag(false)))
}

/// The value as one of a column's type.
pub fn converted(alloc: Global, value: Value, kind: SqlType) -> Result<Value, SqlFault>
    ensures { Gives (assigned kind value) result }
{
    assign(alloc, value, kind)
}
