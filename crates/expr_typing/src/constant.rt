// The values of literals that are converted to a column's type.
ghost use Rattle.std.specs.Prelude.{◌≡◌};
ghost use Rattle.typing_rules.specs.Assignment as assignment;
ghost use Rattle.typing_rules.specs.Constants as spec;
ghost use Rattle.typing_rules.specs.Gives.{Gives};

use crate::literal::whole;
use cell_base::{SqlFault, SqlState, SqlType, Text, Value};
use expr_eval::assign;
use sql_tree::Expr;
use std::alloc::Global;

fn assigned(alloc: Global, kind: SqlType, value: Value) -> Result<Value, SqlFault>
    ensures { Gives (assignment.assigned kind value) result }
{
    assign(alloc, value, kind)
}

/// A quoted literal, as a value of the type.
pub fn text_as(alloc: Global, kind: SqlType, text: &Text) -> Result<Value, SqlFault>
    ensures { Gives (spec.text_as kind text.now) result }
{
    match kind {
        SqlType::Boolean => Err(SqlFault::State(SqlState::S0A000)),
        SqlType::Integer => Ok(Value::Int(whole(text, 1 << 31)?)),
        SqlType::Bigint => Ok(Value::Int(whole(text, 1 << 63)?)),
        SqlType::Text | SqlType::Varchar(_) | SqlType::Numeric => {
            assigned(alloc, kind, Value::Text(text.copy(alloc)?))
        }
    }
}

/// An integer after a minus sign, as a value of the type.
fn negative_as(alloc: Global, kind: SqlType, number: i64) -> Result<Value, SqlFault>
    ensures { Gives (spec.negative_as kind number) result }
{
    match number.checked_neg() {
        Some(negative) => assigned(alloc, kind, Value::Int(negative)),
        None => Err(SqlFault::State(SqlState::S22003)),
    }
}

/// The value of a constant as one of a column's type: of a default of CREATE TABLE. NULL goes to every type; an integer to
/// integer and bigint; a quoted literal to text and varchar, and to integer and bigint by its form; a boolean to boolean.
///
/// `S22003`: an integer that the type doesn't have. `S22P02`: a quoted literal that is no integer. `S22001`: more characters
/// than a varchar's limit, and not all of what is too much is spaces. `S54000`: a text of more than 65,536 bytes. `S42804`: a
/// value that doesn't go to the type. `S0A000`: a quoted literal for a boolean, and an expression that isn't a constant
/// (PostgreSQL's documentation, "Constants" and "Value Storage").
pub fn typed_constant(alloc: Global, expr: &Expr, kind: SqlType) -> Result<Value, SqlFault>
    ensures { Gives (spec.constant kind expr.now) result }
{
    match expr {
        Expr::Int(number) => assigned(alloc, kind, Value::Int(*number)),
        Expr::Str(text) => text_as(alloc, kind, text),
        Expr::Flag(flag) => assigned(alloc, kind, Value::Flag(*flag)),
        Expr::Null => Ok(Value::Null),
        Expr::Neg(operand) => match operand.get() {
            Expr::Int(number) => negative_as(alloc, kind, *number),
            _ => Err(SqlFault::State(SqlState::S0A000)),
        },
        _ => Err(SqlFault::State(SqlState::S0A000)),
    }
}
