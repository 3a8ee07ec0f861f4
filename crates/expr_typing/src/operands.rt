// The type that a quoted literal or a NULL takes from its place, and what a place asks of its operand.
ghost use Rattle.std.specs.Prelude.{◌≡◌, List, [], map, IfOk};
ghost use Rattle.typing_rules.specs.Expressions as spec;
ghost use Rattle.typing_rules.specs.Literals as literals;
ghost use Rattle.typing_rules.specs.Gives.{Gives};

use crate::literal::whole;
use crate::operators::{is_boolean, is_numeric};
use cell_base::{SqlState, SqlType, Text, Value};
use sql_tree::{TypedExpr, TypedNode};
use std::alloc::Global;
use typing_rules::Form;

/// The null of a type.
pub fn null(kind: SqlType) -> TypedExpr
    ensures { result ≡ spec.null kind }
{
    TypedExpr {
        kind,
        node: TypedNode::Constant(Value::Null),
    }
}

/// The value of a quoted literal that takes this type.
fn quoted(kind: SqlType, text: Text) -> Result<Value, SqlState>
    ensures { result ≡ literals.quoted kind text }
{
    match kind {
        SqlType::Boolean | SqlType::Numeric => Err(SqlState::S0A000),
        SqlType::Integer => Ok(Value::Int(whole(&text, 1 << 31)?)),
        SqlType::Bigint => Ok(Value::Int(whole(&text, 1 << 63)?)),
        SqlType::Text | SqlType::Varchar(_) => Ok(Value::Text(text)),
    }
}

fn operand(expr: TypedExpr) -> Result<TypedExpr, SqlState>
    ensures { result ≡ spec.operand expr }
{
    if is_numeric(expr.kind) {
        drop(expr);
        Err(SqlState::S0A000)
    } else {
        Ok(expr)
    }
}

/// An operand, where a quoted literal or NULL takes this type.
pub fn settled(kind: SqlType, form: Form) -> Result<TypedExpr, SqlState>
    ensures { result ≡ spec.settled kind form }
{
    match form {
        Form::Typed(expr) => operand(expr),
        Form::Quoted(text) => Ok(TypedExpr {
            kind,
            node: TypedNode::Constant(quoted(kind, text)?),
        }),
        Form::Null => operand(null(kind)),
    }
}

/// The type of a form that has one.
pub fn kind_of(form: &Form) -> Option<SqlType>
    ensures { result ≡ spec.kind_of form.now }
{
    match form {
        Form::Typed(expr) => Some(expr.kind),
        Form::Quoted(_) | Form::Null => None,
    }
}

/// The type of the left one, else that of the right one, else text.
pub fn common_kind(left: &Form, right: &Form) -> SqlType
    ensures { result ≡ spec.common_kind left.now right.now }
{
    match kind_of(left) {
        Some(kind) => kind,
        None => kind_of(right).unwrap_or(SqlType::Text),
    }
}

/// Where a boolean is wanted.
pub fn condition(form: Form) -> Result<TypedExpr, SqlState>
    ensures { result ≡ spec.condition form }
{
    match form {
        Form::Typed(expr) => condition_of(expr),
        Form::Quoted(_) => Err(SqlState::S0A000),
        Form::Null => Ok(null(SqlType::Boolean)),
    }
}

fn condition_of(expr: TypedExpr) -> Result<TypedExpr, SqlState>
    ensures { result ≡ spec.condition_of expr }
{
    if is_boolean(expr.kind) {
        Ok(expr)
    } else if is_numeric(expr.kind) {
        drop(expr);
        Err(SqlState::S0A000)
    } else {
        drop(expr);
        Err(SqlState::S42804)
    }
}
