// The types of expressions that are assigned to a column, and of items.
ghost use Rattle.std.specs.Prelude.{◌≡◌};
ghost use Rattle.sql_tree.specs.declared.expr.Expr.{out-Expr};
ghost use Rattle.sql_tree.specs.declared.typed_expr.TypedNode.TheVariants as node;
ghost use Rattle.typing_rules.specs.Constants.{constant};
ghost use Rattle.typing_rules.specs.Expressions as spec;
ghost use Rattle.typing_rules.specs.Given as given;
ghost use Rattle.typing_rules.specs.Outcome.{and_then};
ghost use Rattle.typing_rules.specs.Gives.{Gives};
ghost use Rattle.expr_typing.specs.Scope.{IsNarrow, sources};

use crate::Entry;
use crate::constant::{text_as, typed_constant};
use crate::expression::form;
use crate::operands::{null, settled};
use crate::operators::{are_comparable, is_numeric};
use cell_base::{SqlFault, SqlState, SqlType, Value};
use sql_tree::{Expr, TypedExpr, TypedNode};
use std::alloc::Global;
use typing_rules::{Form, Place};

fn constant_of(kind: SqlType, value: Value) -> TypedExpr
    ensures { result ≡ spec.typed_node kind (node.Constant value) }
{
    TypedExpr {
        kind,
        node: TypedNode::Constant(value),
    }
}

fn assigned_expr(kind: SqlType, expr: TypedExpr) -> Result<TypedExpr, SqlState>
    ensures { result ≡ given.assigned_expr kind expr }
{
    if is_numeric(expr.kind) {
        drop(expr);
        Err(SqlState::S0A000)
    } else if are_comparable(expr.kind, kind) {
        Ok(expr)
    } else {
        drop(expr);
        Err(SqlState::S42804)
    }
}

fn assigned_form(alloc: Global, kind: SqlType, form: Form) -> Result<TypedExpr, SqlFault>
    ensures { Gives (given.assigned_form kind form) result }
{
    match form {
        Form::Typed(expr) => Ok(assigned_expr(kind, expr)?),
        Form::Quoted(text) => Ok(constant_of(kind, text_as(alloc, kind, &text)?)),
        Form::Null => Ok(null(kind)),
    }
}

/// Whether the expression is an integer literal, also after one minus sign.
fn is_integer_literal(expr: &Expr) -> bool
    ensures { result ≡ given.is_integer_literal (out-Expr expr.now) }
{
    match expr {
        Expr::Int(_) => true,
        Expr::Neg(operand) => matches!(operand.get(), Expr::Int(_)),
        _ => false,
    }
}

/// The typed tree of an expression that is assigned to a column of this type, in VALUES or SET. A literal is converted here,
/// with the codes of [`typed_constant`]; every other value is converted when the statement runs.
///
/// `S42804`: an expression of a type that doesn't go to the column's. The other codes are those of [`typed_flag`]
/// (PostgreSQL's documentation, "Value Storage").
///
/// [`typed_flag`]: crate::typed_flag
#[tactic(auto, unfolding(typing_rules::specs::Given::given))]
pub fn typed_value(
    alloc: Global,
    expr: &Expr,
    kind: SqlType,
    scope: &[Entry<'_>],
) -> Result<TypedExpr, SqlFault>
    requires { IsNarrow scope.now }
    ensures { Gives (given.given (sources scope.now) kind expr.now) result }
{
    if is_integer_literal(expr) {
        Ok(constant_of(kind, typed_constant(alloc, expr, kind)?))
    } else {
        assigned_form(alloc, kind, form(alloc, expr, scope, Place::Row)?)
    }
}

fn item(form: Form) -> Result<TypedExpr, SqlState>
    ensures { result ≡ spec.item form }
{
    match form {
        Form::Typed(expr) => Ok(expr),
        Form::Quoted(text) => settled(SqlType::Text, Form::Quoted(text)),
        Form::Null => settled(SqlType::Text, Form::Null),
    }
}

/// The typed tree of an expression that is a whole item of a SELECT or a term of its ORDER BY, over a row of each entry or
/// over groups of rows. A quoted literal and NULL are text. The codes are those of [`typed_flag`]; over groups a column
/// outside an aggregate is 42803 (PostgreSQL's documentation, "Select Lists").
///
/// [`typed_flag`]: crate::typed_flag
pub fn typed_item(
    alloc: Global,
    expr: &Expr,
    scope: &[Entry<'_>],
    place: Place,
) -> Result<TypedExpr, SqlFault>
    requires { IsNarrow scope.now }
    ensures { Gives (and_then (spec.typing (sources scope.now) expr.now place) spec.item) result }
{
    Ok(item(form(alloc, expr, scope, place)?)?)
}
