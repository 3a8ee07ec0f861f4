// The types of expressions.
ghost use Rattle.std.specs.Prelude.{◌≡◌, List, Ok, IfOk, map};
ghost use Rattle.std.specs.Option.{option_map};
ghost use Rattle.typing_rules.specs.Expressions as spec;
ghost use Rattle.typing_rules.specs.Operators as operators;
ghost use Rattle.sql_tree.specs.declared.typed_expr.TypedNode.TheVariants.{Constant};
ghost use Rattle.typing_rules.specs.declared.form.Form.TheVariants.{Quoted};
ghost use Rattle.typing_rules.specs.Gives.{Gives};
ghost use Rattle.expr_typing.specs.Scope.{IsNarrow, sources};

use crate::Entry;
use crate::calls::{aggregated, inside, starred};
use crate::combine::{among, combined};
use crate::kept::beside;
use crate::names::resolved;
use crate::operands::{condition, settled};
use crate::operators::{aggregate_named, is_number, is_numeric};
use cell_base::{Boxed, Items, SqlFault, SqlState, SqlType, Text, Value};
use sql_tree::{Expr, TypedExpr, TypedNode};
use std::alloc::Global;
use typing_rules::{Form, Place};

/// A constant of a type.
fn constant(kind: SqlType, value: Value) -> Form
    ensures { spec.typed_form kind (Constant value) ≡ Ok result }
{
    of_kind(kind, TypedNode::Constant(value))
}

fn of_kind(kind: SqlType, node: TypedNode) -> Form
    ensures { spec.typed_form kind node ≡ Ok result }
{
    Form::Typed(TypedExpr { kind, node })
}

/// A quoted literal, whose type its place gives.
fn quoted(alloc: Global, text: &Text) -> Result<Form, SqlFault>
    ensures { Gives (Ok (Quoted text.now)) result }
{
    Ok(Form::Quoted(text.copy(alloc)?))
}

/// Integer where the number fits one, else bigint.
fn literal_kind(number: i64) -> SqlType
    ensures { result ≡ spec.literal_kind number }
{
    if (-2147483648..=2147483647).contains(&number) {
        SqlType::Integer
    } else {
        SqlType::Bigint
    }
}

#[tactic(auto, unfolding(typing_rules::specs::Expressions::column))]
fn column(
    scope: &[Entry<'_>],
    place: Place,
    qualifier: Option<&Text>,
    name: &Text,
) -> Result<Form, SqlFault>
    requires { IsNarrow scope.now }
    ensures { Gives (spec.column (sources scope.now) place (option_map (λ q. q.now) qualifier.entry) name.now) result }
{
    let found = resolved(scope, qualifier, name)?;
    match place {
        Place::Row => Ok(of_kind(found.kind, TypedNode::Column(found.entry, found.column))),
        Place::Group => Err(SqlFault::State(SqlState::S42803)),
    }
}

fn negated(alloc: Global, form: Form) -> Result<Form, SqlFault>
    ensures { Gives (spec.negated_form form) result }
{
    match form {
        Form::Typed(expr) => {
            if is_number(expr.kind) {
                Ok(of_kind(expr.kind, TypedNode::Neg(Boxed::new(alloc, expr)?)))
            } else if is_numeric(expr.kind) {
                drop(expr);
                Err(SqlFault::State(SqlState::S0A000))
            } else {
                drop(expr);
                Err(SqlFault::State(SqlState::S42883))
            }
        }
        Form::Quoted(_) | Form::Null => Err(SqlFault::State(SqlState::S42883)),
    }
}

fn inverted(alloc: Global, form: Form) -> Result<Form, SqlFault>
    ensures { Gives (spec.inverted form) result }
{
    let expr = condition(form)?;
    Ok(of_kind(SqlType::Boolean, TypedNode::Not(Boxed::new(alloc, expr)?)))
}

fn null_test(alloc: Global, form: Form, negated: bool) -> Result<Form, SqlFault>
    ensures { Gives (spec.null_test form negated) result }
{
    let expr = settled(SqlType::Text, form)?;
    Ok(of_kind(
        SqlType::Boolean,
        TypedNode::IsNull(Boxed::new(alloc, expr)?, negated),
    ))
}

/// What an expression comes to in its place.
#[cycle(typing)]
pub fn form(alloc: Global, expr: &Expr, scope: &[Entry<'_>], place: Place) -> Result<Form, SqlFault>
    requires { IsNarrow scope.now }
    ensures { Gives (spec.typing (sources scope.now) expr.now place) result }
{
    match expr {
        Expr::Int(number) => Ok(constant(literal_kind(*number), Value::Int(*number))),
        Expr::Str(text) => quoted(alloc, text),
        Expr::Flag(flag) => Ok(constant(SqlType::Boolean, Value::Flag(*flag))),
        Expr::Null => Ok(Form::Null),
        Expr::Column(None, name) => column(scope, place, None, name),
        Expr::Column(Some(qualifier), name) => column(scope, place, Some(qualifier), name),
        Expr::Call(name, None) => starred(place, aggregate_named(name)),
        Expr::Call(name, Some(argument)) => {
            let function = aggregate_named(name);
            let argument = form(alloc, argument.get(), scope, inside(function, place))?;
            aggregated(alloc, place, function, argument)
        }
        Expr::Neg(operand) => negated(alloc, form(alloc, operand.get(), scope, place)?),
        Expr::Not(operand) => inverted(alloc, form(alloc, operand.get(), scope, place)?),
        Expr::IsNull(operand, negated) => null_test(
            alloc,
            form(alloc, operand.get(), scope, place)?,
            *negated,
        ),
        Expr::Binary(op, left, right) => {
            let left = form(alloc, left.get(), scope, place)?;
            let (left, right) = beside(left, form(alloc, right.get(), scope, place))?;
            combined(alloc, *op, left, right)
        }
        Expr::In(left, members, negated) => {
            let left = form(alloc, left.get(), scope, place)?;
            let members = forms(alloc, members.as_slice(), scope, place);
            let (left, members) = beside(left, members)?;
            among(alloc, left, members, *negated)
        }
    }
}

#[cycle(typing)]
fn forms(
    alloc: Global,
    exprs: &[Expr],
    scope: &[Entry<'_>],
    place: Place,
) -> Result<Items<Form>, SqlFault>
    requires { IsNarrow scope.now }
    ensures { Gives (spec.typings (sources scope.now) exprs.now place) result }
{
    let mut forms = Items::new(alloc);
    for expr in exprs {
        forms.push(form(alloc, expr, scope, place)?)?;
    }
    Ok(forms)
}
