// The types of operators with two operands, and of IN.
ghost use Rattle.std.specs.Prelude.{◌≡◌, IfOk, map};
ghost use Rattle.typing_rules.specs.Expressions as spec;
ghost use Rattle.typing_rules.specs.Outcome.{all_of};
ghost use Rattle.typing_rules.specs.Gives.{Gives};
ghost use Rattle.sql_tree.specs.declared.typed_expr.TypedNode.TheVariants as node;

use crate::kept::{beside, boxed};
use crate::operands::{common_kind, condition, kind_of, settled};
use crate::operators::{
    are_comparable, is_arithmetic, is_connective, is_number, is_numeric, wider,
};
use cell_base::{Boxed, Items, Memory, SqlFault, SqlState, SqlType};
use sql_tree::{Op, TypedExpr, TypedNode};
use std::alloc::Global;
use typing_rules::Form;

fn binary(
    alloc: Global,
    kind: SqlType,
    op: Op,
    left: TypedExpr,
    right: TypedExpr,
) -> Result<Form, Memory>
    ensures { IfOk result (λ form. spec.typed_form kind (node.Binary op left right) ≡ Ok form) }
{
    let (left, right) = boxed(alloc, left, right)?;
    Ok(Form::Typed(TypedExpr {
        kind,
        node: TypedNode::Binary(op, left, right),
    }))
}

#[tactic(auto, unfolding(typing_rules::specs::Expressions::compared))]
fn compared(alloc: Global, op: Op, left: Form, right: Form) -> Result<Form, SqlFault>
    ensures { Gives (spec.compared op left right) result }
{
    let kind = common_kind(&left, &right);
    let (right, a) = beside(right, settled(kind, left))?;
    let (a, b) = beside(a, settled(kind, right))?;
    if are_comparable(a.kind, b.kind) {
        Ok(binary(alloc, SqlType::Boolean, op, a, b)?)
    } else {
        drop(a);
        drop(b);
        Err(SqlFault::State(SqlState::S42883))
    }
}

fn is_numeric_form(form: &Form) -> bool
    ensures { result ≡ spec.is_numeric_form form.now }
{
    match form {
        Form::Typed(expr) => is_numeric(expr.kind),
        Form::Quoted(_) | Form::Null => false,
    }
}

fn whole_operands(
    alloc: Global,
    op: Op,
    kind: SqlType,
    left: Form,
    right: Form,
) -> Result<Form, SqlFault>
    ensures { Gives (spec.whole_operands op kind left right) result }
{
    let (right, a) = beside(right, settled(kind, left))?;
    let (a, b) = beside(a, settled(kind, right))?;
    if is_number(a.kind) && is_number(b.kind) {
        Ok(binary(alloc, wider(a.kind, b.kind), op, a, b)?)
    } else {
        drop(a);
        drop(b);
        Err(SqlFault::State(SqlState::S42883))
    }
}

#[tactic(auto, unfolding(typing_rules::specs::Expressions::calculated))]
fn calculated(alloc: Global, op: Op, left: Form, right: Form) -> Result<Form, SqlFault>
    ensures { Gives (spec.calculated op left right) result }
{
    if is_numeric_form(&left) || is_numeric_form(&right) {
        drop(left);
        drop(right);
        return Err(SqlFault::State(SqlState::S0A000));
    }
    let kind = common_kind(&left, &right);
    if is_number(kind) {
        whole_operands(alloc, op, kind, left, right)
    } else {
        drop(left);
        drop(right);
        Err(SqlFault::State(SqlState::S42883))
    }
}

#[tactic(auto, unfolding(typing_rules::specs::Expressions::joined))]
fn joined(alloc: Global, op: Op, left: Form, right: Form) -> Result<Form, SqlFault>
    ensures { Gives (spec.joined op left right) result }
{
    let (right, a) = beside(right, condition(left))?;
    let (a, b) = beside(a, condition(right))?;
    Ok(binary(alloc, SqlType::Boolean, op, a, b)?)
}

/// An operator with two operands.
#[tactic(auto, unfolding(typing_rules::specs::Expressions::combined))]
pub fn combined(alloc: Global, op: Op, left: Form, right: Form) -> Result<Form, SqlFault>
    ensures { Gives (spec.combined op left right) result }
{
    if is_arithmetic(op) {
        calculated(alloc, op, left, right)
    } else if is_connective(op) {
        joined(alloc, op, left, right)
    } else {
        compared(alloc, op, left, right)
    }
}

/// The type of the first that has one, else text.
fn first_kind(members: &[Form]) -> SqlType
    ensures { result ≡ spec.first_kind members.now }
{
    for member in members {
        if let Some(kind) = kind_of(member) {
            return kind;
        }
    }
    SqlType::Text
}

#[tactic(auto, unfolding(typing_rules::specs::Expressions::member))]
fn member(kind: SqlType, form: Form) -> Result<TypedExpr, SqlState>
    ensures { result ≡ spec.member kind form }
{
    let expr = settled(kind, form)?;
    if are_comparable(kind, expr.kind) {
        Ok(expr)
    } else {
        drop(expr);
        Err(SqlState::S42883)
    }
}

fn members_of(
    alloc: Global,
    kind: SqlType,
    forms: Items<Form>,
) -> Result<Items<TypedExpr>, SqlFault>
    ensures { Gives (all_of (map (spec.member kind) forms)) result }
{
    let mut members = Items::new(alloc);
    for form in forms.into_vec() {
        members.push(member(kind, form)?)?;
    }
    Ok(members)
}

fn among_members(
    alloc: Global,
    left: Form,
    forms: Items<Form>,
    negated: bool,
) -> Result<Form, SqlFault>
    ensures { Gives (spec.among_members left forms negated) result }
{
    let kind = match kind_of(&left) {
        Some(kind) => kind,
        None => first_kind(forms.as_slice()),
    };
    let value = settled(kind, left)?;
    let members = members_of(alloc, value.kind, forms);
    let (value, members) = beside(value, members)?;
    Ok(Form::Typed(TypedExpr {
        kind: SqlType::Boolean,
        node: TypedNode::In(Boxed::new(alloc, value)?, members, negated),
    }))
}

/// IN, and NOT IN where `negated`.
pub fn among(alloc: Global, left: Form, forms: Items<Form>, negated: bool) -> Result<Form, SqlFault>
    ensures { Gives (spec.among left forms negated) result }
{
    match forms.as_slice() {
        [] => {
            drop(left);
            Err(SqlFault::State(SqlState::S42601))
        }
        [_, ..] => among_members(alloc, left, forms, negated),
    }
}
