// Expressions over constants.
use crate::values::cases::{Form, Operation};
use case_lines::{Lit, value_of};
use cell_base::{Boxed, Items, Memory, SqlType};
use held_values::{both, kept};
use sql_tree::{Op, TypedExpr, TypedNode};
use std::alloc::Global;

pub fn constant(alloc: Global, kind: SqlType, lit: Lit) -> Result<TypedExpr, Memory> {
    Ok(TypedExpr {
        kind,
        node: TypedNode::Constant(value_of(alloc, lit)?),
    })
}

pub fn integer(alloc: Global, n: i64) -> Result<TypedExpr, Memory> {
    constant(alloc, SqlType::Integer, Lit::Int(n))
}

fn boxed(alloc: Global, made: Result<TypedExpr, Memory>) -> Result<Boxed<TypedExpr>, Memory> {
    Boxed::new(alloc, made?)
}

pub fn binary(
    alloc: Global,
    kind: SqlType,
    op: Op,
    left: Result<TypedExpr, Memory>,
    right: Result<TypedExpr, Memory>,
) -> Result<TypedExpr, Memory> {
    let (left, right) = both(boxed(alloc, left), boxed(alloc, right))?;
    Ok(TypedExpr {
        kind,
        node: TypedNode::Binary(op, left, right),
    })
}

/// The type of a result, given the operands'.
fn result_type(op: Op, kind: SqlType) -> SqlType {
    match op {
        Op::Add | Op::Sub | Op::Mul | Op::Div | Op::Rem => kind,
        _ => SqlType::Boolean,
    }
}

pub fn operation(alloc: Global, (op, kind, left, right): Operation) -> Result<TypedExpr, Memory> {
    let left = constant(alloc, kind, left);
    let right = constant(alloc, kind, right);
    binary(alloc, result_type(op, kind), op, left, right)
}

pub fn equality(
    alloc: Global,
    left: Result<TypedExpr, Memory>,
    right: Result<TypedExpr, Memory>,
) -> Result<TypedExpr, Memory> {
    binary(alloc, SqlType::Boolean, Op::Eq, left, right)
}

/// `1 / 0`.
fn quotient(alloc: Global) -> Result<TypedExpr, Memory> {
    operation(alloc, (Op::Div, SqlType::Integer, Lit::Int(1), Lit::Int(0)))
}

/// `1 / 0 = 1`.
pub fn failing(alloc: Global) -> Result<TypedExpr, Memory> {
    equality(alloc, quotient(alloc), integer(alloc, 1))
}

fn node_of(form: Form, operand: Boxed<TypedExpr>) -> TypedNode {
    match form {
        Form::Neg => TypedNode::Neg(operand),
        Form::Not => TypedNode::Not(operand),
        Form::IsNull(negated) => TypedNode::IsNull(operand, negated),
    }
}

fn type_of(form: Form, kind: SqlType) -> SqlType {
    match form {
        Form::Neg => kind,
        _ => SqlType::Boolean,
    }
}

/// A form with one operand.
pub fn of_one(alloc: Global, form: Form, kind: SqlType, lit: Lit) -> Result<TypedExpr, Memory> {
    let operand = boxed(alloc, constant(alloc, kind, lit))?;
    Ok(TypedExpr {
        kind: type_of(form, kind),
        node: node_of(form, operand),
    })
}

// ---- members

fn push_integers(
    exprs: &mut Items<TypedExpr>,
    alloc: Global,
    members: &[Lit],
) -> Result<(), Memory> {
    for lit in members {
        exprs.push(constant(alloc, SqlType::Integer, *lit)?)?;
    }
    Ok(())
}

fn integers(alloc: Global, members: &[Lit]) -> Result<Items<TypedExpr>, Memory> {
    let mut exprs = Items::new(alloc);
    let pushed = push_integers(&mut exprs, alloc, members);
    kept(exprs, pushed)
}

fn within(
    alloc: Global,
    left: Result<TypedExpr, Memory>,
    members: Result<Items<TypedExpr>, Memory>,
    negated: bool,
) -> Result<TypedExpr, Memory> {
    let (left, members) = both(boxed(alloc, left), members)?;
    Ok(TypedExpr {
        kind: SqlType::Boolean,
        node: TypedNode::In(left, members, negated),
    })
}

/// An integer IN, or NOT IN, members.
pub fn among(
    alloc: Global,
    left: Lit,
    members: &[Lit],
    negated: bool,
) -> Result<TypedExpr, Memory> {
    let left = constant(alloc, SqlType::Integer, left);
    within(alloc, left, integers(alloc, members), negated)
}

fn push_failing(exprs: &mut Items<TypedExpr>, alloc: Global) -> Result<(), Memory> {
    exprs.push(integer(alloc, 1)?)?;
    exprs.push(quotient(alloc)?)
}

fn failing_members(alloc: Global) -> Result<Items<TypedExpr>, Memory> {
    let mut exprs = Items::new(alloc);
    let pushed = push_failing(&mut exprs, alloc);
    kept(exprs, pushed)
}

/// `1 IN (1, 1 / 0)`.
pub fn among_failing(alloc: Global) -> Result<TypedExpr, Memory> {
    within(alloc, integer(alloc, 1), failing_members(alloc), false)
}
