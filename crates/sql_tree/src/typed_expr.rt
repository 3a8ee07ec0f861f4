// Expressions with their types.
ghost use Rattle.std.specs.Prelude.{◌≡◌, IfOk};

use crate::{Aggregate, Op};
use cell_base::{Boxed, Items, Memory, SqlType, Value};
use std::alloc::Global;

/// An expression with its type.
#[cycle(typed)]
#[derive(Debug, Drop)]
pub struct TypedExpr {
    pub kind: SqlType,
    pub node: TypedNode,
}

/// The outermost node of a typed expression.
#[cycle(typed)]
#[derive(Debug, Drop)]
pub enum TypedNode {
    Constant(Value),
    /// An entry of FROM and a column of its table, both from 0.
    Column(u32, u32),
    /// No operand stands for `*`.
    Aggregate(Aggregate, Option<Boxed<TypedExpr>>),
    Neg(Boxed<TypedExpr>),
    Not(Boxed<TypedExpr>),
    /// True for IS NOT NULL.
    IsNull(Boxed<TypedExpr>, bool),
    Binary(Op, Boxed<TypedExpr>, Boxed<TypedExpr>),
    /// True for NOT IN.
    In(Boxed<TypedExpr>, Items<TypedExpr>, bool),
}

impl TypedExpr {
    /// The same expression once more.
    #[cycle(copies)]
    pub fn copy(&self, alloc: Global) -> Result<TypedExpr, Memory>
        ensures { IfOk result (λ expr. expr ≡ self.now) }
    {
        Ok(TypedExpr {
            kind: self.kind,
            node: self.node.copy(alloc)?,
        })
    }
}

impl TypedNode {
    /// The same node once more.
    #[cycle(copies)]
    pub fn copy(&self, alloc: Global) -> Result<TypedNode, Memory>
        ensures { IfOk result (λ node. node ≡ self.now) }
    {
        Ok(match self {
            TypedNode::Constant(value) => TypedNode::Constant(value.copy(alloc)?),
            TypedNode::Column(entry, column) => TypedNode::Column(*entry, *column),
            TypedNode::Aggregate(function, None) => TypedNode::Aggregate(*function, None),
            TypedNode::Aggregate(function, Some(operand)) => {
                TypedNode::Aggregate(*function, Some(copy_boxed(alloc, operand)?))
            }
            TypedNode::Neg(operand) => TypedNode::Neg(copy_boxed(alloc, operand)?),
            TypedNode::Not(operand) => TypedNode::Not(copy_boxed(alloc, operand)?),
            TypedNode::IsNull(operand, negated) => {
                TypedNode::IsNull(copy_boxed(alloc, operand)?, *negated)
            }
            TypedNode::Binary(op, left, right) => {
                TypedNode::Binary(*op, copy_boxed(alloc, left)?, copy_boxed(alloc, right)?)
            }
            TypedNode::In(left, members, negated) => {
                TypedNode::In(
                    copy_boxed(alloc, left)?,
                    copy_each(alloc, members)?,
                    *negated,
                )
            }
        })
    }
}

#[cycle(copies)]
fn copy_boxed(alloc: Global, expr: &Boxed<TypedExpr>) -> Result<Boxed<TypedExpr>, Memory>
    ensures { IfOk result (λ boxed. boxed ≡ expr.now) }
{
    Boxed::new(alloc, expr.get().copy(alloc)?)
}

#[cycle(copies)]
fn copy_each(alloc: Global, exprs: &Items<TypedExpr>) -> Result<Items<TypedExpr>, Memory>
    ensures { IfOk result (λ items. items ≡ exprs.now) }
{
    let mut copies = Items::new(alloc);
    for expr in exprs.as_slice() {
        copies.push(expr.copy(alloc)?)?;
    }
    Ok(copies)
}
