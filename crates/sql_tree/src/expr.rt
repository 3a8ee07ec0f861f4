// Expressions as they are read.
ghost use Rattle.std.specs.Prelude.{◌≡◌, IfOk};

use crate::Op;
use cell_base::{Boxed, Items, Memory, Text};
use std::alloc::Global;

/// An expression as it is read, without its type.
#[derive(Debug, Drop)]
pub enum Expr {
    Int(i64),
    Str(Text),
    Flag(bool),
    Null,
    /// The name of a FROM entry, where one is written, and a column's.
    Column(Option<Text>, Text),
    /// A function; no operand stands for `*`.
    Call(Text, Option<Boxed<Expr>>),
    Neg(Boxed<Expr>),
    Not(Boxed<Expr>),
    /// True for IS NOT NULL.
    IsNull(Boxed<Expr>, bool),
    Binary(Op, Boxed<Expr>, Boxed<Expr>),
    /// True for NOT IN.
    In(Boxed<Expr>, Items<Expr>, bool),
}

impl Expr {
    /// The same expression once more.
    #[cycle(copies)]
    pub fn copy(&self, alloc: Global) -> Result<Expr, Memory>
        ensures { IfOk result (λ expr. expr ≡ self.now) }
    {
        Ok(match self {
            Expr::Int(number) => Expr::Int(*number),
            Expr::Str(text) => Expr::Str(text.copy(alloc)?),
            Expr::Flag(flag) => Expr::Flag(*flag),
            Expr::Null => Expr::Null,
            Expr::Column(None, name) => Expr::Column(None, name.copy(alloc)?),
            Expr::Column(Some(table), name) => {
                Expr::Column(Some(table.copy(alloc)?), name.copy(alloc)?)
            }
            Expr::Call(name, None) => Expr::Call(name.copy(alloc)?, None),
            Expr::Call(name, Some(operand)) => {
                Expr::Call(name.copy(alloc)?, Some(copy_boxed(alloc, operand)?))
            }
            Expr::Neg(operand) => Expr::Neg(copy_boxed(alloc, operand)?),
            Expr::Not(operand) => Expr::Not(copy_boxed(alloc, operand)?),
            Expr::IsNull(operand, negated) => Expr::IsNull(copy_boxed(alloc, operand)?, *negated),
            Expr::Binary(op, left, right) => {
                Expr::Binary(*op, copy_boxed(alloc, left)?, copy_boxed(alloc, right)?)
            }
            Expr::In(left, members, negated) => {
                Expr::In(
                    copy_boxed(alloc, left)?,
                    copy_each(alloc, members)?,
                    *negated,
                )
            }
        })
    }
}

#[cycle(copies)]
fn copy_boxed(alloc: Global, expr: &Boxed<Expr>) -> Result<Boxed<Expr>, Memory>
    ensures { IfOk result (λ boxed. boxed ≡ expr.now) }
{
    Boxed::new(alloc, expr.get().copy(alloc)?)
}

#[cycle(copies)]
fn copy_each(alloc: Global, exprs: &Items<Expr>) -> Result<Items<Expr>, Memory>
    ensures { IfOk result (λ items. items ≡ exprs.now) }
{
    let mut copies = Items::new(alloc);
    for expr in exprs.as_slice() {
        copies.push(expr.copy(alloc)?)?;
    }
    Ok(copies)
}
