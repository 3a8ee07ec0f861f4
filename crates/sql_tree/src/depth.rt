// How deep an expression is.
ghost use Rattle.std.specs.Prelude.{◌≡◌, ◌<◌, ◌^◌, min};
ghost use Rattle.sql_tree.specs.Depth.{depth, greatest_depth};

use crate::Expr;

impl Expr {
    /// 1 for a node without operands, and else 1 more than the greatest depth of its operands.
    pub fn depth(&self) -> u32
        requires { depth self.now < 2 ^ 32 }
        ensures { result ≡ depth self.now }
    {
        height(self)
    }
}

/// The depth, or the greatest number where that is less.
#[cycle(depth)]
fn height(expr: &Expr) -> u32
    ensures { result ≡ min (depth expr.now) 0xffff_ffff }
{
    match expr {
        Expr::Int(_) | Expr::Str(_) | Expr::Flag(_) | Expr::Null | Expr::Column(_, _) => 1,
        Expr::Call(_, None) => 1,
        Expr::Call(_, Some(operand)) => height(operand.get()).saturating_add(1),
        Expr::Neg(operand) => height(operand.get()).saturating_add(1),
        Expr::Not(operand) => height(operand.get()).saturating_add(1),
        Expr::IsNull(operand, _) => height(operand.get()).saturating_add(1),
        Expr::Binary(_, left, right) => height(left.get())
            .max(height(right.get()))
            .saturating_add(1),
        Expr::In(left, members, _) => height(left.get())
            .max(greatest(members.as_slice()))
            .saturating_add(1),
    }
}

#[cycle(depth)]
fn greatest(exprs: &[Expr]) -> u32
    ensures { result ≡ min (greatest_depth exprs.now) 0xffff_ffff }
{
    let mut most = 0;
    for expr in exprs {
        most = height(expr).max(most);
    }
    most
}
