// An expression that is assigned to a column.
ghost use Rattle.std.specs.Prelude.{◌≡◌, IfOk};
ghost use Rattle.typing_rules.specs.Given as spec;
ghost use Rattle.typing_rules.specs.Gives.{Gives};
ghost use Rattle.expr_typing.specs.Scope.{IsNarrow, sources};
ghost use Rattle.change_typing.specs.Rows as rows;

use cell_base::{Memory, SqlFault};
use expr_typing::{Entry, typed_value};
use sql_tree::{Column, Expr, TypedExpr, TypedNode};
use std::alloc::Global;

/// The default of a column.
pub fn default_value(alloc: Global, column: &Column) -> Result<TypedExpr, Memory>
    ensures { IfOk result (λ value. value ≡ rows.default_value column.now) }
{
    Ok(TypedExpr {
        kind: column.kind,
        node: TypedNode::Constant(column.default.copy(alloc)?),
    })
}

/// The typed tree of an expression that is assigned to the column. A missing expression is DEFAULT.
pub fn cell(
    alloc: Global,
    column: &Column,
    expr: &Option<Expr>,
    scope: &[Entry<'_>],
) -> Result<TypedExpr, SqlFault>
    requires { IsNarrow scope.now }
    ensures { Gives (spec.cell (sources scope.now) column.now expr.now) result }
{
    match expr {
        None => Ok(default_value(alloc, column)?),
        Some(expr) => typed_value(alloc, expr, column.kind, scope),
    }
}
