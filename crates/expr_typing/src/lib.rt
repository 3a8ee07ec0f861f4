//! The types of expressions: the typed tree, or the code that comes first.
#![tactic(auto)]

ghost use Rattle.std.specs.Prelude.{IfOk};
ghost use Rattle.typing_rules.specs.Expressions.{flag};
ghost use Rattle.typing_rules.specs.Sound.{IsCondition, column_types};
ghost use Rattle.typing_rules.specs.Gives.{Gives};
ghost use Rattle.expr_typing.specs.Scope.{IsNarrow, sources};

mod calls;
mod combine;
mod constant;
mod entry;
mod expression;
mod kept;
mod literal;
mod names;
mod operands;
mod operators;
mod value;

use crate::expression::form;
use crate::operands::condition;
use cell_base::SqlFault;
pub use constant::typed_constant;
pub use entry::Entry;
pub use operators::aggregate_named;
use sql_tree::{Expr, TypedExpr};
use std::alloc::Global;
use typing_rules::Place;
pub use value::{typed_item, typed_value};

/// The typed tree of a condition over one row of each entry. One of another type than boolean is 42804, a quoted literal 0A000,
/// an aggregate 42803, a name 42703, 42702 or 42P01 where it stands for no column, for two, or its qualifier for no entry.
/// The other codes are those of operands: 42883, 22P02 and 22003. The one that comes first from left to right, operands before
/// their node, is answered (PostgreSQL's documentation, "Value Expressions" and "Type Conversion").
#[tactic(auto, unfolding(typing_rules::specs::Expressions::flag))]
pub fn typed_flag(alloc: Global, expr: &Expr, scope: &[Entry<'_>]) -> Result<TypedExpr, SqlFault>
    requires { IsNarrow scope.now }
    ensures typed { Gives (flag (sources scope.now) expr.now) result }
    ensures sound { IfOk result (λ expr. IsCondition (column_types (sources scope.now)) expr) }
{
    Ok(condition(form(alloc, expr, scope, Place::Row)?)?)
}
