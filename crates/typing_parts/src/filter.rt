// WHERE.
ghost use Rattle.typing_rules.specs.Changes.{filter_of};
ghost use Rattle.typing_rules.specs.Gives.{Gives};
ghost use Rattle.expr_typing.specs.Scope.{IsNarrow, sources};
ghost use Rattle.std.specs.Option.{option_map};

use cell_base::SqlFault;
use expr_typing::{Entry, typed_flag};
use sql_tree::{Expr, TypedExpr};
use std::alloc::Global;

/// The condition of WHERE over one row of each entry, where one is written. The codes are those of [`typed_flag`]
/// (PostgreSQL's documentation, "The WHERE Clause").
pub fn typed_filter(
    alloc: Global,
    filter: Option<&Expr>,
    scope: &[Entry<'_>],
) -> Result<Option<TypedExpr>, SqlFault>
    requires { IsNarrow scope.now }
    ensures { Gives (filter_of (sources scope.now) (option_map (λ e. e.now) filter.entry)) result }
{
    match filter {
        None => Ok(None),
        Some(expr) => Ok(Some(typed_flag(alloc, expr, scope)?)),
    }
}
