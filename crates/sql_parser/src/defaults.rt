// The DEFAULT of a column.
ghost use Rattle.std.specs.Prelude.{◌≡◌, None, IfOk};
ghost use Rattle.std.specs.Option.{option_copied};
ghost use Rattle.sql_grammar.specs.Statements as st;

use cell_base::Memory;
use sql_grammar::Constraint;
use sql_tree::Expr;
use std::alloc::Global;

/// The constant of the last DEFAULT.
fn last(mut constraints: &[Constraint]) -> Option<&Expr>
    ensures { option_copied result ≡ st.default None constraints.entry.now }
{
    let mut last = None;
    while let [first, rest @ ..] = constraints {
        if let Constraint::Default(constant) = first {
            last = Some(constant);
        }
        constraints = rest;
    }
    last
}

/// A copy of the last DEFAULT.
pub fn last_default(alloc: Global, constraints: &[Constraint]) -> Result<Option<Expr>, Memory>
    ensures { IfOk result (λ last. last ≡ st.default None constraints.now) }
{
    match last(constraints) {
        Some(constant) => Ok(Some(constant.copy(alloc)?)),
        None => Ok(None),
    }
}
