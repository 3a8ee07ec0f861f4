// The conditions of JOIN.
ghost use Rattle.std.specs.Prelude.{◌≡◌, ◌≤◌, ◌++◌, [], ◌∷◌, Ok, IfOk, length, take};
ghost use Rattle.typing_rules.specs.Expressions.{flag};
ghost use Rattle.typing_rules.specs.Outcome.{and_then};
ghost use Rattle.typing_rules.specs.Select as spec;
ghost use Rattle.typing_rules.specs.Gives.{Gives};
ghost use Rattle.expr_typing.specs.Scope.{IsNarrow, sources};

use cell_base::{Items, Memory, SqlFault};
use expr_typing::{Entry, typed_flag};
use sql_tree::{Expr, TableRef, TypedExpr};
use std::alloc::Global;

/// A condition over so many entries.
fn condition(
    alloc: Global,
    expr: &Expr,
    scope: &[Entry<'_>],
    seen: usize,
) -> Result<TypedExpr, SqlFault>
    requires within { seen ≤ length scope.now }
    requires narrow { IsNarrow scope.now }
    ensures { Gives (flag (take seen (sources scope.now)) expr.now) result }
{
    typed_flag(alloc, expr, &scope[..seen])
}

fn with_condition(before: Items<TypedExpr>, last: TypedExpr) -> Result<Items<TypedExpr>, Memory>
    ensures { IfOk result (λ all. all ≡ before ++ last ∷ []) }
{
    let mut all = before;
    all.push(last)?;
    Ok(all)
}

/// The condition of an entry, where it has one, after those that stand before.
fn with_on(
    alloc: Global,
    before: Items<TypedExpr>,
    on: &Option<Expr>,
    scope: &[Entry<'_>],
    seen: usize,
) -> Result<Items<TypedExpr>, SqlFault>
    requires within { seen ≤ length scope.now }
    requires narrow { IsNarrow scope.now }
    ensures { Gives (and_then (spec.on_before (take seen (sources scope.now)) on.now (Ok [])) (λ more. Ok (before ++ more))) result }
{
    match on {
        None => Ok(before),
        Some(on) => {
            let typed = condition(alloc, on, scope, seen)?;
            Ok(with_condition(before, typed)?)
        }
    }
}

/// The conditions of JOIN, from left to right. Each sees the entries up to its own.
pub fn ons_of(
    alloc: Global,
    from: &[TableRef],
    scope: &[Entry<'_>],
) -> Result<Items<TypedExpr>, SqlFault>
    requires as_many { length scope.now ≡ length from.now }
    requires narrow { IsNarrow scope.now }
    ensures { Gives (spec.ons_of (sources scope.now) from.now) result }
{
    let mut conditions = Items::new(alloc);
    for (i, entry) in from.iter().enumerate() {
        conditions = with_on(alloc, conditions, &entry.on, scope, i + 1)?;
    }
    Ok(conditions)
}
