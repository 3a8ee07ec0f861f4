// The columns of each entry's table that a SELECT mentions.
ghost use Rattle.std.specs.Prelude.{◌≡◌, ◌<◌, ◌^◌, ◌==◌, ◌&&◌, Bool, IfOk, length, map};
ghost use Rattle.std.specs.List.{list_any};
ghost use Rattle.sql_tree.specs.declared.typed_expr.TypedExpr.{TypedExpr};
ghost use Rattle.typing_rules.specs.Mentions.{mentions};
ghost use Rattle.typing_rules.specs.Select as spec;
ghost use Rattle.expr_typing.specs.Scope.{IsNarrow};
ghost use Rattle.typing_parts.specs.Marked.{IsMarked};
ghost use Rattle.select_typing.specs.Entries as shown;
ghost use Rattle.select_typing.specs.Read.{exprs};

use crate::from::FromEntry;
use cell_base::{Items, Memory};
use sql_tree::TypedExpr;
use std::alloc::Global;
use typing_parts::Marks;

/// The expressions that a SELECT reads.
#[derive(Clone, Copy, Debug)]
pub struct Read<'a> {
    /// The conditions of JOIN and WHERE.
    pub conditions: &'a [TypedExpr],
    pub items: &'a [TypedExpr],
    pub order: &'a [(TypedExpr, bool)],
}

/// Marks the columns of an entry that stand in the expression, where the entry is of the table of this number.
fn mark_entry(marks: &mut Marks, number: u32, entry: &FromEntry<'_>, at: u32, expr: &TypedExpr)
    ensures { IsMarked marks.old marks.new (λ c. (entry.now.found.number == number) && mentions at c expr.now) }
{
    if entry.found.number == number {
        marks.add(expr, at);
    }
}

/// Marks the columns of the table of this number that stand in the expression, in whichever of its entries.
fn mark_expr(marks: &mut Marks, number: u32, entries: &[FromEntry<'_>], expr: &TypedExpr)
    requires { length entries.now < 2 ^ 32 }
    ensures { IsMarked marks.old marks.new (λ c. spec.mentions_table number c 0 (shown.entries entries.now) expr.now) }
{
    for (at, entry) in entries.iter().enumerate() {
        mark_entry(marks, number, entry, at as u32, expr);
    }
}

fn mark_exprs(marks: &mut Marks, number: u32, entries: &[FromEntry<'_>], exprs: &[TypedExpr])
    requires { length entries.now < 2 ^ 32 }
    ensures { IsMarked marks.old marks.new (λ c. list_any (spec.mentions_table number c 0 (shown.entries entries.now)) exprs.now) }
{
    for expr in exprs {
        mark_expr(marks, number, entries, expr);
    }
}

fn mark_terms(
    marks: &mut Marks,
    number: u32,
    entries: &[FromEntry<'_>],
    terms: &[(TypedExpr, bool)],
)
    requires { length entries.now < 2 ^ 32 }
    ensures { IsMarked marks.old marks.new
        (λ c. list_any (λ (t : TypedExpr × Bool). spec.mentions_table number c 0 (shown.entries entries.now) t.0) terms.now) }
{
    for (expr, _) in terms {
        mark_expr(marks, number, entries, expr);
    }
}

fn mark_read(marks: &mut Marks, number: u32, entries: &[FromEntry<'_>], read: &Read<'_>)
    requires { length entries.now < 2 ^ 32 }
    ensures { IsMarked marks.old marks.new (λ c. list_any (spec.mentions_table number c 0 (shown.entries entries.now)) (exprs read.now)) }
{
    mark_exprs(marks, number, entries, read.conditions);
    mark_exprs(marks, number, entries, read.items);
    mark_terms(marks, number, entries, read.order);
}

fn mentioned_of(
    alloc: Global,
    entry: &FromEntry<'_>,
    entries: &[FromEntry<'_>],
    read: &Read<'_>,
) -> Result<Items<u32>, Memory>
    requires few { length entries.now < 2 ^ 32 }
    requires narrow { length entry.now.found.table.now.columns < 2 ^ 32 }
    ensures { IfOk result (λ columns. columns ≡ spec.mentioned_of (shown.entries entries.now) (exprs read.now) (shown.entry entry.now)) }
{
    let table = entry.found.table;
    let mut marks = Marks::new(alloc, table.columns.len())?;
    mark_read(&mut marks, entry.found.number, entries, read);
    marks.columns(alloc, table.key)
}

/// For each entry the columns of its table that the SELECT mentions, but for the key, ascending.
pub fn mentioned(
    alloc: Global,
    entries: &[FromEntry<'_>],
    read: &Read<'_>,
) -> Result<Items<Items<u32>>, Memory>
    requires { IsNarrow (map shown.seen entries.now) }
    ensures { IfOk result (λ all. all ≡ map (spec.mentioned_of (shown.entries entries.now) (exprs read.now)) (shown.entries entries.now)) }
{
    let mut all = Items::new(alloc);
    for entry in entries {
        all.push(mentioned_of(alloc, entry, entries, read)?)?;
    }
    Ok(all)
}
