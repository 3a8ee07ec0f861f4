// The columns that UPDATE and DELETE read.
ghost use Rattle.std.specs.Prelude.{◌≡◌, ◌<◌, ◌^◌, ◌&&◌, false, get_or, length, IfOk, OnOk};
ghost use Rattle.std.specs.List.{list_any};
ghost use Rattle.std.specs.Option.{option_map};
ghost use Rattle.typing_rules.specs.Changes as changes;
ghost use Rattle.typing_rules.specs.Mentions.{columns_where, in_filter, mentions};
ghost use Rattle.typing_parts.specs.Marked.{IsMarked};
ghost use Rattle.change_typing.specs.Reads.{AreWithin};

use cell_base::{Items, Memory};
use sql_tree::{Table, TypedExpr};
use std::alloc::Global;
use typing_parts::Marks;

/// The columns that a DELETE reads: those that WHERE mentions.
pub fn delete_reads(
    alloc: Global,
    table: &Table,
    filter: Option<&TypedExpr>,
) -> Result<Items<u32>, Memory>
    requires { length table.now.columns < 2 ^ 32 }
    ensures { IfOk result (λ columns.
        columns ≡ columns_where table.now (λ c. in_filter 0 c (option_map (λ f. f.now) filter.entry))) }
{
    let mut marks = Marks::new(alloc, table.columns.len())?;
    mark_filter(filter, &mut marks);
    marks.columns(alloc, table.key)
}

/// The columns that an UPDATE reads: those that a right side, WHERE, or a CHECK over an assigned column mentions.
pub fn update_reads(
    alloc: Global,
    table: &Table,
    set: &[(u32, TypedExpr)],
    filter: Option<&TypedExpr>,
) -> Result<Items<u32>, Memory>
    requires narrow { length table.now.columns < 2 ^ 32 }
    requires within { AreWithin (length table.now.columns) set.now }
    ensures { IfOk result (λ columns.
        columns ≡ columns_where table.now (changes.update_reads table.now set.now (option_map (λ f. f.now) filter.entry))) }
{
    let mut marks = Marks::new(alloc, table.columns.len())?;
    mark_values(set, &mut marks);
    mark_filter(filter, &mut marks);
    mark_checks(alloc, table, set, &mut marks)?;
    marks.columns(alloc, table.key)
}

fn mark_filter(filter: Option<&TypedExpr>, marks: &mut Marks)
    ensures { IsMarked marks.old marks.new (λ c. in_filter 0 c (option_map (λ f. f.now) filter.entry)) }
{
    if let Some(expr) = filter {
        marks.add(expr, 0);
    }
}

fn mark_values(set: &[(u32, TypedExpr)], marks: &mut Marks)
    ensures { IsMarked marks.old marks.new (λ c. list_any (λ a. mentions 0 c a.1) set.now) }
{
    for (_, expr) in set {
        marks.add(expr, 0);
    }
}

/// Marks the columns of the CHECKs that mention an assigned column.
fn mark_checks(
    alloc: Global,
    table: &Table,
    set: &[(u32, TypedExpr)],
    marks: &mut Marks,
) -> Result<(), Memory>
    requires { AreWithin (length table.now.columns) set.now }
    ensures { OnOk result (IsMarked marks.old marks.new
        (λ c. list_any (λ check. mentions 0 c check && list_any (λ a. mentions 0 a.0 check) set.now) table.now.checks)) }
{
    for check in table.checks.as_slice() {
        if mentions_any(alloc, check, table.columns.len(), set)? {
            marks.add(check, 0);
        }
    }
    Ok(())
}

/// Whether the expression mentions an assigned column of a table of so many.
fn mentions_any(
    alloc: Global,
    expr: &TypedExpr,
    columns: usize,
    set: &[(u32, TypedExpr)],
) -> Result<bool, Memory>
    requires { AreWithin columns set.now }
    ensures { IfOk result (λ is. is ≡ list_any (λ a. mentions 0 a.0 expr.now) set.now) }
{
    let mut marks = Marks::new(alloc, columns)?;
    marks.add(expr, 0);
    Ok(has_any(&marks, set))
}

fn has_any(marks: &Marks, set: &[(u32, TypedExpr)]) -> bool
    ensures { result ≡ list_any (λ a. get_or marks.now a.0 false) set.now }
{
    for (column, _) in set {
        if marks.has(*column) {
            return true;
        }
    }
    false
}
