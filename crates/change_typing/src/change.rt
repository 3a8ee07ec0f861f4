// The types of UPDATE and DELETE.
ghost use Rattle.std.specs.Prelude.{◌≡◌, ◌<◌, ◌^◌, length, IfOk};
ghost use Rattle.std.specs.Option.{option_map};
ghost use Rattle.typing_rules.specs.Changes as spec;
ghost use Rattle.typing_rules.specs.Mentions.{columns_where, in_filter};
ghost use Rattle.typing_rules.specs.Points as points;
ghost use Rattle.typing_rules.specs.Gives.{Gives};
ghost use Rattle.expr_typing.specs.Scope.{IsNarrow, sources};
ghost use Rattle.typing_parts.specs.Narrow.{AreFewAndNarrow};
ghost use Rattle.change_typing.specs.Reads.{AreWithin};
ghost use Rattle.change_typing.specs.Targets.{assigned_values, targets};

use crate::cell::cell;
use crate::kept::beside;
use crate::reads::{delete_reads, update_reads};
use crate::targets::assigned_columns;
use cell_base::{Items, Key, Memory, SqlFault, Text};
use expr_typing::Entry;
use sql_tree::{Delete, Expr, Table, TypedChange, TypedExpr, Update};
use std::alloc::Global;
use typing_parts::{ColumnAt, point_of, table_named, typed_filter};

/// The right sides of SET, each for its column.
fn set_values(
    alloc: Global,
    columns: &[ColumnAt<'_>],
    set: &[(Text, Option<Expr>)],
    scope: &[Entry<'_>],
) -> Result<Items<(u32, TypedExpr)>, SqlFault>
    requires { IsNarrow scope.now }
    ensures { Gives (spec.set_values (sources scope.now) (targets columns.now) set.now) result }
{
    let mut values = Items::new(alloc);
    for (at, assignment) in columns.iter().zip(set) {
        let value = cell(alloc, at.column, &assignment.1, scope)?;
        values.push((at.number, value))?;
    }
    Ok(values)
}

/// The assigned columns, each with its right side, in text order.
fn assigned(
    alloc: Global,
    table: &Table,
    set: &[(Text, Option<Expr>)],
) -> Result<Items<(u32, TypedExpr)>, SqlFault>
    requires { length table.now.columns < 2 ^ 32 }
    ensures exact { Gives (assigned_values table.now set.now) result }
    ensures within { IfOk result (λ values. AreWithin (length table.now.columns) values) }
{
    let columns = assigned_columns(alloc, table, set)?;
    let scope = [Entry {
        name: &table.name,
        table,
    }];
    set_values(alloc, columns.as_slice(), set, &scope)
}

/// WHERE over the rows of the table.
fn filter_over(
    alloc: Global,
    table: &Table,
    filter: Option<&Expr>,
) -> Result<Option<TypedExpr>, SqlFault>
    requires { length table.now.columns < 2 ^ 32 }
    ensures { Gives (spec.filter_of (spec.own_source table.now) (option_map (λ e. e.now) filter.entry)) result }
{
    let scope = [Entry {
        name: &table.name,
        table,
    }];
    typed_filter(alloc, filter, &scope)
}

/// The key at which an UPDATE reads its table, and the columns that it reads.
fn read_by_update(
    alloc: Global,
    table: &Table,
    set: &[(u32, TypedExpr)],
    filter: Option<&TypedExpr>,
) -> Result<(Option<Key>, Items<u32>), Memory>
    requires narrow { length table.now.columns < 2 ^ 32 }
    requires within { AreWithin (length table.now.columns) set.now }
    ensures point { IfOk result (λ read. read.0 ≡ points.point_of 0 table.now.key (option_map (λ f. f.now) filter.entry)) }
    ensures columns { IfOk result (λ read.
        read.1 ≡ columns_where table.now (spec.update_reads table.now set.now (option_map (λ f. f.now) filter.entry))) }
{
    let point = point_of(alloc, filter, 0, table.key)?;
    beside(point, update_reads(alloc, table, set, filter))
}

/// The key at which a DELETE reads its table, and the columns that it reads.
fn read_by_delete(
    alloc: Global,
    table: &Table,
    filter: Option<&TypedExpr>,
) -> Result<(Option<Key>, Items<u32>), Memory>
    requires { length table.now.columns < 2 ^ 32 }
    ensures point { IfOk result (λ read. read.0 ≡ points.point_of 0 table.now.key (option_map (λ f. f.now) filter.entry)) }
    ensures columns { IfOk result (λ read.
        read.1 ≡ columns_where table.now (λ c. in_filter 0 c (option_map (λ f. f.now) filter.entry))) }
{
    let point = point_of(alloc, filter, 0, table.key)?;
    beside(point, delete_reads(alloc, table, filter))
}

/// The typed tree of an UPDATE.
///
/// The code that comes first answers: a table that isn't there (`S42P01`); then an assigned column that isn't there
/// (`S42703`), is assigned twice (`S42601`) or is the key (`S0A000`); then what the conversion of each right side to its
/// column's type gives; then what WHERE gives (PostgreSQL's documentation, "UPDATE").
#[tactic(auto, unfolding(typing_rules::specs::Changes::typed_update))]
pub fn typed_update(
    alloc: Global,
    update: &Update,
    tables: &[Table],
) -> Result<TypedChange, SqlFault>
    requires { AreFewAndNarrow tables.now }
    ensures { Gives (spec.typed_update tables.now update.now) result }
{
    let found = table_named(tables, &update.table)?;
    let set = assigned(alloc, found.table, update.set.as_slice())?;
    let filter = filter_over(alloc, found.table, update.filter.as_ref());
    let (set, filter) = beside(set, filter)?;
    let read = read_by_update(alloc, found.table, set.as_slice(), filter.as_ref());
    let ((set, filter), (point, mentioned)) = beside((set, filter), read)?;
    Ok(TypedChange {
        table: found.number,
        point,
        mentioned,
        filter,
        set,
        delete: false,
    })
}

/// The typed tree of a DELETE. A table that isn't there is `S42P01`; then comes what WHERE gives (PostgreSQL's documentation,
/// "DELETE").
#[tactic(auto, unfolding(typing_rules::specs::Changes::typed_delete))]
pub fn typed_delete(
    alloc: Global,
    delete: &Delete,
    tables: &[Table],
) -> Result<TypedChange, SqlFault>
    requires { AreFewAndNarrow tables.now }
    ensures { Gives (spec.typed_delete tables.now delete.now) result }
{
    let found = table_named(tables, &delete.table)?;
    let filter = filter_over(alloc, found.table, delete.filter.as_ref())?;
    let read = read_by_delete(alloc, found.table, filter.as_ref());
    let (filter, (point, mentioned)) = beside(filter, read)?;
    Ok(TypedChange {
        table: found.number,
        point,
        mentioned,
        filter,
        set: Items::new(alloc),
        delete: true,
    })
}
