// The types of INSERT.
ghost use Rattle.std.specs.Prelude.{◌<◌, ◌^◌, length, map};
ghost use Rattle.typing_rules.specs.Insert as spec;
ghost use Rattle.typing_rules.specs.Outcome.{all_of};
ghost use Rattle.typing_rules.specs.Gives.{Gives};
ghost use Rattle.typing_parts.specs.Narrow.{AreFewAndNarrow};
ghost use Rattle.change_typing.specs.Targets.{AreColumns, targets};

use crate::lengths::has_lengths;
use crate::row::typed_rows;
use crate::targets::{all_columns, listed_columns};
use cell_base::{Items, SqlFault, SqlState};
use sql_tree::{Expr, Insert, Table, TypedExpr, TypedInsert};
use std::alloc::Global;
use typing_parts::{ColumnAt, table_named};

/// The typed tree of an INSERT: for each row one expression for each column of the table, in order of declaration.
///
/// The code that comes first answers: a table that isn't there (`S42P01`); then a listed column that isn't there (`S42703`)
/// or stands twice (`S42701`); then a row with another number of values than the list or the first row, or with more than
/// the table has columns (`S42601`); then what the conversion of each expression to its column's type gives, row by row
/// (PostgreSQL's documentation, "INSERT").
#[tactic(auto, unfolding(typing_rules::specs::Insert::typed_insert))]
pub fn typed_insert(
    alloc: Global,
    insert: &Insert,
    tables: &[Table],
) -> Result<TypedInsert, SqlFault>
    requires { AreFewAndNarrow tables.now }
    ensures { Gives (spec.typed_insert tables.now insert.now) result }
{
    let found = table_named(tables, &insert.table)?;
    let columns = found.table.columns.as_slice();
    let listed = listed_columns(alloc, columns, insert.columns.as_slice())?;
    let rows = insert.rows.as_slice();
    if !has_lengths(found.table, listed.as_slice(), rows) {
        return Err(SqlFault::State(SqlState::S42601));
    }
    Ok(TypedInsert {
        table: found.number,
        rows: rows_of(alloc, found.table, listed.as_slice(), rows)?,
    })
}

/// One expression for each column in each row. Without a written list values go to the columns in order of declaration.
fn rows_of(
    alloc: Global,
    table: &Table,
    listed: &[ColumnAt<'_>],
    rows: &[Items<Option<Expr>>],
) -> Result<Items<Items<TypedExpr>>, SqlFault>
    requires narrow { length table.now.columns < 2 ^ 32 }
    requires columns { AreColumns (length table.now.columns) (targets listed.now) }
    ensures { Gives (all_of (map (spec.typed_row table.now (targets listed.now)) rows.now)) result }
{
    let columns = table.columns.as_slice();
    match listed {
        [] => {
            let all = all_columns(alloc, columns)?;
            typed_rows(alloc, columns, all.as_slice(), rows)
        }
        [_, ..] => typed_rows(alloc, columns, listed, rows),
    }
}
