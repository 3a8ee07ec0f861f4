// The change that an UPDATE makes to a row.
ghost use Rattle.std.specs.Prelude.{◌≡◌, map};
ghost use Rattle.row_meaning.specs.Changes as changes;
ghost use Rattle.row_writes.specs.Seen.{GivesChange};

use crate::RowChange;
use crate::assigned::{assignments, copy_row, fields_of, has_missing, with_values};
use crate::storing::checked_some;
use cell_base::{Items, Key, SqlFault, SqlState, Value};
use sql_tree::{Table, TypedExpr};
use std::alloc::Global;

/// The change of a row: the assignments, NOT NULL of the assigned columns, and these CHECKs, which mention one.
pub fn updated(
    alloc: Global,
    table: &Table,
    set: &[(u32, TypedExpr)],
    checks: &[&TypedExpr],
    row: &(Key, Items<Value>),
) -> Result<RowChange, SqlFault>
    requires { map (λ c. c.now) checks.now ≡ changes.checks_on set.now (table.now).checks }
    ensures { GivesChange result (changes.updated table.now set.now row.now) }
{
    let (key, old) = row;
    let columns = table.columns.as_slice();
    let values = assignments(alloc, columns, set, old.as_slice())?;
    let new = with_values(copy_row(alloc, old.as_slice())?, values);
    if has_missing(columns, set, new.as_slice()) {
        return Err(SqlFault::State(SqlState::S23502));
    }
    checked_some(checks, new.as_slice())?;
    Ok(RowChange {
        key: key.copy(alloc)?,
        fields: fields_of(alloc, set, new)?,
    })
}
