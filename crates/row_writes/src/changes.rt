// The changes that an UPDATE or a DELETE makes.
ghost use Rattle.std.specs.Prelude.{◌≡◌, map};
ghost use Rattle.typing_rules.specs.Outcome.{all_of};
ghost use Rattle.row_meaning.specs.Changes as spec;
ghost use Rattle.row_writes.specs.Seen.{rows_seen, GivesChange, GivesChanges};

use crate::kept::kept_rows;
use crate::mentions::checks_on;
use crate::update::updated;
use cell_base::{Items, Key, SqlFault, Value};
use sql_tree::{Table, TypedChange, TypedExpr};
use std::alloc::Global;

/// A row that is changed: its key, and the columns that are written, by number, ascending; a row that is deleted has none.
#[derive(Debug, Drop)]
pub struct RowChange {
    pub key: Key,
    pub fields: Items<(u32, Value)>,
}

fn change_of(
    alloc: Global,
    table: &Table,
    change: &TypedChange,
    checks: &[&TypedExpr],
    row: &(Key, Items<Value>),
) -> Result<RowChange, SqlFault>
    requires { map (λ c. c.now) checks.now ≡ spec.checks_on (change.now).set (table.now).checks }
    ensures { GivesChange result (spec.change_of table.now change.now row.now) }
{
    if change.delete {
        Ok(RowChange {
            key: row.0.copy(alloc)?,
            fields: Items::new(alloc),
        })
    } else {
        updated(alloc, table, change.set.as_slice(), checks, row)
    }
}

/// The changes of rows, in order.
fn change_each(
    alloc: Global,
    table: &Table,
    change: &TypedChange,
    checks: &[&TypedExpr],
    rows: &[&(Key, Items<Value>)],
) -> Result<Items<RowChange>, SqlFault>
    requires { map (λ c. c.now) checks.now ≡ spec.checks_on (change.now).set (table.now).checks }
    ensures { GivesChanges result (all_of (map (spec.change_of table.now change.now) (rows_seen rows.now))) }
{
    let mut changes = Items::new(alloc);
    for row in rows {
        let made = change_of(alloc, table, change, checks, row)?;
        changes.push(made)?;
    }
    Ok(changes)
}

/// The changes of the rows that WHERE keeps, keys ascending where the rows stand so.
///
/// WHERE is evaluated for all rows first. Then, row by row: what the assignments give, in text order; `S23502` where an
/// assigned column that is never null is null, `S23514` where a CHECK that mentions an assigned column is false
/// (PostgreSQL's documentation, "UPDATE" and "DELETE").
#[tactic(auto, unfolding(row_meaning::specs::Changes::changes_of))]
pub fn changes_of(
    alloc: Global,
    table: &Table,
    change: &TypedChange,
    rows: &[(Key, Items<Value>)],
) -> Result<Items<RowChange>, SqlFault>
    ensures { GivesChanges result (spec.changes_of table.now change.now rows.now) }
{
    let kept = kept_rows(alloc, change.filter.as_ref(), rows)?;
    let checks = checks_on(alloc, change.set.as_slice(), table.checks.as_slice())?;
    change_each(alloc, table, change, checks.as_slice(), kept.as_slice())
}
