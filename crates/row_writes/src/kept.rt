// The rows that WHERE keeps.
ghost use Rattle.std.specs.Prelude.{◌≡◌};
ghost use Rattle.std.specs.Option.{option_map};
ghost use Rattle.row_meaning.specs.Changes as changes;
ghost use Rattle.row_writes.specs.Seen.{GivesRows};

use crate::evaluation::is_true;
use cell_base::{Items, Key, SqlFault, SqlState, Value};
use sql_tree::TypedExpr;
use std::alloc::Global;

fn passes(filter: Option<&TypedExpr>, row: &[Value]) -> Result<bool, SqlState>
    ensures { result ≡ changes.passes (option_map (λ f. f.now) filter.entry) row.now }
{
    match filter {
        None => Ok(true),
        Some(filter) => is_true(filter, row),
    }
}

/// The rows that WHERE keeps, or its first code.
pub fn kept_rows<'a>(
    alloc: Global,
    filter: Option<&TypedExpr>,
    rows: &'a [(Key, Items<Value>)],
) -> Result<Items<&'a (Key, Items<Value>)>, SqlFault>
    ensures { GivesRows result (changes.kept_rows (option_map (λ f. f.now) filter.entry) rows.now) }
{
    let mut kept = Items::new(alloc);
    for row in rows {
        let is_kept = passes(filter, row.1.as_slice())?;
        if is_kept {
            kept.push(row)?;
        }
    }
    Ok(kept)
}
