// The columns that a statement gives values to.
ghost use Rattle.std.specs.Prelude.{◌≡◌, ◌<◌, ◌^◌, [], length, IfOk};
ghost use Rattle.typing_rules.specs.Changes.{assigned_from};
ghost use Rattle.typing_rules.specs.Insert.{listed_from};
ghost use Rattle.typing_rules.specs.Tables as spec;
ghost use Rattle.change_typing.specs.Targets.{Finds, assigned_target, targets};
ghost use Rattle.typing_parts.specs.Numbered.{target_or};

use cell_base::{Items, Memory, SqlFault, SqlState, Text};
use sql_tree::{Column, Expr, Table};
use std::alloc::Global;
use typing_parts::{ColumnAt, column_named};

fn is_among(number: u32, columns: &[ColumnAt<'_>]) -> bool
    ensures { result ≡ spec.is_among number (targets columns.now) }
{
    for column in columns {
        if column.number == number {
            return true;
        }
    }
    false
}

/// The columns of a written list: `S42703` where no column has a name, `S42701` where one stands twice.
pub fn listed_columns<'a>(
    alloc: Global,
    columns: &'a [Column],
    names: &[Text],
) -> Result<Items<ColumnAt<'a>>, SqlFault>
    requires { length columns.now < 2 ^ 32 }
    ensures { Finds (listed_from columns.now [] names.now) result }
{
    let mut listed = Items::new(alloc);
    for name in names {
        let column = column_named(columns, name)?;
        if is_among(column.number, listed.as_slice()) {
            return Err(SqlFault::State(SqlState::S42701));
        }
        listed.push(column)?;
    }
    Ok(listed)
}

/// All columns of a table, in order of declaration.
pub fn all_columns<'a>(alloc: Global, columns: &'a [Column]) -> Result<Items<ColumnAt<'a>>, Memory>
    requires { length columns.now < 2 ^ 32 }
    ensures { IfOk result (λ all. targets all ≡ spec.all_targets columns.now) }
{
    let mut all = Items::new(alloc);
    for (i, column) in columns.iter().enumerate() {
        all.push(ColumnAt {
            number: i as u32,
            column,
        })?;
    }
    Ok(all)
}

/// The column of an assignment after others: `S42703` where no column has the name, `S42601` where it is assigned before,
/// `S0A000` where it is the key.
fn assigned_column<'a>(
    table: &'a Table,
    before: &[ColumnAt<'a>],
    name: &Text,
) -> Result<ColumnAt<'a>, SqlState>
    requires { length table.now.columns < 2 ^ 32 }
    ensures { target_or result ≡ assigned_target table.now (targets before.now) name.now }
{
    let column = column_named(table.columns.as_slice(), name)?;
    if is_among(column.number, before) {
        Err(SqlState::S42601)
    } else if column.number == table.key {
        Err(SqlState::S0A000)
    } else {
        Ok(column)
    }
}

/// The assigned columns, in text order.
pub fn assigned_columns<'a>(
    alloc: Global,
    table: &'a Table,
    set: &[(Text, Option<Expr>)],
) -> Result<Items<ColumnAt<'a>>, SqlFault>
    requires { length table.now.columns < 2 ^ 32 }
    ensures { Finds (assigned_from table.now [] set.now) result }
{
    let mut assigned = Items::new(alloc);
    for (name, _) in set {
        let column = assigned_column(table, assigned.as_slice(), name)?;
        assigned.push(column)?;
    }
    Ok(assigned)
}
