// The columns of a table that is built.
ghost use Rattle.std.specs.Prelude.{◌≡◌, []};
ghost use Rattle.std.specs.List.{list_any};
ghost use Rattle.std.specs.Str.{bytes_eq};
ghost use Rattle.typing_rules.specs.Building as spec;
ghost use Rattle.typing_rules.specs.Gives.{Gives};
ghost use Rattle.table_schema.specs.Columns.{names};

use cell_base::{Items, SqlFault, SqlState, SqlType, Text, Value};
use expr_typing::typed_constant;
use sql_tree::{Column, ColumnDef, Expr};
use std::alloc::Global;

/// The greatest number of characters of a varchar.
const MAX_LENGTH: u32 = 65_536;

/// The columns, from left to right.
pub fn columns_of(alloc: Global, columns: &[ColumnDef]) -> Result<Items<Column>, SqlFault>
    ensures { Gives (spec.columns_from [] columns.now) result }
{
    let mut built = Items::new(alloc);
    for (i, column) in columns.iter().enumerate() {
        built.push(column_of(alloc, &columns[..i], column)?)?;
    }
    Ok(built)
}

#[tactic(auto, unfolding(typing_rules::specs::Building::column_of))]
fn column_of(alloc: Global, before: &[ColumnDef], column: &ColumnDef) -> Result<Column, SqlFault>
    ensures { Gives (spec.column_of (names before.now) column.now) result }
{
    if is_among(before, &column.name) {
        return Err(SqlFault::State(SqlState::S42701));
    }
    if !has_length(column.kind) {
        return Err(SqlFault::State(SqlState::S54000));
    }
    let default = default_of(alloc, column.kind, &column.default)?;
    Ok(Column {
        name: column.name.copy(alloc)?,
        kind: column.kind,
        not_null: column.not_null,
        default,
    })
}

/// Whether a column has the name.
fn is_among(columns: &[ColumnDef], name: &Text) -> bool
    ensures { result ≡ list_any (λ other. bytes_eq other name.now) (names columns.now) }
{
    for column in columns {
        if column.name.as_str() == name.as_str() {
            return true;
        }
    }
    false
}

fn has_length(kind: SqlType) -> bool
    ensures { result ≡ spec.has_length kind }
{
    match kind {
        SqlType::Varchar(limit) => limit <= MAX_LENGTH,
        _ => true,
    }
}

fn default_of(alloc: Global, kind: SqlType, default: &Option<Expr>) -> Result<Value, SqlFault>
    ensures { Gives (spec.default_of kind default.now) result }
{
    match default {
        Some(expr) => typed_constant(alloc, expr, kind),
        None => Ok(Value::Null),
    }
}
