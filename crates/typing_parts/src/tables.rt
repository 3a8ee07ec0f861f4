// Tables and columns by name.
ghost use Rattle.std.specs.Prelude.{◌≡◌, ◌<◌, ◌^◌, length, IfOk};
ghost use Rattle.typing_rules.specs.Tables as spec;
ghost use Rattle.typing_parts.specs.Narrow.{AreFewAndNarrow};
ghost use Rattle.typing_parts.specs.Numbered.{numbered_or, target_or};

use cell_base::{SqlState, Text};
use sql_tree::{Column, Table};

/// A table and its number, from 0.
#[derive(Clone, Copy, Debug)]
pub struct TableAt<'a> {
    pub number: u32,
    pub table: &'a Table,
}

/// A column and its number in its table, from 0.
#[derive(Clone, Copy, Debug)]
pub struct ColumnAt<'a> {
    pub number: u32,
    pub column: &'a Column,
}

/// The table of this name; `S42P01` where none has it (PostgreSQL's documentation, "PostgreSQL Error Codes").
pub fn table_named<'a>(tables: &'a [Table], name: &Text) -> Result<TableAt<'a>, SqlState>
    requires { length tables.now < 2 ^ 32 }
    ensures found { numbered_or result ≡ spec.table_named tables.now name.now }
    ensures narrow { AreFewAndNarrow tables.now → IfOk result (λ t. length t.table.now.columns < 2 ^ 32) }
{
    for (i, table) in tables.iter().enumerate() {
        if table.name.as_str() == name.as_str() {
            return Ok(TableAt {
                number: i as u32,
                table,
            });
        }
    }
    Err(SqlState::S42P01)
}

/// The column of this name; `S42703` where none has it (PostgreSQL's documentation, "PostgreSQL Error Codes").
pub fn column_named<'a>(columns: &'a [Column], name: &Text) -> Result<ColumnAt<'a>, SqlState>
    requires { length columns.now < 2 ^ 32 }
    ensures { target_or result ≡ spec.target_named columns.now name.now }
{
    for (i, column) in columns.iter().enumerate() {
        if column.name.as_str() == name.as_str() {
            return Ok(ColumnAt {
                number: i as u32,
                column,
            });
        }
    }
    Err(SqlState::S42703)
}
