// Tables as CREATE TABLE texts define them.
ghost use Rattle.std.specs.Prelude.{◌≡◌, true};
ghost use Rattle.typing_parts.specs.Narrow.{AreFewAndNarrow};

use crate::reading::read;
use cell_base::{Items, Memory, SqlFault};
use held_values::kept;
use sql_statements::ParseFault;
use sql_tree::{Statement, Table};
use std::alloc::Global;
use table_schema::build;

/// The table of the one CREATE TABLE of a text.
fn built(alloc: Global, found: &[Statement]) -> Result<Table, SqlFault> {
    match found {
        [Statement::Create(create)] => build(alloc, create),
        _ => Err(SqlFault::Memory),
    }
}

fn built_of(
    alloc: Global,
    reading: Result<Items<Statement>, ParseFault>,
) -> Result<Table, SqlFault> {
    match reading {
        Ok(found) => built(alloc, found.as_slice()),
        Err(_) => Err(SqlFault::Memory),
    }
}

fn push_table(tables: &mut Items<Table>, table: Result<Table, SqlFault>) -> Result<(), Memory> {
    match table {
        Ok(table) => tables.push(table),
        Err(_) => Err(Memory),
    }
}

fn push_tables(tables: &mut Items<Table>, alloc: Global, texts: &[&str]) -> Result<(), Memory> {
    for spelled in texts {
        push_table(tables, built_of(alloc, read(alloc, spelled)))?;
    }
    Ok(())
}

/// The tables of texts of one CREATE TABLE each, in the order of their numbers, from 0.
pub fn tables_of(alloc: Global, texts: &[&str]) -> Result<Items<Table>, Memory> {
    let mut tables = Items::new(alloc);
    let pushed = push_tables(&mut tables, alloc, texts);
    kept(tables, pushed)
}

/// Whether statements over the tables may be typed: there are at most 64, each with at most 32 columns.
pub fn are_narrow(tables: &[Table]) -> bool
    ensures { result ≡ true → AreFewAndNarrow tables.now }
{
    for table in tables {
        if table.columns.len() > 32 {
            return false;
        }
    }
    tables.len() <= 64
}
