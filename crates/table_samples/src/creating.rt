// The table, made part by part. A part that is held over a step that may fail costs much to check, so it is handed on whole.
ghost use Rattle.std.specs.Prelude.{◌≡◌, [], ◌∷◌, ◌++◌, true, false, codes, IfOk, OnOk};
ghost use Rattle.sound_table.specs.Example.{two_columns};
ghost use Rattle.sound_table.specs.Sound.{IsSound};
ghost use Rattle.table_samples.specs.Columns.{integers};

use cell_base::{Items, Memory, SqlType, Text, Value};
use held_values::{beside, kept};
use sql_tree::{Column, Table};
use std::alloc::Global;

/// The table of `CREATE TABLE t (k bigint PRIMARY KEY, v bigint)`.
#[tactic(auto, using(sound_table::proofs::Example::sound))]
pub fn table(alloc: Global) -> Result<Table, Memory>
    ensures value { IfOk result (λ table. table ≡ two_columns) }
    ensures sound { IfOk result IsSound }
{
    let columns = columns(alloc)?;
    let (columns, name) = beside(columns, text(alloc, b"t"))?;
    Ok(Table {
        name,
        columns,
        key: 0,
        checks: Items::new(alloc),
    })
}

fn columns(alloc: Global) -> Result<Items<Column>, Memory>
    ensures { IfOk result (λ columns. columns ≡ integers (codes "k") true ∷ integers (codes "v") false ∷ []) }
{
    let mut columns = Items::new(alloc);
    let added = add_columns(alloc, &mut columns);
    let columns = kept(columns, added)?;
    Ok(columns)
}

fn add_columns(alloc: Global, columns: &mut Items<Column>) -> Result<(), Memory>
    requires { columns.old ≡ [] }
    ensures { OnOk result (columns.new ≡ integers (codes "k") true ∷ integers (codes "v") false ∷ []) }
{
    add_column(alloc, columns, b"k", true)?;
    add_column(alloc, columns, b"v", false)?;
    Ok(())
}

/// Adds a column of integers.
fn add_column(
    alloc: Global,
    columns: &mut Items<Column>,
    bytes: &[u8],
    not_null: bool,
) -> Result<(), Memory>
    ensures { OnOk result (columns.new ≡ columns.old ++ integers bytes.now not_null ∷ []) }
{
    let name = text(alloc, bytes)?;
    columns.push(column(name, not_null))?;
    Ok(())
}

fn column(name: Text, not_null: bool) -> Column
    ensures { result ≡ integers name not_null }
{
    Column {
        name,
        kind: SqlType::Bigint,
        not_null,
        default: Value::Null,
    }
}

fn text(alloc: Global, bytes: &[u8]) -> Result<Text, Memory>
    ensures { IfOk result (λ text. text ≡ bytes.now) }
{
    match Text::from_bytes(alloc, bytes) {
        Ok(text) => Ok(text),
        Err(_) => Err(Memory),
    }
}
