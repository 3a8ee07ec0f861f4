// The cells that are written.
ghost use Rattle.std.specs.Prelude.{◌≡◌, ◌<◌, ◌^◌, true, [], ◌∷◌, ◌++◌, length, IfOk, OnOk};
ghost use Rattle.statement_course.specs.Writing as spec;
ghost use Rattle.row_writes.specs.Seen.{changes_seen};
ghost use Rattle.row_writes.specs.Widths.{AreWithin};

use crate::RowChange;
use cell_base::{Cell, Items, Key, Memory, Value};
use sql_tree::Table;
use std::alloc::Global;

/// One more field of a row.
fn push_field(
    alloc: Global,
    writes: &mut Items<(Cell, Value)>,
    number: u32,
    key: &Key,
    column: u32,
    value: Value,
) -> Result<(), Memory>
    ensures { OnOk result (writes.new ≡ writes.old ++ (Cell.Field number key.now column, value) ∷ []) }
{
    let key = key.copy(alloc)?;
    writes.push((Cell::Field(number, key, column), value))
}

/// One more field of a row, unless it is the key's.
fn add_field(
    alloc: Global,
    writes: &mut Items<(Cell, Value)>,
    number: u32,
    key: &Key,
    key_column: u32,
    column: u32,
    value: Value,
) -> Result<(), Memory>
    ensures { OnOk result (writes.new ≡ writes.old ++ spec.fields_of number key.now key_column column (value ∷ [])) }
{
    if column == key_column {
        return Ok(());
    }
    push_field(alloc, writes, number, key, column, value)
}

/// The presence of a row.
fn push_presence(
    alloc: Global,
    writes: &mut Items<(Cell, Value)>,
    number: u32,
    key: &Key,
) -> Result<(), Memory>
    ensures { OnOk result (writes.new ≡ writes.old ++ (Cell.Presence number key.now, Value.Flag true) ∷ []) }
{
    let key = key.copy(alloc)?;
    writes.push((Cell::Presence(number, key), Value::Flag(true)))
}

/// The presence of a row, and then its fields.
fn add_row(
    alloc: Global,
    writes: &mut Items<(Cell, Value)>,
    number: u32,
    key_column: u32,
    key: &Key,
    values: Items<Value>,
) -> Result<(), Memory>
    requires { length values < 2 ^ 32 }
    ensures { OnOk result (writes.new ≡ writes.old
        ++ (Cell.Presence number key.now, Value.Flag true) ∷ spec.fields_of number key.now key_column 0 values) }
{
    push_presence(alloc, writes, number, key)?;
    let mut column = 0u32;
    for value in values.into_vec() {
        add_field(alloc, writes, number, key, key_column, column, value)?;
        column += 1;
    }
    Ok(())
}

/// The writes of rows that are inserted into the table of this number, in the order of the rows: of each its presence, and
/// then its columns but for the key in order of declaration.
pub fn insert_writes(
    alloc: Global,
    number: u32,
    table: &Table,
    rows: Items<(Key, Items<Value>)>,
) -> Result<Items<(Cell, Value)>, Memory>
    requires narrow { length (table.now).columns < 2 ^ 32 }
    requires within { AreWithin (length (table.now).columns) rows }
    ensures { IfOk result (λ writes. writes ≡ spec.inserts number (table.now).key rows) }
{
    let mut writes = Items::new(alloc);
    for (key, values) in rows.into_vec() {
        add_row(alloc, &mut writes, number, table.key, &key, values)?;
    }
    Ok(writes)
}

fn add_fields(
    alloc: Global,
    writes: &mut Items<(Cell, Value)>,
    number: u32,
    key: &Key,
    fields: Items<(u32, Value)>,
) -> Result<(), Memory>
    ensures { OnOk result (writes.new ≡ writes.old ++ spec.updates_of number (record { key = key.now; fields = fields })) }
{
    for (column, value) in fields.into_vec() {
        push_field(alloc, writes, number, key, column, value)?;
    }
    Ok(())
}

/// The writes of rows that are updated, in the order of the changes: of each its assigned columns in order of declaration.
pub fn update_writes(
    alloc: Global,
    number: u32,
    changes: Items<RowChange>,
) -> Result<Items<(Cell, Value)>, Memory>
    ensures { IfOk result (λ writes. writes ≡ spec.updates number (changes_seen changes)) }
{
    let mut writes = Items::new(alloc);
    for change in changes.into_vec() {
        let RowChange { key, fields } = change;
        add_fields(alloc, &mut writes, number, &key, fields)?;
    }
    Ok(writes)
}

/// The writes of rows that are deleted, in the order of the changes: the presence of each.
pub fn delete_writes(
    alloc: Global,
    number: u32,
    changes: Items<RowChange>,
) -> Result<Items<(Cell, Value)>, Memory>
    ensures { IfOk result (λ writes. writes ≡ spec.deletes number (changes_seen changes)) }
{
    let mut writes = Items::new(alloc);
    for change in changes.into_vec() {
        let RowChange { key, fields: _ } = change;
        writes.push((Cell::Presence(number, key), Value::Flag(false)))?;
    }
    Ok(writes)
}
