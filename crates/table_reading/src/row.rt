// The row of a key.
ghost use Rattle.std.specs.Prelude.{◌≡◌, replicate, slice_set, IfOk};
ghost use Rattle.cell_base.specs.declared.value.Value.{Value};
ghost use Rattle.cell_base.specs.declared.value.Value.TheVariants as value;
ghost use Rattle.row_meaning.specs.Combinations as combinations;
ghost use Rattle.row_meaning.specs.Pictures as pictures;

use cell_base::{Items, Key, Memory, Value};
use std::alloc::Global;

/// Whether the value is true.
pub fn is_true(value: &Value) -> bool
    ensures { result ≡ combinations.is_true value.now }
{
    match value {
        Value::Flag(flag) => *flag,
        _ => false,
    }
}

/// The row of a key, of so many columns, of which these were read; the others are null.
pub fn row_values(
    alloc: Global,
    width: usize,
    key_column: u32,
    key: &Key,
    read: Items<(u32, Value)>,
) -> Result<Items<Value>, Memory>
    ensures { IfOk result (λ row. row ≡ pictures.row_values width key_column key.now read) }
{
    let mut row = nulls(alloc, width)?;
    put(row.as_mut_slice(), key_column, key_value(alloc, key)?);
    put_all(row.as_mut_slice(), read);
    Ok(Items::from_vec(row))
}

fn nulls(alloc: Global, width: usize) -> Result<Vec<Value>, Memory>
    ensures { IfOk result (λ row. row.items ≡ replicate {A = Value} width value.Null) }
{
    let mut row = Vec::new(alloc);
    for _i in 0..width {
        row.push(Value::Null)?;
    }
    Ok(row)
}

fn key_value(alloc: Global, key: &Key) -> Result<Value, Memory>
    ensures { IfOk result (λ v. v ≡ pictures.key_value key.now) }
{
    match key {
        Key::Int(n) => Ok(Value::Int(*n)),
        Key::Text(text) => Ok(Value::Text(text.copy(alloc)?)),
    }
}

fn put(row: &mut [Value], column: u32, value: Value)
    ensures { row.new ≡ slice_set row.old column value }
{
    if (column as usize) < row.len() {
        row[column as usize] = value;
    }
}

fn put_all(row: &mut [Value], read: Items<(u32, Value)>)
    ensures { row.new ≡ pictures.with_values row.old read }
{
    for (column, value) in read.into_vec() {
        put(row, column, value);
    }
}
