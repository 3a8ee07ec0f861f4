// The values that an UPDATE assigns.
ghost use Rattle.std.specs.Prelude.{◌≡◌, [], ◌∷◌, ◌++◌, slice_set, Some, None, IfOk, OnOk, if◌then◌else◌};
ghost use Rattle.std.specs.Option.{option_map};
ghost use Rattle.row_meaning.specs.Changes as changes;
ghost use Rattle.typing_rules.specs.Gives.{Gives};
ghost use Rattle.row_meaning.specs.Pictures as pictures;
ghost use Rattle.row_writes.specs.Places as places;

use crate::evaluation::{converted, value_over};
use crate::storing::is_missing;
use cell_base::{Items, Memory, SqlFault, SqlType, Value};
use sql_tree::{Column, TypedExpr};
use std::alloc::Global;

/// The type of a column; that of one that isn't there doesn't matter.
fn kind_at(columns: &[Column], column: u32) -> SqlType
    ensures { result ≡ changes.kind_at columns.now column }
{
    match columns.get(column as usize) {
        Some(column) => column.kind,
        None => SqlType::Text,
    }
}

/// The value of an assignment over the old row, as one of its column's type.
fn assigned_value(
    alloc: Global,
    columns: &[Column],
    assignment: &(u32, TypedExpr),
    row: &[Value],
) -> Result<(u32, Value), SqlFault>
    ensures { Gives (places.assigning columns.now row.now assignment.now) result }
{
    let (column, expr) = assignment;
    let value = value_over(alloc, expr, row)?;
    let value = converted(alloc, value, kind_at(columns, *column))?;
    Ok((*column, value))
}

/// The values of all assignments over the old row, in text order.
pub fn assignments(
    alloc: Global,
    columns: &[Column],
    set: &[(u32, TypedExpr)],
    row: &[Value],
) -> Result<Items<(u32, Value)>, SqlFault>
    ensures { Gives (changes.assignments columns.now set.now row.now) result }
{
    let mut values = Items::new(alloc);
    for assignment in set {
        let value = assigned_value(alloc, columns, assignment, row)?;
        values.push(value)?;
    }
    Ok(values)
}

/// A row of the same values.
pub fn copy_row(alloc: Global, row: &[Value]) -> Result<Items<Value>, Memory>
    ensures { IfOk result (λ copy. copy ≡ row.now) }
{
    let mut copy = Items::new(alloc);
    for value in row {
        copy.push(value.copy(alloc)?)?;
    }
    Ok(copy)
}

fn put(row: &mut Vec<Value>, column: u32, value: Value)
    ensures { row.new.items ≡ slice_set row.old.items column value }
{
    if let Some(place) = row.get_mut(column as usize) {
        *place = value;
    }
}

/// The values of columns, by number, put into a row.
pub fn with_values(row: Items<Value>, values: Items<(u32, Value)>) -> Items<Value>
    ensures { result ≡ pictures.with_values row values }
{
    let mut row = row.into_vec();
    for (column, value) in values.into_vec() {
        put(&mut row, column, value);
    }
    Items::from_vec(row)
}

/// The number of the column, where it is assigned.
fn assigned_number(set: &[(u32, TypedExpr)], column: usize) -> Option<u32>
    ensures { result ≡ (if changes.is_assigned set.now column then Some column else None) }
{
    for (number, _) in set {
        if *number as usize == column {
            return Some(*number);
        }
    }
    None
}

/// Whether this column is assigned, must not be null, and is.
fn is_missing_at(
    set: &[(u32, TypedExpr)],
    place: usize,
    column: &Column,
    value: Option<&Value>,
) -> bool
    ensures { result ≡ places.is_missing_at set.now place column.now (option_map (λ v. v.now) value.entry) }
{
    match value {
        Some(value) => assigned_number(set, place).is_some() && is_missing(column, value),
        None => false,
    }
}

/// Whether an assigned column must not be null and is.
pub fn has_missing(columns: &[Column], set: &[(u32, TypedExpr)], values: &[Value]) -> bool
    ensures { result ≡ changes.has_missing 0 columns.now set.now values.now }
{
    for (i, column) in columns.iter().enumerate() {
        if is_missing_at(set, i, column, values.get(i)) {
            return true;
        }
    }
    false
}

/// One value more, where its column is assigned.
fn add_assigned(
    fields: &mut Items<(u32, Value)>,
    set: &[(u32, TypedExpr)],
    place: usize,
    value: Value,
) -> Result<(), Memory>
    ensures { OnOk result (fields.new ≡ fields.old ++ changes.fields_from place set.now (value ∷ [])) }
{
    match assigned_number(set, place) {
        Some(number) => fields.push((number, value)),
        None => Ok(()),
    }
}

/// The values of the assigned columns of a row, by number, ascending.
pub fn fields_of(
    alloc: Global,
    set: &[(u32, TypedExpr)],
    row: Items<Value>,
) -> Result<Items<(u32, Value)>, Memory>
    ensures { IfOk result (λ fields. fields ≡ changes.fields_from 0 set.now row) }
{
    let mut fields = Items::new(alloc);
    let mut place = 0usize;
    for value in row.into_vec() {
        add_assigned(&mut fields, set, place, value)?;
        place += 1;
    }
    Ok(fields)
}
