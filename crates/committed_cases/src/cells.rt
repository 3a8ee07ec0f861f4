// The cells of the tests, with their values, as plain data.
use cell_base::{Cell, Key, Text, Value};
use history_core::BookFault;
use std::alloc::Global;

/// A key.
#[derive(Clone, Copy)]
pub enum Row {
    Number(i64),
    Name(&'static [u8]),
}

/// What stands in a cell.
#[derive(Clone, Copy)]
pub enum Put {
    /// Whether the table has the row.
    Row(u32, Row, bool),
    /// The number in the column 1 of the row, or null.
    Field(u32, Row, Option<i64>),
}

/// The key of a row.
fn key_of(alloc: Global, row: Row) -> Result<Key, BookFault> {
    match row {
        Row::Number(number) => Ok(Key::Int(number)),
        Row::Name(name) => match Text::from_bytes(alloc, name) {
            Ok(text) => Ok(Key::Text(text)),
            Err(_) => Err(BookFault::Memory),
        },
    }
}

/// The cell.
pub fn cell_of(alloc: Global, put: Put) -> Result<Cell, BookFault> {
    match put {
        Put::Row(table, row, _) => Ok(Cell::Presence(table, key_of(alloc, row)?)),
        Put::Field(table, row, _) => Ok(Cell::Field(table, key_of(alloc, row)?, 1)),
    }
}

/// The value.
pub fn value_of(put: Put) -> Value {
    match put {
        Put::Row(_, _, there) => Value::Flag(there),
        Put::Field(_, _, Some(number)) => Value::Int(number),
        Put::Field(_, _, None) => Value::Null,
    }
}

fn are_same(entry: &(Cell, Value), cell: &Cell, value: &Value) -> bool {
    entry.0.is_same(cell) && entry.1.is_same(value)
}

/// Whether this is the cell with this value.
fn is_put(alloc: Global, entry: &(Cell, Value), put: Put) -> Result<bool, BookFault> {
    let cell = cell_of(alloc, put)?;
    Ok(are_same(entry, &cell, &value_of(put)))
}

/// Whether these are the cells, in this order.
pub fn are_cells(alloc: Global, cells: &[(Cell, Value)], puts: &[Put]) -> Result<bool, BookFault> {
    if cells.len() != puts.len() {
        return Ok(false);
    }
    for at in 0..cells.len() {
        if !is_put(alloc, &cells[at], puts[at])? {
            return Ok(false);
        }
    }
    Ok(true)
}
