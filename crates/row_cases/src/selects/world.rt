// The tables that the cases stand over, and rows of them.
use crate::selects::list::List;
use case_lines::{Lit, value_of};
use case_tables::tables_of;
use cell_base::{Items, Key, SqlFault, Text, Value};
use held_values::both;
use row_meaning::TableRows;
use sql_tree::Table;
use std::alloc::Global;

/// The tables, in the order of their numbers, from 0.
const TABLES: &[&str] = &[
    "CREATE TABLE t (k bigint PRIMARY KEY, v bigint)",
    "CREATE TABLE u (id integer PRIMARY KEY, name text, n integer)",
    "CREATE TABLE e (k bigint PRIMARY KEY)",
    "CREATE TABLE w (k bigint PRIMARY KEY, s text)",
];

/// The tables that all cases stand over.
pub fn tables(alloc: Global) -> Result<Items<Table>, SqlFault> {
    Ok(tables_of(alloc, TABLES)?)
}

// ---- rows

/// The value of a text.
pub fn text_value(alloc: Global, bytes: &[u8]) -> Result<Value, SqlFault> {
    match Text::from_bytes(alloc, bytes) {
        Ok(text) => Ok(Value::Text(text)),
        Err(_) => Err(SqlFault::Memory),
    }
}

fn value_of_case(alloc: Global, lit: Lit) -> Result<Value, SqlFault> {
    Ok(value_of(alloc, lit)?)
}

fn key_of(row: &[Lit]) -> Key {
    match row.first() {
        Some(Lit::Int(n)) => Key::Int(*n),
        _ => Key::Int(0),
    }
}

fn row_of(alloc: Global, row: &[Lit]) -> Result<(Key, Items<Value>), SqlFault> {
    let mut values = List::new(alloc);
    for lit in row {
        values.push(value_of_case(alloc, *lit));
    }
    with_key(key_of(row), values)
}

/// A row, if its values could be made.
pub fn with_key(key: Key, values: List<Value>) -> Result<(Key, Items<Value>), SqlFault> {
    both(Ok(key), values.whole())
}

/// The rows of a table, if they could be made.
pub fn of_table(table: u32, rows: List<(Key, Items<Value>)>) -> Result<TableRows, SqlFault> {
    let rows = rows.whole()?;
    Ok(TableRows { table, rows })
}

fn table_rows(alloc: Global, table: u32, all: &[&[Lit]]) -> Result<TableRows, SqlFault> {
    let mut rows = List::new(alloc);
    for row in all {
        rows.push(row_of(alloc, row));
    }
    of_table(table, rows)
}

const T: &[&[Lit]] = &[
    &[Lit::Int(1), Lit::Int(10)],
    &[Lit::Int(2), Lit::Null],
    &[Lit::Int(3), Lit::Int(0)],
    &[Lit::Int(4), Lit::Int(10)],
];

const U: &[&[Lit]] = &[
    &[Lit::Int(1), Lit::Str("ab"), Lit::Int(5)],
    &[Lit::Int(2), Lit::Str("b"), Lit::Null],
    &[Lit::Int(4), Lit::Str("a"), Lit::Int(2)],
];

/// The numbers of tables with their rows, of which each begins with its key. They stand in no order of tables.
const PICTURE: &[(u32, &[&[Lit]])] = &[(1, U), (2, &[]), (0, T)];

/// The rows that the cases stand over.
pub fn picture_of(alloc: Global) -> Result<Items<TableRows>, SqlFault> {
    let mut picture = List::new(alloc);
    for (table, rows) in PICTURE {
        picture.push(table_rows(alloc, *table, rows));
    }
    picture.whole()
}

// ---- long rows

fn long_value(alloc: Global, length: usize) -> Result<Value, SqlFault> {
    match vec![in alloc; b'x'; length] {
        Ok(bytes) => text_value(alloc, &bytes),
        Err(_) => Err(SqlFault::Memory),
    }
}

fn long_row(alloc: Global, key: u32, length: usize) -> Result<(Key, Items<Value>), SqlFault> {
    let key = i64::from(key);
    let mut values = List::new(alloc);
    values.add(Value::Int(key));
    values.push(long_value(alloc, length));
    with_key(Key::Int(key), values)
}

fn long_rows(alloc: Global, count: u32, last: usize) -> Result<TableRows, SqlFault> {
    let mut rows = List::new(alloc);
    for key in 0..count {
        rows.push(long_row(alloc, key, 65_536));
    }
    rows.push(long_row(alloc, count, last));
    of_table(3, rows)
}

/// So many rows of `w` with texts of 65,536 bytes, and one with a text of this length after them.
pub fn long_picture(alloc: Global, count: u32, last: usize) -> Result<Items<TableRows>, SqlFault> {
    let mut picture = List::new(alloc);
    picture.push(long_rows(alloc, count, last));
    picture.whole()
}
