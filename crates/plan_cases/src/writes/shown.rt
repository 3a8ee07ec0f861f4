// Rows, changes and writes as text.
use case_lines::Line;
use cell_base::{Cell, Items, Key, Value};
use row_writes::RowChange;
use std::alloc::{AllocError, Global};

fn push_values(line: &mut Line, values: &[Value]) {
    for value in values {
        line.word(" ");
        line.value(value, "-");
    }
    line.word(";");
}

fn push_rows(line: &mut Line, rows: &[(Key, Items<Value>)]) {
    for (key, values) in rows {
        line.key(key);
        line.word(":");
        push_values(line, values.as_slice());
    }
}

/// Each row: its key, and its values.
pub fn rows(alloc: Global, rows: &[(Key, Items<Value>)]) -> Result<String, AllocError> {
    let mut line = Line::new(alloc);
    push_rows(&mut line, rows);
    line.whole()
}

fn push_fields(line: &mut Line, fields: &[(u32, Value)]) {
    for (column, value) in fields {
        line.word(" ");
        line.number(i64::from(*column));
        line.word("=");
        line.value(value, "-");
    }
    line.word(";");
}

fn push_changes(line: &mut Line, changes: &[RowChange]) {
    for change in changes {
        line.key(&change.key);
        line.word(":");
        push_fields(line, change.fields.as_slice());
    }
}

/// Each change: its key, and its fields.
pub fn changes(alloc: Global, changes: &[RowChange]) -> Result<String, AllocError> {
    let mut line = Line::new(alloc);
    push_changes(&mut line, changes);
    line.whole()
}

fn push_writes(line: &mut Line, writes: &[(Cell, Value)]) {
    for (cell, value) in writes {
        line.cell(cell);
        line.word("=");
        line.value(value, "-");
        line.word(" ");
    }
}

/// Each write: its cell, and the value.
pub fn writes(alloc: Global, writes: &[(Cell, Value)]) -> Result<String, AllocError> {
    let mut line = Line::new(alloc);
    push_writes(&mut line, writes);
    line.whole()
}
