// How values are shown.
use case_lines::{Line, fault_shown};
use cell_base::{Items, SqlFault, Value};
use row_order::SortedRow;
use std::alloc::{AllocError, Global};

fn push_values(line: &mut Line, values: &[Value]) {
    for (i, value) in values.iter().enumerate() {
        line.word(if i > 0 { " " } else { "" });
        line.value(value, "null");
    }
}

fn values_shown(alloc: Global, values: &[Value]) -> Result<String, AllocError> {
    let mut line = Line::new(alloc);
    push_values(&mut line, values);
    line.whole()
}

/// The values with spaces between them, or the code's name.
pub fn answer_shown(
    alloc: Global,
    answer: Result<Items<Value>, SqlFault>,
) -> Result<String, AllocError> {
    match answer {
        Ok(values) => values_shown(alloc, values.as_slice()),
        Err(fault) => fault_shown(alloc, fault),
    }
}

/// The values of the rows with spaces between them.
pub fn rows_shown(alloc: Global, rows: &[SortedRow]) -> Result<String, AllocError> {
    let mut line = Line::new(alloc);
    for (i, row) in rows.iter().enumerate() {
        line.word(if i > 0 { " " } else { "" });
        push_values(&mut line, row.values.as_slice());
    }
    line.whole()
}
