// How an answer is shown.
use case_lines::{Line, fault_shown};
use cell_base::{Memory, SqlFault, Value};
use std::alloc::{AllocError, Global};

fn value_shown(alloc: Global, value: &Value) -> Result<String, AllocError> {
    let mut line = Line::new(alloc);
    line.value(value, "null");
    line.whole()
}

fn answer_shown(alloc: Global, answer: Result<Value, SqlFault>) -> Result<String, AllocError> {
    match answer {
        Ok(value) => value_shown(alloc, &value),
        Err(fault) => fault_shown(alloc, fault),
    }
}

/// The value, or the code's name.
pub fn shown(alloc: Global, answer: Result<Value, SqlFault>) -> Result<String, Memory> {
    Ok(answer_shown(alloc, answer)?)
}
