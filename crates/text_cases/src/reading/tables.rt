// Tables of texts with what they come to.
use crate::reading::answers::{Ask, answer, answer_to};
use crate::reading::texts::{Long, long_text};
use case_lines::{is, is_of_long, is_remark};
use std::alloc::Global;
use std::test::Fail;

fn is_read(alloc: Global, ask: Ask, line: &str) -> Result<(), Fail> {
    match line.split_once(" => ") {
        Some((spelled, want)) => is(spelled, answer(alloc, spelled, ask), want),
        None => is_remark(line),
    }
}

/// Whether each text of the table comes to what the table says.
pub fn are_read(alloc: Global, ask: Ask, table: &str) -> Result<(), Fail> {
    for line in table.lines() {
        is_read(alloc, ask, line)?;
    }
    Ok(())
}

/// Whether each text of the list comes to what the list says.
pub fn are_pairs_read(alloc: Global, ask: Ask, table: &[(&str, &str)]) -> Result<(), Fail> {
    for (spelled, want) in table {
        is(*spelled, answer(alloc, spelled, ask), want)?;
    }
    Ok(())
}

fn is_answered(alloc: Global, ask: Ask, long: &Long) -> Result<(), Fail> {
    let (first, open, times, _, _, want) = *long;
    let given = answer_to(alloc, long_text(alloc, long), ask);
    is_of_long(first, open, times, given, want)
}

/// Whether each long text of the table comes to what the table says.
pub fn are_answered(alloc: Global, ask: Ask, table: &[Long]) -> Result<(), Fail> {
    for long in table {
        is_answered(alloc, ask, long)?;
    }
    Ok(())
}
