// What no clause says of `assign`: that a call with ample memory succeeds, and values worked out by hand.
use crate::values::cases::{ASSIGNED, LongCase, OF_BYTES, WITHOUT_SPACES};
use crate::values::samples::shown;
use case_lines::{Line, Lit, is_in, named, text_of, value_of};
use cell_base::{Memory, SqlFault, SqlType, Text, Value};
use expr_eval::assign;
use held_values::without;
use std::alloc::{AllocError, Global};
use std::test::Fail;

fn converted(alloc: Global, kind: SqlType, lit: Lit) -> Result<String, Memory> {
    let value = value_of(alloc, lit)?;
    shown(alloc, assign(alloc, value, kind))
}

#[test]
fn assigns(rt: HostRuntime) -> Result<(), Fail> {
    for (place, (kind, lit, want)) in ASSIGNED.iter().enumerate() {
        is_in("assigned", place, converted(rt.alloc(), *kind, *lit), want)?;
    }
    Ok(())
}

fn long_text(alloc: Global, case: &LongCase) -> Result<String, AllocError> {
    let (_, piece, times, end, _) = *case;
    let mut line = Line::new(alloc);
    line.times(piece, times);
    line.word(end);
    line.whole()
}

fn long_value(alloc: Global, case: &LongCase) -> Result<Value, Memory> {
    let spelled = long_text(alloc, case)?;
    let text = text_of(alloc, spelled.as_str().as_bytes());
    Ok(Value::Text(without(spelled, text)?))
}

fn length_of(alloc: Global, text: &Text) -> Result<String, Memory> {
    Ok(named(alloc, &text.bytes().len())?)
}

/// The number of the text's bytes, or the code.
fn length_shown(alloc: Global, answer: Result<Value, SqlFault>) -> Result<String, Memory> {
    match answer {
        Ok(Value::Text(text)) => length_of(alloc, &text),
        answer => shown(alloc, answer),
    }
}

/// The bytes of a text as a column's type stores them: their number, or the code.
fn stored(alloc: Global, case: &LongCase) -> Result<String, Memory> {
    let value = long_value(alloc, case)?;
    length_shown(alloc, assign(alloc, value, case.0))
}

fn are_stored(alloc: Global, table: &str, cases: &[LongCase]) -> Result<(), Fail> {
    for (place, case) in cases.iter().enumerate() {
        is_in(table, place, stored(alloc, case), case.4)?;
    }
    Ok(())
}

#[test]
fn bounds_the_bytes_of_a_text(rt: HostRuntime) -> Result<(), Fail> {
    are_stored(rt.alloc(), "bytes", OF_BYTES)
}

#[test]
fn bounds_what_is_left_without_spaces(rt: HostRuntime) -> Result<(), Fail> {
    are_stored(rt.alloc(), "without spaces", WITHOUT_SPACES)
}
