//! Events of a history as text, a line each, for tests that compare whole histories.
//!
//! `begin 1 cc` begins a transaction of session 1 at Causal Consistency. `read 1 p.0.1 0 2 1 true` is a read in session 1 of the presence
//! of key 1 in table 0, from transaction 0, of 2 that were offered, by the word 1, which found true; `f.0.1.1` is column 1 of that row.
//! Text is shown in hexadecimal after an `x`.
//!
//! Where the events, or the bytes that came, aren't those that were expected, it also tells how many are before the first that differs.
#![tactic(auto)]

mod differing;

use cell_base::{Cell, Items, Key, Level, Text, Value};
pub use differing::{common_bytes, other_event};
use history_core::Event;
use std::alloc::{AllocError, Global};

fn push_text(alloc: Global, out: &mut String, text: &Text) -> Result<(), AllocError> {
    out.push_str("x")?;
    for byte in text.bytes() {
        out.push_str(format!(in alloc; "{byte:02x}")?.as_str())?;
    }
    Ok(())
}

fn push_number(alloc: Global, out: &mut String, number: u32) -> Result<(), AllocError> {
    out.push_str(format!(in alloc; " {number}")?.as_str())
}

fn push_key(alloc: Global, out: &mut String, key: &Key) -> Result<(), AllocError> {
    match key {
        Key::Int(n) => out.push_str(format!(in alloc; "{n}")?.as_str()),
        Key::Text(text) => push_text(alloc, out, text),
    }
}

fn push_cell(alloc: Global, out: &mut String, cell: &Cell) -> Result<(), AllocError> {
    match cell {
        Cell::Presence(table, key) => {
            out.push_str(format!(in alloc; " p.{table}.")?.as_str())?;
            push_key(alloc, out, key)
        }
        Cell::Field(table, key, column) => {
            out.push_str(format!(in alloc; " f.{table}.")?.as_str())?;
            push_key(alloc, out, key)?;
            out.push_str(format!(in alloc; ".{column}")?.as_str())
        }
    }
}

fn push_value(alloc: Global, out: &mut String, value: &Value) -> Result<(), AllocError> {
    match value {
        Value::Unset => out.push_str(" unset"),
        Value::Null => out.push_str(" null"),
        Value::Flag(flag) => out.push_str(format!(in alloc; " {flag}")?.as_str()),
        Value::Int(n) => out.push_str(format!(in alloc; " {n}")?.as_str()),
        Value::Wide(n) => out.push_str(format!(in alloc; " {n}")?.as_str()),
        Value::Text(text) => {
            out.push_str(" ")?;
            push_text(alloc, out, text)
        }
    }
}

fn push_keys(alloc: Global, out: &mut String, keys: &Items<Key>) -> Result<(), AllocError> {
    for key in keys.as_slice() {
        out.push_str(" ")?;
        push_key(alloc, out, key)?;
    }
    Ok(())
}

fn push_name(alloc: Global, out: &mut String, word: &str, session: u32) -> Result<(), AllocError> {
    out.push_str(word)?;
    push_number(alloc, out, session)
}

fn push_read(
    alloc: Global,
    out: &mut String,
    cell: &Cell,
    numbers: [u32; 3],
    value: &Value,
) -> Result<(), AllocError> {
    push_cell(alloc, out, cell)?;
    for number in numbers {
        push_number(alloc, out, number)?;
    }
    push_value(alloc, out, value)
}

fn level_word(level: Level) -> &'static str {
    match level {
        Level::Rc => "rc",
        Level::Ra => "ra",
        Level::Cc => "cc",
    }
}

fn push_begin(
    alloc: Global,
    out: &mut String,
    session: u32,
    level: Level,
) -> Result<(), AllocError> {
    push_name(alloc, out, "begin", session)?;
    out.push_str(" ")?;
    out.push_str(level_word(level))
}

fn push_event(alloc: Global, out: &mut String, event: &Event) -> Result<(), AllocError> {
    match event {
        Event::Open { session } => push_name(alloc, out, "open", *session)?,
        Event::Close { session } => push_name(alloc, out, "close", *session)?,
        Event::Define { session, name } => {
            push_name(alloc, out, "define", *session)?;
            out.push_str(" ")?;
            push_text(alloc, out, name)?;
        }
        Event::Look { session, tables } => {
            push_name(alloc, out, "look", *session)?;
            push_number(alloc, out, *tables)?;
        }
        Event::Begin { session, level } => push_begin(alloc, out, *session, *level)?,
        Event::Scan {
            session,
            table,
            keys,
        } => {
            push_name(alloc, out, "scan", *session)?;
            push_number(alloc, out, *table)?;
            push_keys(alloc, out, keys)?;
        }
        Event::Read {
            session,
            cell,
            source,
            count,
            word,
            value,
        } => {
            push_name(alloc, out, "read", *session)?;
            push_read(alloc, out, cell, [*source, *count, *word], value)?;
        }
        Event::Own {
            session,
            cell,
            value,
        } => {
            push_name(alloc, out, "own", *session)?;
            push_cell(alloc, out, cell)?;
            push_value(alloc, out, value)?;
        }
        Event::Write {
            session,
            cell,
            value,
        } => {
            push_name(alloc, out, "write", *session)?;
            push_cell(alloc, out, cell)?;
            push_value(alloc, out, value)?;
        }
        Event::Commit { session } => push_name(alloc, out, "commit", *session)?,
        Event::Rollback { session } => push_name(alloc, out, "rollback", *session)?,
        Event::Show { session, number } => {
            push_name(alloc, out, "show", *session)?;
            push_number(alloc, out, *number)?;
        }
    }
    Ok(())
}

/// The events, one a line. Fails where memory runs out.
pub fn event_lines(alloc: Global, events: &[Event]) -> Result<String, AllocError> {
    let mut out = String::new(alloc);
    for event in events {
        push_event(alloc, &mut out, event)?;
        out.push_str("\n")?;
    }
    Ok(out)
}
