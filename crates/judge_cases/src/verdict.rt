// What is printed of a text, and of texts in which one line is another.
use held_values::{kept, without};
use history_check::{CheckFault, check, check_events};
use history_log::{Trace, read};
use std::alloc::{AllocError, Global};
use std::test::Fail;

fn push_line(changed: &mut String, line: &str) -> Result<(), AllocError> {
    changed.push_str(line)?;
    changed.push_str("\n")
}

fn push_lines(changed: &mut String, text: &str, number: u32, line: &str) -> Result<(), AllocError> {
    let mut at = 1u32;
    for part in text.lines() {
        push_line(changed, if at == number { line } else { part })?;
        at = at.saturating_add(1);
    }
    Ok(())
}

// The text with another line at this number; lines are numbered from 1.
fn with_line(alloc: Global, text: &str, number: u32, line: &str) -> Result<String, AllocError> {
    let mut changed = String::new(alloc);
    let pushed = push_lines(&mut changed, text, number, line);
    kept(changed, pushed)
}

// Whether the fault is printed so.
fn prints(alloc: Global, fault: &CheckFault, wanted: &str) -> bool {
    match format!(in alloc; "{fault}") {
        Ok(line) => line.as_str() == wanted,
        Err(_) => false,
    }
}

// Whether this is what came of a trace.
fn is_said(alloc: Global, found: &Result<(), CheckFault>, wanted: &str) -> bool {
    match found {
        Ok(()) => wanted == "ok",
        Err(fault) => prints(alloc, fault, wanted),
    }
}

// Whether the judge says this of the trace.
fn judges(alloc: Global, trace: &Trace, wanted: &str) -> bool {
    if trace.events.as_slice().len() >= 4_294_967_296 {
        return false;
    }
    let found = check(alloc, trace);
    let is_so = is_said(alloc, &found, wanted);
    without(found, is_so)
}

// Whether the judge says this of the events of the trace.
fn judges_events(alloc: Global, trace: &Trace, wanted: &str) -> bool {
    if trace.events.as_slice().len() >= 4_294_967_296 {
        return false;
    }
    let found = check_events(alloc, trace);
    let is_so = is_said(alloc, &found, wanted);
    without(found, is_so)
}

// Whether this is said of the text.
fn says(alloc: Global, text: &str, wanted: &str) -> bool {
    match read(alloc, text.as_bytes()) {
        Ok(trace) => {
            let is_so = judges(alloc, &trace, wanted);
            without(trace, is_so)
        }
        Err(_) => false,
    }
}

// Whether this is said of the events of the text.
fn says_of_events(alloc: Global, text: &str, wanted: &str) -> bool {
    match read(alloc, text.as_bytes()) {
        Ok(trace) => {
            let is_so = judges_events(alloc, &trace, wanted);
            without(trace, is_so)
        }
        Err(_) => false,
    }
}

// The text with the line that is written here after its number.
fn changed_by(alloc: Global, text: &str, numbered: &str) -> Option<String> {
    let (number, line) = numbered.split_once(" ")?;
    let number = number.parse::<u32>().ok()?;
    with_line(alloc, text, number, line).ok()
}

// Whether this is said of the text with another line, which is written after its number.
fn says_with(alloc: Global, text: &str, numbered: &str, wanted: &str) -> bool {
    match changed_by(alloc, text, numbered) {
        Some(changed) => says(alloc, changed.as_str(), wanted),
        None => false,
    }
}

// Whether this is said of the events of the text with another line.
fn says_of_events_with(alloc: Global, text: &str, numbered: &str, wanted: &str) -> bool {
    match changed_by(alloc, text, numbered) {
        Some(changed) => says_of_events(alloc, changed.as_str(), wanted),
        None => false,
    }
}

// Ends the test where this isn't so.
fn right(row: &str, is_so: bool) -> Result<(), Fail> {
    if is_so {
        return Ok(());
    }
    Err(Fail::new(format_args!("{row}")))
}

fn is_judged(alloc: Global, text: &str, row: &str) -> bool {
    match row.split_once(" => ") {
        Some((line, wanted)) => says_with(alloc, text, line, wanted),
        None => row.is_empty(),
    }
}

/// Whether the text is right, and what its rows say is said of it with their lines. A row has the number of a line, the line, ` => `, and what
/// is said.
pub fn are_judged(alloc: Global, text: &str, rows: &str) -> Result<(), Fail> {
    right(text, says(alloc, text, "ok"))?;
    for row in rows.lines() {
        right(row, is_judged(alloc, text, row))?;
    }
    Ok(())
}

fn is_said_twice(alloc: Global, text: &str, line: &str, wanted: &str) -> bool {
    match wanted.split_once(" => ") {
        Some((of_events, of_all)) => {
            says_of_events_with(alloc, text, line, of_events)
                && says_with(alloc, text, line, of_all)
        }
        None => false,
    }
}

fn is_judged_twice(alloc: Global, text: &str, row: &str) -> bool {
    match row.split_once(" => ") {
        Some((line, wanted)) => is_said_twice(alloc, text, line, wanted),
        None => row.is_empty(),
    }
}

/// Whether what its rows say is said of the text with their lines. A row has the number of a line, the line, and after a ` => ` each what is said
/// of the events alone, and of all.
pub fn are_judged_twice(alloc: Global, text: &str, rows: &str) -> Result<(), Fail> {
    for row in rows.lines() {
        right(row, is_judged_twice(alloc, text, row))?;
    }
    Ok(())
}
