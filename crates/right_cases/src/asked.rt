// What the pass says of a text, and of texts in which one line is another.
use held_values::without;
use right_logs::{Glimpse, glimpse_of};
use std::alloc::Global;
use std::test::Fail;

// Whether this is said: `right`, that the text is the log of a right history; `judged`, that its events are right; `unclear`, nothing.
fn is_so(glimpse: &Glimpse, wanted: &str) -> bool {
    match glimpse {
        Glimpse::Right => wanted == "right",
        Glimpse::Judged(_cells) => wanted == "judged",
        Glimpse::Unclear => wanted == "unclear",
    }
}

/// Whether the pass says this of the text.
pub fn says(alloc: Global, text: &str, wanted: &str) -> bool {
    match glimpse_of(alloc, text.as_bytes()) {
        Ok(glimpse) => {
            let said = is_so(&glimpse, wanted);
            without(glimpse, said)
        }
        Err(_) => false,
    }
}

// The text with another line in the place of the first one that is so.
fn with_line(alloc: Global, text: &str, line: &str, other: &str) -> Option<String> {
    let (before, after) = text.split_once(line)?;
    format!(in alloc; "{before}{other}{after}").ok()
}

// Whether the pass says this of the text in which a line is the other one after the stroke.
fn says_with(alloc: Global, text: &str, lines: &str, wanted: &str) -> bool {
    let Some((line, other)) = lines.split_once(" | ") else {
        return false;
    };
    match with_line(alloc, text, line, other) {
        Some(changed) => {
            let said = says(alloc, changed.as_str(), wanted);
            without(changed, said)
        }
        None => false,
    }
}

fn is_said(alloc: Global, text: &str, row: &str) -> bool {
    match row.split_once(" => ") {
        Some((lines, wanted)) => says_with(alloc, text, lines, wanted),
        None => row.is_empty(),
    }
}

// Ends the test where this isn't so.
fn right(row: &str, said: bool) -> Result<(), Fail> {
    if said {
        return Ok(());
    }
    Err(Fail::new(format_args!("{row}")))
}

/// Ends the test where the pass doesn't say this of the text.
pub fn is_told(alloc: Global, text: &str, wanted: &str) -> Result<(), Fail> {
    right(text, says(alloc, text, wanted))
}

/// Ends the test where the pass doesn't say this of the text, or what its rows say of the text with their lines. A row has a line of the text,
/// ` | `, the one in its place, ` => `, and what is said.
pub fn are_told(alloc: Global, text: &str, wanted: &str, rows: &str) -> Result<(), Fail> {
    is_told(alloc, text, wanted)?;
    for row in rows.lines() {
        right(row, is_said(alloc, text, row))?;
    }
    Ok(())
}
