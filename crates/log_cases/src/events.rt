// Lines of events: by themselves, and inside a whole text.
use crate::lines::{cells, forms, integers, keys, kinds, numbers, values};
use cell_base::{Level, Memory};
use held_values::without;
use history_log::{LogFault, Misread, Version, read, read_event};
use std::alloc::Global;
use std::fmt::Debug;
use std::test::Fail;

/// Whether what was found is shown so.
pub fn is_shown(alloc: Global, found: &impl Debug, wanted: &str) -> bool {
    match format!(in alloc; "{found:?}") {
        Ok(shown) => shown.as_str() == wanted,
        Err(_) => false,
    }
}

// Whether the line by itself is this event, in a text of this version whose head has this level; or none, where none is wanted.
fn reads(alloc: Global, version: Version, head: Level, line: &str, event: &str) -> bool {
    match read_event(alloc, version, head, line.as_bytes()) {
        Ok(found) => {
            let is_so = is_shown(alloc, &found, event);
            without(found, is_so)
        }
        Err(fault) => fault == Misread::Form && event == "none",
    }
}

// Whether the third event of the text, between two others, is shown so.
fn is_third<E: Debug>(alloc: Global, events: &[E], event: &str) -> bool {
    match events {
        [_, found, _] => is_shown(alloc, found, event),
        _ => false,
    }
}

// Whether the third line of the text is this event, between two others; or the first that isn't of its form, where none is wanted.
fn has_third(alloc: Global, text: &[u8], event: &str) -> bool {
    match read(alloc, text) {
        Ok(trace) => {
            let is_so = is_third(alloc, trace.events.as_slice(), event);
            without(trace, is_so)
        }
        Err(fault) => fault == LogFault::Line(3) && event == "none",
    }
}

// Whether the line is this event as the third line of a whole text.
fn stands(alloc: Global, line: &str, event: &str) -> bool {
    match format!(in alloc; "monkey-log 2 cc\nopen 1\n{line}\nclose 1\norder 0\nend\n") {
        Ok(text) => has_third(alloc, text.as_bytes(), event),
        Err(_) => false,
    }
}

// Where a line is read.
#[derive(Clone, Copy)]
enum Place {
    ByItself,
    InText,
}

// Whether the line is this event, or none.
fn is_event(alloc: Global, place: Place, line: &str, event: &str) -> bool {
    match place {
        Place::ByItself => reads(alloc, Version::Two, Level::Rc, line, event),
        Place::InText => stands(alloc, line, event),
    }
}

// Ends the test where the row isn't right, or is none.
fn take_row(alloc: Global, place: Place, row: &str) -> Result<(), Fail> {
    let is_right = match row.split_once(" => ") {
        Some((line, event)) => is_event(alloc, place, line, event),
        None => row.is_empty(),
    };
    if is_right {
        return Ok(());
    }
    Err(Fail::new(format_args!("{row}")))
}

// Ends the test at the first row of the table that isn't right.
fn take_table(alloc: Global, place: Place, table: &str) -> Result<(), Fail> {
    for row in table.lines() {
        take_row(alloc, place, row)?;
    }
    Ok(())
}

fn take_tables(alloc: Global, place: Place) -> Result<(), Fail> {
    let tables = [
        kinds(),
        numbers(),
        integers(),
        values(),
        keys(),
        cells(),
        forms(),
    ];
    for table in tables {
        take_table(alloc, place, table)?;
    }
    Ok(())
}

#[test]
fn lines_by_themselves(rt: HostRuntime) -> Result<(), Fail> {
    take_tables(rt.alloc(), Place::ByItself)
}

#[test]
fn lines_of_a_text(rt: HostRuntime) -> Result<(), Fail> {
    take_tables(rt.alloc(), Place::InText)
}

// Lines of the other versions, and of a level of the head; and lines of a text that are no event's, with `none`.
const VERSIONS: &[(Version, Level, &str, &str)] = &[
    (
        Version::One,
        Level::Rc,
        "begin 1",
        "Begin { session: 1, level: Rc }",
    ),
    (
        Version::One,
        Level::Ra,
        "begin 1",
        "Begin { session: 1, level: Ra }",
    ),
    (
        Version::One,
        Level::Cc,
        "begin 4294967295",
        "Begin { session: 4294967295, level: Cc }",
    ),
    (Version::One, Level::Cc, "begin 4294967296", "none"),
    (Version::One, Level::Cc, "begin 01", "none"),
    (Version::One, Level::Cc, "begin 1 ", "none"),
    (Version::One, Level::Rc, "begin 1 rc", "none"),
    (Version::Two, Level::Rc, "begin 1", "none"),
    (
        Version::Two,
        Level::Cc,
        "begin 1 rc",
        "Begin { session: 1, level: Rc }",
    ),
    (
        Version::Three,
        Level::Cc,
        "begin 1 ra",
        "Begin { session: 1, level: Ra }",
    ),
    (Version::Three, Level::Cc, "begin 1", "none"),
    (
        Version::One,
        Level::Cc,
        "look 1 2",
        "Look { session: 1, tables: 2 }",
    ),
    (
        Version::Three,
        Level::Cc,
        "read 1 p.0.5 0 1 4294967295 true",
        "Read { session: 1, cell: Presence(0, Int(5)), source: 0, count: 1, word: 4294967295, value: Flag(true) }",
    ),
    (Version::Three, Level::Cc, "initial p.0.1 true", "none"),
    (Version::Two, Level::Cc, "order 0", "none"),
    (Version::Two, Level::Cc, "order", "none"),
    (Version::Two, Level::Cc, "end", "none"),
    (Version::Two, Level::Cc, "open 1\n", "none"),
];

#[test]
fn lines_of_each_version(rt: HostRuntime) -> Result<(), Memory> {
    for (version, head, line, event) in VERSIONS {
        assert!(&rt; reads(rt.alloc(), *version, *head, line, event), "{line}");
    }
    Ok(())
}
