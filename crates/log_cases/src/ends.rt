// The lines before and after the events: initial lines, and the order.
use crate::events::is_shown;
use cell_base::Memory;
use held_values::without;
use history_log::read;
use std::alloc::Global;
use std::fmt::Display;

// A line in the place of the order, ` => `, and what is found of the text: the order, or its fault.
const ORDERS: &str = r"
order => Items { items: [] }
order 0 => Items { items: [0] }
order 10 9 => Items { items: [10, 9] }
order 0 429496729 4294967290 429496730 4294967295 => Items { items: [0, 429496729, 4294967290, 429496730, 4294967295] }
order 4294967295 1000000000 999999999 => Items { items: [4294967295, 1000000000, 999999999] }
order 4294967296 => log fault: line 2
order 0 4294967296 => log fault: line 2
order 4294967296 0 => log fault: line 2
order 0 18446744073709551617 => log fault: line 2
order 007 => log fault: line 2
order 0 00 => log fault: line 2
order 00 1 => log fault: line 2
order 0 -0 => log fault: line 2
order 0 1a => log fault: line 2
order 0a 1 => log fault: line 2
order 0 x31 => log fault: line 2
order  => log fault: line 2
order 0  => log fault: line 2
order  0 => log fault: line 2
order 0  1 => log fault: line 2
order 4294967295  => log fault: line 2
orders 0 => log fault: line 2
Order 0 => log fault: line 2
order0 => log fault: line 2
";

// The initial lines of a text of version 3, ` => `, and what is found of it: the initial state, or its fault. An empty line stands after each but
// the last.
const INITIALS: &str = r#"initial p.0.5 true
initial f.0.5.1 10 => Items { items: [(Presence(0, Int(5)), Flag(true)), (Field(0, Int(5), 1), Int(10))] }

initial p.0.-3 true
initial p.1.x61 true
initial f.0.-3.1 -1
initial f.1.x61.2 x62 => Items { items: [(Presence(0, Int(-3)), Flag(true)), (Presence(1, Text(Text { text: "a" })), Flag(true)), (Field(0, Int(-3), 1), Int(-1)), (Field(1, Text(Text { text: "a" }), 2), Text(Text { text: "b" }))] }

initial p.4294967295.4294967295 true
initial p.4294967295.4294967296 true
initial f.4294967295.4294967296.4294967290 4294967296 => Items { items: [(Presence(4294967295, Int(4294967295)), Flag(true)), (Presence(4294967295, Int(4294967296)), Flag(true)), (Field(4294967295, Int(4294967296), 4294967290), Int(4294967296))] }

initial p.0.9 true
initial p.0.10 true => Items { items: [(Presence(0, Int(9)), Flag(true)), (Presence(0, Int(10)), Flag(true))] }

initial p.0.10 true
initial p.0.x39 true => Items { items: [(Presence(0, Int(10)), Flag(true)), (Presence(0, Text(Text { text: "9" })), Flag(true))] }

initial p.0.10 true
initial p.0.9 true => log fault: line 3

initial p.0.x39 true
initial p.0.10 true => log fault: line 3

initial p.0.4294967296 true
initial p.0.4294967295 true => log fault: line 3

initial p.0.5.1 true => log fault: line 2

initial p..5 true => log fault: line 2

initial p.0. true => log fault: line 2

initial p.0.007 true => log fault: line 2

initial p.0.5 true  => log fault: line 2

initial p.0.5  true => log fault: line 2

initial  p.0.5 true => log fault: line 2

initial p.0.5 => log fault: line 2

initial p.0.5 1 => log fault: line 2

Initial p.0.5 true => log fault: line 2

initial p.4294967296.5 true => log fault: line 2

initial p.0.5 true
initial f.0.5 10 => log fault: line 3

initial p.0.5 true
initial f.0.5. 10 => log fault: line 3

initial p.0.5 true
initial f.0.5.1.2 10 => log fault: line 3

initial p.0.5 true
initial f.0.5.4294967296 10 => log fault: line 3

initial p.0.5 true
initial f.0.5.1 007 => log fault: line 3

initial p.0.5 true
initial f.0.5.1 10a => log fault: line 3

initial p.0.5 true
initial f.0.5.1 unset => log fault: line 3"#;

// Whether this is printed of what was found.
fn is_printed(alloc: Global, found: &impl Display, wanted: &str) -> bool {
    match format!(in alloc; "{found}") {
        Ok(line) => line.as_str() == wanted,
        Err(_) => false,
    }
}

// Whether the order of the text is this one, or its fault.
fn has_order(alloc: Global, text: &[u8], wanted: &str) -> bool {
    match read(alloc, text) {
        Ok(trace) => {
            let is_so = is_shown(alloc, &trace.order, wanted);
            without(trace, is_so)
        }
        Err(fault) => is_printed(alloc, &fault, wanted),
    }
}

// Whether the initial state of the text is this one, or its fault.
fn has_rows(alloc: Global, text: &[u8], wanted: &str) -> bool {
    match read(alloc, text) {
        Ok(trace) => {
            let is_so = is_shown(alloc, &trace.initial, wanted);
            without(trace, is_so)
        }
        Err(fault) => is_printed(alloc, &fault, wanted),
    }
}

// Whether a text without events that has this line in the place of its order comes to this.
fn ends(alloc: Global, line: &str, wanted: &str) -> bool {
    match format!(in alloc; "monkey-log 2 cc\n{line}\nend\n") {
        Ok(text) => has_order(alloc, text.as_bytes(), wanted),
        Err(_) => false,
    }
}

// Whether a text without events that has these initial lines comes to this.
fn begins(alloc: Global, lines: &str, wanted: &str) -> bool {
    match format!(in alloc; "monkey-log 3 cc\n{lines}\norder 0\nend\n") {
        Ok(text) => has_rows(alloc, text.as_bytes(), wanted),
        Err(_) => false,
    }
}

// Whether the row is right, or empty.
fn is_order(alloc: Global, row: &str) -> bool {
    match row.split_once(" => ") {
        Some((line, wanted)) => ends(alloc, line, wanted),
        None => row.is_empty(),
    }
}

// Whether the row is right.
fn is_initial(alloc: Global, row: &str) -> bool {
    match row.split_once(" => ") {
        Some((lines, wanted)) => begins(alloc, lines, wanted),
        None => false,
    }
}

#[test]
fn orders(rt: HostRuntime) -> Result<(), Memory> {
    for row in ORDERS.lines() {
        assert!(&rt; is_order(rt.alloc(), row), "{row}");
    }
    Ok(())
}

#[test]
fn initial_lines(rt: HostRuntime) -> Result<(), Memory> {
    for row in INITIALS.split("\n\n") {
        assert!(&rt; is_initial(rt.alloc(), row), "{row}");
    }
    Ok(())
}
