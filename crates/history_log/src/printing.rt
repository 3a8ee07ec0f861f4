// Prints a history.
ghost use Rattle.std.specs.Prelude.{◌≡◌, ◌↔◌, ◌++◌, ◌∷◌, [], map, decimal, All, IfOk, OnOk};
ghost use Rattle.history_log.specs.Spelling.{head_line, initial_line, event_line, order_line, lines, whole_lines, words_after};
ghost use Rattle.std.specs.List.{AllByRecursion};
ghost use Rattle.history_core.specs.Initial.{IsInitialState};
ghost use Rattle.history_log.specs.Reading.{IsU32, FitsCell, FitsValue, FitsEvent};
ghost use Rattle.history_log.specs.Log.{IsLog, IsInitialCell, IsNotWide, HasNoWide, newest};

use crate::event_lines::put_event;
use crate::puts::{put, put_cell, put_level, put_number, put_value};
use crate::version::Version;
use cell_base::{Cell, Level, Memory, Value};
use history_core::Event;
use std::alloc::Global;

/// The text of a history with an order of its transactions: of version 2, or of version 3 where rows were there from the
/// start. No value may be wide. It is a log, which `read` reads back as this history, exactly where what was there from the
/// start is an initial state.
pub fn print(
    alloc: Global,
    level: Level,
    initial: &[(Cell, Value)],
    events: &[Event],
    order: &[u32],
) -> Result<Vec<u8>, Memory>
    requires initial { All (λ x. IsNotWide x.1) initial.now }
    requires events { All HasNoWide events.now }
    ensures text { IfOk result (λ text. text.items ≡ whole_lines (lines (newest initial.now)
        (record { level = level; initial = initial.now; events = events.now; order = order.now }))) }
    ensures log { IfOk result (λ text. IsInitialState initial.now ↔ IsLog (newest initial.now)
        (record { level = level; initial = initial.now; events = events.now; order = order.now }) text.items) }
{
    let mut out = Vec::new(alloc);
    put_head(&mut out, newest(initial), level)?;
    put_initial(alloc, &mut out, initial)?;
    put_events(alloc, &mut out, events)?;
    put_order(&mut out, order)?;
    put(&mut out, b"end\n")?;
    Ok(out)
}

/// The version that says it: 2, or 3 where rows were there from the start.
fn newest(initial: &[(Cell, Value)]) -> Version
    ensures { result ≡ newest initial.now }
{
    if initial.is_empty() {
        Version::Two
    } else {
        Version::Three
    }
}

/// The head.
fn put_head(out: &mut Vec<u8>, version: Version, level: Level) -> Result<(), Memory>
    ensures { OnOk result (out.new.items ≡ out.old.items ++ (head_line version level ++ 10 ∷ [])) }
{
    put(out, version.start())?;
    put_level(out, level)?;
    put(out, b"\n")
}

/// The line of each cell of the initial state.
fn put_initial(alloc: Global, out: &mut Vec<u8>, rows: &[(Cell, Value)]) -> Result<(), Memory>
    requires { All (λ x. IsNotWide x.1) rows.now }
    ensures text { OnOk result (out.new.items ≡ out.old.items ++ whole_lines (map initial_line rows.now)) }
    ensures fits { OnOk result (AllByRecursion IsInitialCell rows.now) }
{
    for row in rows {
        put_row(alloc, out, &row.0, &row.1)?;
        put(out, b"\n")?;
    }
    Ok(())
}

/// A cell of the initial state.
fn put_row(alloc: Global, out: &mut Vec<u8>, cell: &Cell, value: &Value) -> Result<(), Memory>
    requires { IsNotWide value.now }
    ensures text { OnOk result (out.new.items ≡ out.old.items ++ initial_line (cell.now, value.now)) }
    ensures fits { OnOk result (FitsCell cell.now × FitsValue value.now) }
{
    put(out, b"initial ")?;
    put_cell(alloc, out, cell)?;
    put(out, b" ")?;
    put_value(alloc, out, value)
}

/// The line of each event.
fn put_events(alloc: Global, out: &mut Vec<u8>, events: &[Event]) -> Result<(), Memory>
    requires { All HasNoWide events.now }
    ensures text { OnOk result (out.new.items ≡ out.old.items ++ whole_lines (map (event_line Version.Two) events.now)) }
    ensures fits { OnOk result (AllByRecursion FitsEvent events.now) }
{
    for event in events {
        put_event(alloc, out, event)?;
        put(out, b"\n")?;
    }
    Ok(())
}

/// The order.
fn put_order(out: &mut Vec<u8>, order: &[u32]) -> Result<(), Memory>
    ensures text { OnOk result (out.new.items ≡ out.old.items ++ (order_line order.now ++ 10 ∷ [])) }
    ensures fits { OnOk result (AllByRecursion IsU32 order.now) }
{
    put(out, b"order")?;
    put_numbers(out, order)?;
    put(out, b"\n")
}

/// Numbers, each after a blank.
fn put_numbers(out: &mut Vec<u8>, numbers: &[u32]) -> Result<(), Memory>
    ensures text { OnOk result (out.new.items ≡ out.old.items ++ words_after (map decimal numbers.now)) }
    ensures fits { OnOk result (AllByRecursion IsU32 numbers.now) }
{
    for n in numbers {
        put(out, b" ")?;
        put_number(out, *n)?;
    }
    Ok(())
}
