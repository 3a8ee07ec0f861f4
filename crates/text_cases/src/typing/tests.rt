// What no clause says: that the rules of typing are SQL's, by statements typed by hand.
use crate::typing::cases::{
    CHANGES, CONDITIONS, DEFINITIONS, INSERTS, LONG, Long, NAMES, OPERATORS, ORDERS, POINTS,
    QUERIES, SPACED, TABLES,
};
use crate::typing::shown::{WithTypes, text};
use case_lines::{Line, Shown, fault_shown, is, is_of_long, is_remark, named};
use case_tables::{are_narrow, read, tables_of};
use cell_base::{Items, Memory, SqlFault};
use held_values::without;
use sql_statements::ParseFault;
use sql_tree::{Statement, Table};
use sql_types::typed;
use std::alloc::{AllocError, Global};
use std::test::Fail;
use table_schema::build;

// ---- what a text comes to

/// The line of what was made, or its code.
fn shown<T: Shown<WithTypes> + Drop>(
    alloc: Global,
    made: Result<T, SqlFault>,
) -> Result<String, AllocError> {
    match made {
        Ok(tree) => text(alloc, &tree),
        Err(fault) => fault_shown(alloc, fault),
    }
}

fn typed_as(alloc: Global, found: &Statement, tables: &[Table]) -> Result<String, AllocError> {
    if !are_narrow(tables) {
        return String::from_str(alloc, "wide tables");
    }
    shown(alloc, typed(alloc, found, tables))
}

fn answer(alloc: Global, found: &[Statement], tables: &[Table]) -> Result<String, AllocError> {
    match found {
        [Statement::Create(create)] => shown(alloc, build(alloc, create)),
        [one] => typed_as(alloc, one, tables),
        _ => String::from_str(alloc, "not one statement"),
    }
}

fn answer_of(
    alloc: Global,
    reading: Result<Items<Statement>, ParseFault>,
    tables: &[Table],
) -> Result<String, AllocError> {
    match reading {
        Ok(found) => answer(alloc, found.as_slice(), tables),
        Err(fault) => named(alloc, &fault.state()),
    }
}

/// What the one statement of a text comes to over the tables: its typed form as one line, or its code.
fn outcome(alloc: Global, spelled: &str, tables: &[Table]) -> Result<String, Memory> {
    Ok(answer_of(alloc, read(alloc, spelled), tables)?)
}

// ---- the cases

fn is_typed(alloc: Global, tables: &[Table], line: &str) -> Result<(), Fail> {
    match line.split_once(" => ") {
        Some((spelled, want)) => is(spelled, outcome(alloc, spelled, tables), want),
        None => is_remark(line),
    }
}

fn are_typed_over(alloc: Global, tables: &[Table], cases: &str) -> Result<(), Fail> {
    for line in cases.lines() {
        is_typed(alloc, tables, line)?;
    }
    Ok(())
}

/// Whether each text of the table comes to what the table says.
fn are_typed(alloc: Global, cases: &str) -> Result<(), Fail> {
    let tables = tables_of(alloc, TABLES)?;
    let are_typed = are_typed_over(alloc, tables.as_slice(), cases);
    without(tables, are_typed)
}

#[test]
fn types_queries(rt: HostRuntime) -> Result<(), Fail> {
    are_typed(rt.alloc(), QUERIES)
}

#[test]
fn finds_names(rt: HostRuntime) -> Result<(), Fail> {
    are_typed(rt.alloc(), NAMES)
}

#[test]
fn types_operators(rt: HostRuntime) -> Result<(), Fail> {
    are_typed(rt.alloc(), OPERATORS)
}

fn spaced_are_typed(alloc: Global, tables: &[Table]) -> Result<(), Fail> {
    for (spelled, want) in SPACED {
        is(*spelled, outcome(alloc, spelled, tables), want)?;
    }
    Ok(())
}

#[test]
fn types_spaced_texts(rt: HostRuntime) -> Result<(), Fail> {
    let tables = tables_of(rt.alloc(), TABLES)?;
    let are_typed = spaced_are_typed(rt.alloc(), tables.as_slice());
    without(tables, are_typed)
}

#[test]
fn types_conditions(rt: HostRuntime) -> Result<(), Fail> {
    are_typed(rt.alloc(), CONDITIONS)
}

#[test]
fn orders_rows(rt: HostRuntime) -> Result<(), Fail> {
    are_typed(rt.alloc(), ORDERS)
}

#[test]
fn finds_points(rt: HostRuntime) -> Result<(), Fail> {
    are_typed(rt.alloc(), POINTS)
}

#[test]
fn types_inserts(rt: HostRuntime) -> Result<(), Fail> {
    are_typed(rt.alloc(), INSERTS)
}

#[test]
fn types_changes(rt: HostRuntime) -> Result<(), Fail> {
    are_typed(rt.alloc(), CHANGES)
}

#[test]
fn builds_tables(rt: HostRuntime) -> Result<(), Fail> {
    are_typed(rt.alloc(), DEFINITIONS)
}

/// A text with one part so many times in it.
fn long_text(alloc: Global, long: &Long) -> Result<String, AllocError> {
    let (first, part, times, last, _) = *long;
    let mut line = Line::new(alloc);
    line.word(first);
    line.times(part, times);
    line.word(last);
    line.whole()
}

fn long_outcome(alloc: Global, long: &Long, tables: &[Table]) -> Result<String, Memory> {
    let spelled = long_text(alloc, long)?;
    let given = outcome(alloc, spelled.as_str(), tables);
    without(spelled, given)
}

fn is_limited(alloc: Global, long: &Long, tables: &[Table]) -> Result<(), Fail> {
    let (first, part, times, _, want) = *long;
    is_of_long(first, part, times, long_outcome(alloc, long, tables), want)
}

fn are_limited(alloc: Global, tables: &[Table]) -> Result<(), Fail> {
    for long in LONG {
        is_limited(alloc, long, tables)?;
    }
    Ok(())
}

#[test]
fn keeps_its_limits(rt: HostRuntime) -> Result<(), Fail> {
    let tables = tables_of(rt.alloc(), TABLES)?;
    let are_limited = are_limited(rt.alloc(), tables.as_slice());
    without(tables, are_limited)
}
