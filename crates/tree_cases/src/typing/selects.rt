// SELECT over t (k integer key, v text, n integer) and u (k integer key, v text).
use crate::typing::samples::{is_column, is_key};
use case_lines::right;
use case_tables::{are_narrow, read, tables_of};
use cell_base::{Items, SqlFault, SqlState};
use held_values::without;
use select_typing::typed_select;
use sql_tree::{Select, Statement, Table, TypedSelect};
use std::alloc::Global;
use std::test::Fail;

const TABLES: &[&str] = &[
    "CREATE TABLE t (k integer PRIMARY KEY, v text, n integer)",
    "CREATE TABLE u (k integer PRIMARY KEY, v text)",
];

/// What a SELECT comes to.
#[derive(Clone, Copy)]
enum Expected {
    Joined,
    ScannedTwice,
    Aggregate,
    Refused(SqlState),
}

const SELECTS: &[(&str, Expected)] = &[
    (
        "SELECT *, t.v AS w FROM t JOIN u ON t.k = u.k WHERE t.k = 7 ORDER BY 1 DESC, w LIMIT 5 OFFSET 2",
        Expected::Joined,
    ),
    (
        "SELECT 1 FROM t AS a, t AS b WHERE a.k = 7",
        Expected::ScannedTwice,
    ),
    (
        "SELECT count(*), sum(n) FROM t WHERE k = 7",
        Expected::Aggregate,
    ),
    (
        "SELECT count(*), sum(n), v FROM t WHERE k = 7",
        Expected::Refused(SqlState::S42803),
    ),
    (
        "SELECT nosuch FROM t WHERE k = 7",
        Expected::Refused(SqlState::S42703),
    ),
];

// ---- answers

fn are(numbers: &Items<u32>, expected: &[u32]) -> bool {
    numbers.as_slice() == expected
}

fn are_joined_columns(typed: &TypedSelect) -> bool {
    match typed.items.as_slice() {
        [a, b, c, d, e, f] => {
            is_column(a, 0, 0)
                && is_column(b, 0, 1)
                && is_column(c, 0, 2)
                && is_column(d, 1, 0)
                && is_column(e, 1, 1)
                && is_column(f, 0, 1)
        }
        _ => false,
    }
}

fn has_last_name(typed: &TypedSelect, name: &str) -> bool {
    match typed.fields.as_slice() {
        [.., last] => last.name.as_str() == name,
        [] => false,
    }
}

fn is_joined_order(typed: &TypedSelect) -> bool {
    match typed.order.as_slice() {
        [(first, descending), (second, ascending)] => {
            is_column(first, 0, 0) && *descending && is_column(second, 0, 1) && !*ascending
        }
        _ => false,
    }
}

fn reads_joined(typed: &TypedSelect) -> bool {
    match (typed.points.as_slice(), typed.mentioned.as_slice()) {
        ([first, second], [t, u]) => {
            is_key(first, 7) && second.is_none() && are(&t, &[1, 2]) && are(&u, &[1])
        }
        _ => false,
    }
}

fn is_joined(typed: &TypedSelect) -> bool {
    are_joined_columns(typed)
        && has_last_name(typed, "w")
        && is_joined_order(typed)
        && reads_joined(typed)
        && are(&typed.tables, &[0, 1])
        && typed.conditions.len() == 2
        && !typed.aggregate
        && typed.limit == Some(5)
        && typed.offset == 2
}

fn reads_no_key(typed: &TypedSelect) -> bool {
    match typed.points.as_slice() {
        [first, second] => {
            first.is_none() && second.is_none() && has_last_name(typed, "?column?")
        }
        _ => false,
    }
}

fn reads_aggregates(typed: &TypedSelect) -> bool {
    match (typed.points.as_slice(), typed.mentioned.as_slice()) {
        ([point], [columns]) => is_key(point, 7) && are(&columns, &[2]),
        _ => false,
    }
}

fn is_aggregate(typed: &TypedSelect) -> bool {
    has_last_name(typed, "sum")
        && reads_aggregates(typed)
        && typed.aggregate
        && typed.limit.is_none()
        && typed.offset == 0
}

fn is_wanted(typed: &TypedSelect, expected: Expected) -> bool {
    match expected {
        Expected::Joined => is_joined(typed),
        Expected::ScannedTwice => reads_no_key(typed),
        Expected::Aggregate => is_aggregate(typed),
        Expected::Refused(_) => false,
    }
}

fn is_refused(fault: SqlFault, expected: Expected) -> bool {
    match expected {
        Expected::Refused(code) => fault == SqlFault::State(code),
        _ => false,
    }
}

// ---- the call

fn types(alloc: Global, select: &Select, tables: &[Table], expected: Expected) -> bool {
    if !are_narrow(tables) {
        return false;
    }
    match typed_select(alloc, select, tables) {
        Ok(typed) => is_wanted(&typed, expected),
        Err(fault) => is_refused(fault, expected),
    }
}

fn types_one(alloc: Global, found: &[Statement], tables: &[Table], expected: Expected) -> bool {
    match found {
        [Statement::Select(select)] => types(alloc, select, tables, expected),
        _ => false,
    }
}

fn types_text(alloc: Global, spelled: &str, tables: &[Table], expected: Expected) -> bool {
    match read(alloc, spelled) {
        Ok(found) => types_one(alloc, found.as_slice(), tables, expected),
        Err(_) => false,
    }
}

fn are_typed(alloc: Global, tables: &[Table]) -> Result<(), Fail> {
    for (spelled, expected) in SELECTS {
        right(*spelled, types_text(alloc, spelled, tables, *expected))?;
    }
    Ok(())
}

#[test]
fn types_selects(rt: HostRuntime) -> Result<(), Fail> {
    let tables = tables_of(rt.alloc(), TABLES)?;
    let are_typed = are_typed(rt.alloc(), tables.as_slice());
    without(tables, are_typed)
}
