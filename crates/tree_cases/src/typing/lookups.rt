// What the typing of statements shares: tables and columns by name, WHERE, the key of a point read, and the columns that an
// expression mentions. All stands over s and t (k integer key, n integer).
use crate::typing::samples::code_of;
use case_lines::right;
use case_tables::{read, tables_of};
use cell_base::{Key, SqlState, Text, TextFault};
use expr_typing::Entry;
use held_values::without;
use sql_tree::{Delete, Expr, Statement, Table, TypedExpr};
use std::alloc::Global;
use std::test::Fail;
use typing_parts::{Marks, column_named, point_of, table_named, typed_filter};

const TABLES: &[&str] = &[
    "CREATE TABLE s (k integer PRIMARY KEY, n integer)",
    "CREATE TABLE t (k integer PRIMARY KEY, n integer)",
];

// ---- names

fn table_number(tables: &[Table], name: &Text) -> Result<u32, SqlState> {
    if tables.len() > 64 {
        return Err(SqlState::S54000);
    }
    Ok(table_named(tables, name)?.number)
}

/// The number of the column of this name in the first table.
fn column_number(tables: &[Table], name: &Text) -> Result<u32, SqlState> {
    match tables.first() {
        Some(table) if table.columns.len() <= 32 => {
            Ok(column_named(table.columns.as_slice(), name)?.number)
        }
        _ => Err(SqlState::S54000),
    }
}

/// The number of the table of this name, and of the column.
fn numbers(
    alloc: Global,
    tables: &[Table],
    name: &str,
) -> Result<(Result<u32, SqlState>, Result<u32, SqlState>), TextFault> {
    let name = Text::from_bytes(alloc, name.as_bytes())?;
    Ok((table_number(tables, &name), column_number(tables, &name)))
}

fn are_found(alloc: Global, tables: &[Table]) -> Result<(), Fail> {
    for (name, table, column) in [
        ("t", Ok(1), Err(SqlState::S42703)),
        ("n", Err(SqlState::S42P01), Ok(1)),
        ("q", Err(SqlState::S42P01), Err(SqlState::S42703)),
    ] {
        let found = numbers(alloc, tables, name)?;
        right(name, found == (table, column))?;
    }
    Ok(())
}

#[test]
fn finds_tables_and_columns(rt: HostRuntime) -> Result<(), Fail> {
    let tables = tables_of(rt.alloc(), TABLES)?;
    let are_found = are_found(rt.alloc(), tables.as_slice());
    without(tables, are_found)
}

// ---- conditions

/// What a condition comes to.
#[derive(Clone, Copy)]
enum Expected {
    /// There is none.
    Nothing,
    /// There is one.
    Something,
    /// It is `n = 7 AND -5 = k` of t: k has the point -5 and n the point 7, and both columns are mentioned.
    Points,
    Refused(SqlState),
}

const CONDITIONS: &[(&str, Expected)] = &[
    ("DELETE FROM t", Expected::Nothing),
    ("DELETE FROM t WHERE true", Expected::Something),
    ("DELETE FROM t WHERE 1", Expected::Refused(SqlState::S42804)),
    ("DELETE FROM t WHERE t.n = 7 AND -5 = t.k", Expected::Points),
];

/// Whether this is the number at which the condition asks for a column of an entry; none where it asks for none.
fn is_point(
    alloc: Global,
    expr: &TypedExpr,
    entry: u32,
    column: u32,
    expected: Option<i64>,
) -> bool {
    match point_of(alloc, Some(expr), entry, column) {
        Ok(Some(Key::Int(key))) => expected == Some(key),
        Ok(None) => expected.is_none(),
        _ => false,
    }
}

/// Whether the condition has both points, and none of another entry.
fn has_points(alloc: Global, expr: &TypedExpr) -> bool {
    is_point(alloc, expr, 1, 0, Some(-5))
        && is_point(alloc, expr, 1, 1, Some(7))
        && is_point(alloc, expr, 0, 0, None)
}

/// Whether the columns, but for the key, of a table of three that the condition mentions of t are the ones wanted.
fn mentions(alloc: Global, expr: &TypedExpr, key: u32, expected: &[u32]) -> bool {
    let Ok(mut marks) = Marks::new(alloc, 3) else {
        return false;
    };
    marks.add(expr, 1);
    match marks.columns(alloc, key) {
        Ok(columns) => columns.as_slice() == expected && marks.has(1),
        Err(_) => false,
    }
}

/// Whether the condition mentions both columns, or n alone where k is the key.
fn mentions_both(alloc: Global, expr: &TypedExpr) -> bool {
    mentions(alloc, expr, 2, &[0, 1]) && mentions(alloc, expr, 0, &[1])
}

fn is_wanted(alloc: Global, expr: Option<&TypedExpr>, expected: Expected) -> bool {
    match (expr, expected) {
        (None, Expected::Nothing) => true,
        (Some(_), Expected::Something) => true,
        (Some(expr), Expected::Points) => has_points(alloc, expr) && mentions_both(alloc, expr),
        _ => false,
    }
}

fn is_refused(code: Option<SqlState>, expected: Expected) -> bool {
    match expected {
        Expected::Refused(wanted) => code == Some(wanted),
        _ => false,
    }
}

/// Whether WHERE over a row of s and one of t comes to what is wanted.
fn filters(alloc: Global, filter: Option<&Expr>, s: &Table, t: &Table, expected: Expected) -> bool {
    if s.columns.len() > 32 || t.columns.len() > 32 {
        return false;
    }
    let scope = [
        Entry {
            name: &s.name,
            table: s,
        },
        Entry {
            name: &t.name,
            table: t,
        },
    ];
    match typed_filter(alloc, filter, &scope) {
        Ok(typed) => is_wanted(alloc, typed.as_ref(), expected),
        Err(fault) => is_refused(code_of(fault), expected),
    }
}

fn filters_of(alloc: Global, delete: &Delete, tables: &[Table], expected: Expected) -> bool {
    match tables {
        [s, t] => filters(alloc, delete.filter.as_ref(), s, t, expected),
        _ => false,
    }
}

fn filters_one(alloc: Global, found: &[Statement], tables: &[Table], expected: Expected) -> bool {
    match found {
        [Statement::Delete(delete)] => filters_of(alloc, delete, tables, expected),
        _ => false,
    }
}

fn filters_text(alloc: Global, spelled: &str, tables: &[Table], expected: Expected) -> bool {
    match read(alloc, spelled) {
        Ok(found) => filters_one(alloc, found.as_slice(), tables, expected),
        Err(_) => false,
    }
}

fn are_typed(alloc: Global, tables: &[Table]) -> Result<(), Fail> {
    for (spelled, expected) in CONDITIONS {
        right(*spelled, filters_text(alloc, spelled, tables, *expected))?;
    }
    Ok(())
}

#[test]
fn types_where(rt: HostRuntime) -> Result<(), Fail> {
    let tables = tables_of(rt.alloc(), TABLES)?;
    let are_typed = are_typed(rt.alloc(), tables.as_slice());
    without(tables, are_typed)
}
