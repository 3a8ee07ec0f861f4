// INSERT, UPDATE and DELETE over t (k integer PRIMARY KEY, a integer DEFAULT 5, b integer, CHECK (a = b)).
use crate::typing::samples::{code_of, is_constant, is_key};
use case_lines::right;
use case_tables::{are_narrow, read, tables_of};
use cell_base::SqlState;
use change_typing::{typed_delete, typed_insert, typed_update};
use held_values::without;
use sql_tree::{Delete, Insert, Statement, Table, TypedChange, TypedExpr, TypedInsert, Update};
use std::alloc::Global;
use std::test::Fail;

const TABLES: &[&str] = &[
    "CREATE TABLE t (k integer PRIMARY KEY, a integer DEFAULT 5, b integer, CHECK (a = b))",
];

/// What a change comes to.
#[derive(Clone, Copy)]
enum Expected {
    /// An INSERT of this one row; none stands for null.
    Row(Option<i64>, Option<i64>, Option<i64>),
    /// An UPDATE of b to 9 at key 3, which reads a and b for the CHECK.
    Updated,
    /// A DELETE that reads a alone, of all keys.
    Deleted,
    Refused(SqlState),
}

const CHANGES: &[(&str, Expected)] = &[
    (
        "INSERT INTO t (b, k) VALUES (8, 7)",
        Expected::Row(Some(7), Some(5), Some(8)),
    ),
    (
        "INSERT INTO t VALUES (1, 2)",
        Expected::Row(Some(1), Some(2), None),
    ),
    (
        "INSERT INTO t VALUES (1, DEFAULT, 3)",
        Expected::Row(Some(1), Some(5), Some(3)),
    ),
    (
        "INSERT INTO t (k, k) VALUES (1, 2)",
        Expected::Refused(SqlState::S42701),
    ),
    (
        "INSERT INTO t (k, a) VALUES (1)",
        Expected::Refused(SqlState::S42601),
    ),
    (
        "INSERT INTO t VALUES (1, 2, 3, 4)",
        Expected::Refused(SqlState::S42601),
    ),
    (
        "INSERT INTO t VALUES (2147483648)",
        Expected::Refused(SqlState::S22003),
    ),
    ("UPDATE t SET b = 9 WHERE k = 3", Expected::Updated),
    (
        "UPDATE t SET b = 9, b = 9 WHERE k = 3",
        Expected::Refused(SqlState::S42601),
    ),
    (
        "UPDATE t SET a = 9, k = 9 WHERE k = 3",
        Expected::Refused(SqlState::S0A000),
    ),
    ("DELETE FROM t WHERE a = 4", Expected::Deleted),
];

// ---- answers

fn is_row(row: &[TypedExpr], expected: [Option<i64>; 3]) -> bool {
    match row {
        [k, a, b] => is_constant(k, expected[0])
            && is_constant(a, expected[1])
            && is_constant(b, expected[2]),
        _ => false,
    }
}

/// Whether it is an INSERT into the first table of the one row that is wanted.
fn is_inserted(typed: &TypedInsert, expected: Expected) -> bool {
    match (typed.rows.as_slice(), expected) {
        ([row], Expected::Row(k, a, b)) => typed.table == 0 && is_row(row.as_slice(), [k, a, b]),
        _ => false,
    }
}

fn sets_b(set: &[(u32, TypedExpr)]) -> bool {
    match set {
        [(column, value)] => *column == 2 && is_constant(value, Some(9)),
        _ => false,
    }
}

fn is_update(typed: &TypedChange) -> bool {
    sets_b(typed.set.as_slice())
        && is_key(&typed.point, 3)
        && typed.mentioned.as_slice() == [1, 2].as_slice()
        && !typed.delete
}

fn is_delete(typed: &TypedChange) -> bool {
    typed.delete
        && typed.set.len() == 0
        && typed.point.is_none()
        && typed.filter.is_some()
        && typed.mentioned.as_slice() == [1].as_slice()
}

fn is_changed(typed: &TypedChange, expected: Expected) -> bool {
    match expected {
        Expected::Updated => is_update(typed),
        Expected::Deleted => is_delete(typed),
        _ => false,
    }
}

fn is_refused(code: Option<SqlState>, expected: Expected) -> bool {
    match expected {
        Expected::Refused(wanted) => code == Some(wanted),
        _ => false,
    }
}

// ---- the calls

fn inserts(alloc: Global, insert: &Insert, tables: &[Table], expected: Expected) -> bool {
    if !are_narrow(tables) {
        return false;
    }
    match typed_insert(alloc, insert, tables) {
        Ok(typed) => is_inserted(&typed, expected),
        Err(fault) => is_refused(code_of(fault), expected),
    }
}

fn updates(alloc: Global, update: &Update, tables: &[Table], expected: Expected) -> bool {
    if !are_narrow(tables) {
        return false;
    }
    match typed_update(alloc, update, tables) {
        Ok(typed) => is_changed(&typed, expected),
        Err(fault) => is_refused(code_of(fault), expected),
    }
}

fn deletes(alloc: Global, delete: &Delete, tables: &[Table], expected: Expected) -> bool {
    if !are_narrow(tables) {
        return false;
    }
    match typed_delete(alloc, delete, tables) {
        Ok(typed) => is_changed(&typed, expected),
        Err(fault) => is_refused(code_of(fault), expected),
    }
}

fn changes_one(alloc: Global, found: &[Statement], tables: &[Table], expected: Expected) -> bool {
    match found {
        [Statement::Insert(insert)] => inserts(alloc, insert, tables, expected),
        [Statement::Update(update)] => updates(alloc, update, tables, expected),
        [Statement::Delete(delete)] => deletes(alloc, delete, tables, expected),
        _ => false,
    }
}

fn changes_text(alloc: Global, spelled: &str, tables: &[Table], expected: Expected) -> bool {
    match read(alloc, spelled) {
        Ok(found) => changes_one(alloc, found.as_slice(), tables, expected),
        Err(_) => false,
    }
}

fn are_typed(alloc: Global, tables: &[Table]) -> Result<(), Fail> {
    for (spelled, expected) in CHANGES {
        right(*spelled, changes_text(alloc, spelled, tables, *expected))?;
    }
    Ok(())
}

#[test]
fn types_changes(rt: HostRuntime) -> Result<(), Fail> {
    let tables = tables_of(rt.alloc(), TABLES)?;
    let are_typed = are_typed(rt.alloc(), tables.as_slice());
    without(tables, are_typed)
}
