// The typing of a statement of each kind, over t (k integer key, n integer).
use crate::typing::samples::{code_of, is_key};
use case_lines::right;
use case_tables::{are_narrow, read, tables_of};
use cell_base::{SqlFault, SqlState};
use held_values::without;
use sql_tree::{Statement, Table, Typed, TypedChange, TypedInsert, TypedSelect};
use sql_types::typed;
use std::alloc::Global;
use std::test::Fail;

const TABLES: &[&str] = &["CREATE TABLE t (k integer PRIMARY KEY, n integer)"];

const STATEMENTS: &[&str] = &[
    "SELECT n FROM t WHERE k = 7",
    "INSERT INTO t VALUES (7, 1)",
    "UPDATE t SET n = 1 WHERE k = 7",
    "DELETE FROM t WHERE k = 7",
    "COMMIT",
];

// ---- the answers

fn is_selected(typed: &TypedSelect) -> bool {
    match typed.points.as_slice() {
        [point] => is_key(point, 7) && typed.items.len() == 1,
        _ => false,
    }
}

fn is_inserted(typed: &TypedInsert) -> bool {
    match typed.rows.as_slice() {
        [row] => row.len() == 2 && typed.table == 0,
        _ => false,
    }
}

fn is_updated(typed: &TypedChange) -> bool {
    is_key(&typed.point, 7) && typed.set.len() == 1 && !typed.delete
}

fn is_deleted(typed: &TypedChange) -> bool {
    is_key(&typed.point, 7) && typed.set.len() == 0 && typed.delete
}

/// Whether the typed statement is the one that was wanted of a statement of its kind.
fn is_wanted(statement: &Statement, typed: &Typed) -> bool {
    match (statement, typed) {
        (Statement::Select(_), Typed::Select(typed)) => is_selected(typed),
        (Statement::Insert(_), Typed::Insert(typed)) => is_inserted(typed),
        (Statement::Update(_), Typed::Change(typed)) => is_updated(typed),
        (Statement::Delete(_), Typed::Change(typed)) => is_deleted(typed),
        _ => false,
    }
}

/// Whether a statement without types, and that alone, has the code of those.
fn is_refused(statement: &Statement, fault: SqlFault) -> bool {
    matches!(statement, Statement::Commit) && code_of(fault) == Some(SqlState::S0A000)
}

// ---- the call

fn types(alloc: Global, statement: &Statement, tables: &[Table]) -> bool {
    if !are_narrow(tables) {
        return false;
    }
    match typed(alloc, statement, tables) {
        Ok(typed) => is_wanted(statement, &typed),
        Err(fault) => is_refused(statement, fault),
    }
}

fn types_one(alloc: Global, found: &[Statement], tables: &[Table]) -> bool {
    match found {
        [one] => types(alloc, one, tables),
        _ => false,
    }
}

fn types_text(alloc: Global, spelled: &str, tables: &[Table]) -> bool {
    match read(alloc, spelled) {
        Ok(found) => types_one(alloc, found.as_slice(), tables),
        Err(_) => false,
    }
}

fn are_typed(alloc: Global, tables: &[Table]) -> Result<(), Fail> {
    for spelled in STATEMENTS {
        right(*spelled, types_text(alloc, spelled, tables))?;
    }
    Ok(())
}

#[test]
fn types_each_kind_of_statement(rt: HostRuntime) -> Result<(), Fail> {
    let tables = tables_of(rt.alloc(), TABLES)?;
    let are_typed = are_typed(rt.alloc(), tables.as_slice());
    without(tables, are_typed)
}
