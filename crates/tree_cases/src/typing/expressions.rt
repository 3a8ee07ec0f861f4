// Conditions over one row of t (n integer), and constants of a type.
use crate::typing::samples::{code_of, is_column, is_constant};
use case_lines::right;
use case_tables::{read, tables_of};
use cell_base::{SqlState, SqlType, Value};
use expr_typing::{Entry, typed_constant, typed_flag};
use held_values::without;
use sql_tree::{Expr, Item, Op, Statement, Table, TypedExpr, TypedNode};
use std::alloc::Global;
use std::test::Fail;

const TABLES: &[&str] = &["CREATE TABLE t (n integer PRIMARY KEY)"];

// ---- conditions

fn are_integers(left: &TypedExpr, right: &TypedExpr) -> bool {
    left.kind == SqlType::Integer && right.kind == SqlType::Integer
}

/// Whether it is a condition that compares column 0 of entry 0 with the integer 7.
fn is_seven(expr: &TypedExpr) -> bool {
    match &expr.node {
        TypedNode::Binary(Op::Eq, left, right) => {
            expr.kind == SqlType::Boolean
                && are_integers(left.get(), right.get())
                && is_column(left.get(), 0, 0)
                && is_constant(right.get(), Some(7))
        }
        _ => false,
    }
}

/// Whether a condition over a row of the table compares n with 7.
fn compares(alloc: Global, filter: Option<&Expr>, table: &Table) -> bool {
    let Some(expr) = filter else {
        return false;
    };
    if table.columns.len() > 32 {
        return false;
    }
    let scope = [Entry {
        name: &table.name,
        table,
    }];
    match typed_flag(alloc, expr, &scope) {
        Ok(typed) => is_seven(&typed),
        Err(_) => false,
    }
}

fn compares_one(alloc: Global, found: &[Statement], tables: &[Table]) -> bool {
    match (found, tables) {
        ([Statement::Delete(delete)], [table]) => { compares(alloc, delete.filter.as_ref(), table) }
        _ => false,
    }
}

fn compares_text(alloc: Global, spelled: &str, tables: &[Table]) -> bool {
    match read(alloc, spelled) {
        Ok(found) => compares_one(alloc, found.as_slice(), tables),
        Err(_) => false,
    }
}

#[test]
fn types_a_condition(rt: HostRuntime) -> Result<(), Fail> {
    let tables = tables_of(rt.alloc(), TABLES)?;
    let holds = compares_text(
        rt.alloc(),
        "DELETE FROM t WHERE n = ' 7 '",
        tables.as_slice(),
    );
    right("n = ' 7 '", without(tables, holds))
}

// ---- constants

/// What a constant comes to.
#[derive(Clone, Copy)]
enum Expected {
    Number(i64),
    Text(&'static str),
    Refused(SqlState),
}

/// The item of each, as a value of the type.
const CONSTANTS: &[(&str, SqlType, Expected)] = &[
    ("SELECT 7", SqlType::Integer, Expected::Number(7)),
    ("SELECT 'abc  '", SqlType::Varchar(3), Expected::Text("abc")),
    (
        "SELECT 2147483648",
        SqlType::Integer,
        Expected::Refused(SqlState::S22003),
    ),
];

fn is_value(value: &Value, expected: Expected) -> bool {
    match (value, expected) {
        (Value::Int(number), Expected::Number(wanted)) => *number == wanted,
        (Value::Text(text), Expected::Text(wanted)) => text.as_str() == wanted,
        _ => false,
    }
}

fn is_refused(code: Option<SqlState>, expected: Expected) -> bool {
    match expected {
        Expected::Refused(wanted) => code == Some(wanted),
        _ => false,
    }
}

/// Whether a constant comes to what is wanted as a value of this type.
fn is_constant_of(alloc: Global, expr: &Expr, kind: SqlType, expected: Expected) -> bool {
    match typed_constant(alloc, expr, kind) {
        Ok(value) => is_value(&value, expected),
        Err(fault) => is_refused(code_of(fault), expected),
    }
}

fn types_one(alloc: Global, found: &[Statement], kind: SqlType, expected: Expected) -> bool {
    match found {
        [Statement::Select(select)] => match select.items.as_slice() {
            [Item::Expr(expr, None)] => is_constant_of(alloc, expr, kind, expected),
            _ => false,
        },
        _ => false,
    }
}

fn types_text(alloc: Global, spelled: &str, kind: SqlType, expected: Expected) -> bool {
    match read(alloc, spelled) {
        Ok(found) => types_one(alloc, found.as_slice(), kind, expected),
        Err(_) => false,
    }
}

#[test]
fn types_constants(rt: HostRuntime) -> Result<(), Fail> {
    for (spelled, kind, expected) in CONSTANTS {
        right(*spelled, types_text(rt.alloc(), spelled, *kind, *expected))?;
    }
    Ok(())
}
