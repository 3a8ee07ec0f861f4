// The table of a CREATE TABLE or its code, and the list of tables.
use crate::typing::samples::code_of;
use case_lines::{right, text_of};
use case_tables::read;
use cell_base::{Items, Memory, SqlState, Value};
use held_values::without;
use sql_tree::{CreateTable, Statement, Table};
use std::alloc::Global;
use std::test::Fail;
use table_schema::{Catalogue, build};

/// What a CREATE TABLE comes to.
#[derive(Clone, Copy)]
enum Expected {
    Built,
    /// A table of two columns with one CHECK, whose key is the first column. That is never null, and the other may be, and is true
    /// by default.
    Sample,
    Refused(SqlState),
}

const DEFINITIONS: &[(&str, Expected)] = &[
    (
        "CREATE TABLE s (k bigint PRIMARY KEY, k text)",
        Expected::Refused(SqlState::S42701),
    ),
    (
        "CREATE TABLE s (k bigint PRIMARY KEY, v varchar(65537))",
        Expected::Refused(SqlState::S54000),
    ),
    (
        "CREATE TABLE s (k bigint PRIMARY KEY, v varchar(65536))",
        Expected::Built,
    ),
    (
        "CREATE TABLE s (k bigint PRIMARY KEY, v integer DEFAULT 'x')",
        Expected::Refused(SqlState::S22P02),
    ),
    (
        "CREATE TABLE s (k bigint PRIMARY KEY, v integer DEFAULT 2147483648)",
        Expected::Refused(SqlState::S22003),
    ),
    (
        "CREATE TABLE s (k bigint PRIMARY KEY, v text DEFAULT true)",
        Expected::Refused(SqlState::S42804),
    ),
    // keys
    (
        "CREATE TABLE s (k bigint, v boolean)",
        Expected::Refused(SqlState::S0A000),
    ),
    (
        "CREATE TABLE s (k bigint, v boolean, PRIMARY KEY (k))",
        Expected::Built,
    ),
    (
        "CREATE TABLE s (k bigint, v boolean, PRIMARY KEY (q))",
        Expected::Refused(SqlState::S42703),
    ),
    (
        "CREATE TABLE s (k bigint, v boolean, PRIMARY KEY (v))",
        Expected::Refused(SqlState::S0A000),
    ),
    (
        "CREATE TABLE s (k bigint PRIMARY KEY, v bigint, PRIMARY KEY (k))",
        Expected::Refused(SqlState::S0A000),
    ),
    // CHECKs
    (
        "CREATE TABLE s (k varchar(3) PRIMARY KEY, b boolean DEFAULT true, CHECK (k <> 'no'))",
        Expected::Sample,
    ),
    (
        "CREATE TABLE s (k varchar(3) PRIMARY KEY, b boolean DEFAULT true, CHECK (q <> 'no'))",
        Expected::Refused(SqlState::S42703),
    ),
    (
        "CREATE TABLE s (k varchar(3) PRIMARY KEY, b boolean DEFAULT true, CHECK (k + 'no'))",
        Expected::Refused(SqlState::S42883),
    ),
];

fn is_sample(table: &Table) -> bool {
    match table.columns.as_slice() {
        [k, b] => {
            k.not_null
                && !b.not_null
                && b.default.is_same(&Value::Flag(true))
                && table.checks.len() == 1
                && table.key == 0
        }
        _ => false,
    }
}

fn is_wanted(table: &Table, expected: Expected) -> bool {
    match expected {
        Expected::Built => true,
        Expected::Sample => is_sample(table),
        Expected::Refused(_) => false,
    }
}

fn is_refused(code: Option<SqlState>, expected: Expected) -> bool {
    match expected {
        Expected::Refused(wanted) => code == Some(wanted),
        _ => false,
    }
}

fn builds(alloc: Global, create: &CreateTable, expected: Expected) -> bool {
    match build(alloc, create) {
        Ok(table) => is_wanted(&table, expected),
        Err(fault) => is_refused(code_of(fault), expected),
    }
}

fn builds_one(alloc: Global, found: &[Statement], expected: Expected) -> bool {
    match found {
        [Statement::Create(create)] => builds(alloc, create, expected),
        _ => false,
    }
}

fn builds_text(alloc: Global, spelled: &str, expected: Expected) -> bool {
    match read(alloc, spelled) {
        Ok(found) => builds_one(alloc, found.as_slice(), expected),
        Err(_) => false,
    }
}

#[test]
fn builds_tables(rt: HostRuntime) -> Result<(), Fail> {
    for (spelled, expected) in DEFINITIONS {
        right(*spelled, builds_text(rt.alloc(), spelled, *expected))?;
    }
    Ok(())
}

// ---- the list of tables

fn bare(alloc: Global, name: &str) -> Result<Table, Memory> {
    Ok(Table {
        name: text_of(alloc, name.as_bytes())?,
        columns: Items::new(alloc),
        key: 0,
        checks: Items::new(alloc),
    })
}

/// Puts the table after the others, where it is new and there is room for it.
fn define(catalogue: &mut Catalogue, table: Table) -> Result<(), Memory> {
    if catalogue.tables().len() >= 64 {
        return without(table, Ok(()));
    }
    match catalogue.find(&table.name) {
        Some(_) => without(table, Ok(())),
        None => catalogue.add(table),
    }
}

fn define_named(alloc: Global, catalogue: &mut Catalogue, name: &str) -> Result<(), Memory> {
    let table = bare(alloc, name)?;
    define(catalogue, table)
}

fn define_all(alloc: Global, catalogue: &mut Catalogue) -> Result<(), Memory> {
    for name in ["a", "a", "b"] {
        define_named(alloc, catalogue, name)?;
    }
    Ok(())
}

fn number_of(alloc: Global, catalogue: &Catalogue, name: &str) -> Result<Option<u32>, Memory> {
    let name = text_of(alloc, name.as_bytes())?;
    Ok(catalogue.find(&name))
}

fn are_found(alloc: Global, catalogue: &Catalogue) -> Result<(), Fail> {
    for (name, expected) in [("b", Some(1)), ("q", None)] {
        let found = number_of(alloc, catalogue, name)?;
        right(name, found == expected)?;
    }
    Ok(())
}

fn finds(alloc: Global, catalogue: &mut Catalogue) -> Result<(), Fail> {
    define_all(alloc, catalogue)?;
    are_found(alloc, catalogue)
}

#[test]
fn finds_tables(rt: HostRuntime) -> Result<(), Fail> {
    let mut catalogue = Catalogue::new(rt.alloc());
    let finds = finds(rt.alloc(), &mut catalogue);
    without(catalogue, finds)
}
