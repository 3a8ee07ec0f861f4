// The tree of a CREATE TABLE from what stands between its parentheses.
ghost use Rattle.std.specs.Prelude.{◌≡◌, ◌++◌, None, false, IfOk, OnOk};
ghost use Rattle.sql_grammar.specs.Statements as st;

use crate::defaults::last_default;
use cell_base::{Items, Memory, SqlType, Text};
use sql_grammar::{Constraint, Element};
use sql_tree::{ColumnDef, CreateTable, Expr};
use std::alloc::Global;

/// Whether the last of NULL and NOT NULL is NOT NULL.
fn not_null(mut constraints: &[Constraint]) -> bool
    ensures { result ≡ st.not_null false constraints.entry.now }
{
    let mut last = false;
    while let [first, rest @ ..] = constraints {
        last = match first {
            Constraint::NotNull => true,
            Constraint::Null => false,
            _ => last,
        };
        constraints = rest;
    }
    last
}

/// Whether PRIMARY KEY is among them.
fn is_primary(mut constraints: &[Constraint]) -> bool
    ensures { result ≡ st.is_primary constraints.entry.now }
{
    while let [first, rest @ ..] = constraints {
        if let Constraint::Primary = first {
            return true;
        }
        constraints = rest;
    }
    false
}

fn column(
    alloc: Global,
    name: &Text,
    kind: SqlType,
    constraints: &[Constraint],
) -> Result<ColumnDef, Memory>
    ensures { IfOk result (λ column. column ≡ st.column_of name.now kind constraints.now) }
{
    Ok(ColumnDef {
        name: name.copy(alloc)?,
        kind,
        not_null: not_null(constraints),
        default: last_default(alloc, constraints)?,
        key: is_primary(constraints),
    })
}

/// Puts the CHECKs of a column after the others.
fn add_checks(
    alloc: Global,
    mut constraints: &[Constraint],
    checks: &mut Items<Expr>,
) -> Result<(), Memory>
    ensures { OnOk result (checks.new ≡ checks.old ++ st.checks_of constraints.entry.now) }
{
    while let [first, rest @ ..] = constraints {
        if let Constraint::Check(condition) = first {
            checks.push(condition.copy(alloc)?)?;
        }
        constraints = rest;
    }
    Ok(())
}

fn all_columns(alloc: Global, mut elements: &[Element]) -> Result<Items<ColumnDef>, Memory>
    ensures { IfOk result (λ columns. columns ≡ st.all_columns elements.entry.now) }
{
    let mut columns = Items::new(alloc);
    while let [first, rest @ ..] = elements {
        if let Element::Column(name, kind, constraints) = first {
            columns.push(column(alloc, name, *kind, constraints.as_slice())?)?;
        }
        elements = rest;
    }
    Ok(columns)
}

/// Puts the names of a PRIMARY KEY list after the others.
fn add_keys(alloc: Global, mut names: &[Text], keys: &mut Items<Text>) -> Result<(), Memory>
    ensures { OnOk result (keys.new ≡ keys.old ++ names.entry.now) }
{
    while let [first, rest @ ..] = names {
        keys.push(first.copy(alloc)?)?;
        names = rest;
    }
    Ok(())
}

fn all_keys(alloc: Global, mut elements: &[Element]) -> Result<Items<Text>, Memory>
    ensures { IfOk result (λ keys. keys ≡ st.all_keys elements.entry.now) }
{
    let mut keys = Items::new(alloc);
    while let [first, rest @ ..] = elements {
        if let Element::Primary(names) = first {
            add_keys(alloc, names.as_slice(), &mut keys)?;
        }
        elements = rest;
    }
    Ok(keys)
}

/// Puts the CHECKs of an element after the others.
fn add_all_checks(alloc: Global, element: &Element, checks: &mut Items<Expr>) -> Result<(), Memory>
    ensures { OnOk result (checks.new ≡ checks.old ++ st.checks_in element.now) }
{
    match element {
        Element::Column(_, _, constraints) => add_checks(alloc, constraints.as_slice(), checks),
        Element::Primary(_) => Ok(()),
        Element::Check(condition) => checks.push(condition.copy(alloc)?),
    }
}

fn all_checks(alloc: Global, mut elements: &[Element]) -> Result<Items<Expr>, Memory>
    ensures { IfOk result (λ checks. checks ≡ st.all_checks elements.entry.now) }
{
    let mut checks = Items::new(alloc);
    while let [first, rest @ ..] = elements {
        add_all_checks(alloc, first, &mut checks)?;
        elements = rest;
    }
    Ok(checks)
}

/// The tree of a CREATE TABLE.
pub fn table_of(alloc: Global, name: Text, elements: &[Element]) -> Result<CreateTable, Memory>
    ensures { IfOk result (λ table. table ≡ st.table_of name elements.now) }
{
    Ok(CreateTable {
        name,
        columns: all_columns(alloc, elements)?,
        keys: all_keys(alloc, elements)?,
        checks: all_checks(alloc, elements)?,
    })
}
