//! The texts that are read.

use held_values::kept;
use std::alloc::{AllocError, Global};

/// How many rows an INSERT of the long text has.
const ROWS: u32 = 190;

/// How many statements of each kind the long text has.
const STATEMENTS: u32 = 128;

/// One row of an INSERT.
fn push_row(out: &mut String, number: u32) -> Result<(), AllocError> {
    let third = number / 3;
    write!(out, "({number}, 'owner {number}', {third}, NULL)")
}

/// An INSERT of so many rows, and then at least one more.
fn push_insert(out: &mut String, number: u32, more: u32) -> Result<(), AllocError> {
    out.push_str("INSERT INTO accounts (id, owner, balance, note) VALUES ")?;
    for row in 0..more {
        push_row(out, number.saturating_add(row))?;
        out.push_str(", ")?;
    }
    push_row(out, number)?;
    out.push_str(";\n")
}

/// A SELECT with a join, a condition and an order.
fn push_select(out: &mut String, number: u32) -> Result<(), AllocError> {
    out.push_str("SELECT a.owner, a.balance + 10 AS raised, count(*) FROM accounts a ")?;
    write!(
        out,
        "JOIN branches b ON a.branch = b.id WHERE a.id = {number}"
    )?;
    out.push_str(" AND (b.open OR NOT a.balance BETWEEN 0 AND 1000) ")?;
    out.push_str("ORDER BY a.owner DESC, 2 LIMIT 20;\n")
}

fn push_both(out: &mut String) -> Result<(), AllocError> {
    for number in 0..STATEMENTS {
        push_insert(out, 100_000 + number, ROWS - 1)?;
        push_select(out, 100_000 + number)?;
    }
    Ok(())
}

/// A text of about a million bytes.
pub(crate) fn long(alloc: Global) -> Result<String, AllocError> {
    let mut out = String::new(alloc);
    let pushed = push_both(&mut out);
    kept(out, pushed)
}

/// A message with an INSERT of one row.
pub(crate) fn insert(alloc: Global) -> Result<String, AllocError> {
    let mut insert = String::new(alloc);
    let pushed = push_insert(&mut insert, 100_000, 0);
    kept(insert, pushed)
}

/// A message with a SELECT.
pub(crate) fn select(alloc: Global) -> Result<String, AllocError> {
    let mut select = String::new(alloc);
    let pushed = push_select(&mut select, 100_000);
    kept(select, pushed)
}
