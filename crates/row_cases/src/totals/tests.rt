// The cases.
use crate::totals::cases::{Case, OF_EXPRESSIONS, OF_FAULTS, OF_NUMBERS, OF_OTHERS};
use crate::totals::exprs::exprs_of;
use crate::totals::orders::{CUTS, ORDERS, Order};
use crate::totals::samples::{answer_shown, rows_shown};
use case_lines::{Lit, is, is_in, value_of, values_of};
use cell_base::{Items, Memory, SqlFault, Value};
use held_values::{both, kept, without};
use row_order::{SortedRow, cut_rows, sort_rows};
use row_totals::Totals;
use sql_tree::TypedExpr;
use std::alloc::Global;
use std::test::Fail;

fn add_value(totals: &mut Totals, value: Value) -> Result<(), SqlFault> {
    let values = [value];
    totals.add(&[values.as_slice()])
}

fn add_all(alloc: Global, totals: &mut Totals, cells: &[Lit]) -> Result<(), SqlFault> {
    for lit in cells {
        add_value(totals, value_of(alloc, *lit)?)?;
    }
    Ok(())
}

/// The values of the expressions over the rows.
fn totals_of(alloc: Global, exprs: &[TypedExpr], cells: &[Lit]) -> Result<Items<Value>, SqlFault> {
    let mut totals = Totals::new(alloc, exprs)?;
    let added = add_all(alloc, &mut totals, cells);
    let totals = kept(totals, added)?;
    totals.finish(exprs)
}

fn given(alloc: Global, case: &Case) -> Result<String, Memory> {
    let (kind, shapes, cells, _) = *case;
    let exprs = exprs_of(alloc, kind, shapes)?;
    let answer = answer_shown(alloc, totals_of(alloc, exprs.as_slice(), cells));
    Ok(without(exprs, answer)?)
}

fn are_given(alloc: Global, table: &str, cases: &[Case]) -> Result<(), Fail> {
    for (place, case) in cases.iter().enumerate() {
        is_in(table, place, given(alloc, case), case.3)?;
    }
    Ok(())
}

#[test]
fn totals_numbers(rt: HostRuntime) -> Result<(), Fail> {
    are_given(rt.alloc(), "numbers", &OF_NUMBERS)
}

#[test]
fn totals_other_types(rt: HostRuntime) -> Result<(), Fail> {
    are_given(rt.alloc(), "others", &OF_OTHERS)
}

#[test]
fn totals_in_expressions(rt: HostRuntime) -> Result<(), Fail> {
    are_given(rt.alloc(), "expressions", &OF_EXPRESSIONS)
}

#[test]
fn tells_the_first_fault(rt: HostRuntime) -> Result<(), Fail> {
    are_given(rt.alloc(), "faults", &OF_FAULTS)
}

// ---- orders

fn numbered(alloc: Global, number: usize, terms: &[Lit]) -> Result<SortedRow, Memory> {
    let number = Lit::Int((number % 1000) as i64);
    let (values, terms) = both(values_of(alloc, &[number]), values_of(alloc, terms))?;
    Ok(SortedRow { values, terms })
}

/// The numbers of the rows.
fn numbers(alloc: Global, rows: Vec<SortedRow>) -> Result<String, Memory> {
    let shown = rows_shown(alloc, rows.as_slice());
    Ok(without(rows, shown)?)
}

fn push_rows(made: &mut Items<SortedRow>, alloc: Global, rows: &[&[Lit]]) -> Result<(), Memory> {
    for (number, terms) in rows.iter().enumerate() {
        made.push(numbered(alloc, number, terms)?)?;
    }
    Ok(())
}

fn rows_of(alloc: Global, rows: &[&[Lit]]) -> Result<Vec<SortedRow>, Memory> {
    let mut made = Items::new(alloc);
    let pushed = push_rows(&mut made, alloc, rows);
    Ok(kept(made, pushed)?.into_vec())
}

fn sorted(alloc: Global, order: &Order) -> Result<String, Memory> {
    let (rows, directions, _) = *order;
    let rows = rows_of(alloc, rows)?;
    numbers(alloc, sort_rows(rows, directions)?)
}

fn are_sorted(alloc: Global, orders: &[Order]) -> Result<(), Fail> {
    for (place, order) in orders.iter().enumerate() {
        is_in("orders", place, sorted(alloc, order), order.2)?;
    }
    Ok(())
}

#[test]
fn sorts(rt: HostRuntime) -> Result<(), Fail> {
    are_sorted(rt.alloc(), &ORDERS)
}

fn cut(alloc: Global, offset: i64, limit: Option<i64>) -> Result<String, Memory> {
    let rows = rows_of(alloc, &[&[], &[], &[], &[]])?;
    numbers(alloc, cut_rows(rows, offset, limit))
}

fn are_cut(alloc: Global, cuts: &[(i64, Option<i64>, &str)]) -> Result<(), Fail> {
    for (place, (offset, limit, want)) in cuts.iter().enumerate() {
        is_in("cuts", place, cut(alloc, *offset, *limit), want)?;
    }
    Ok(())
}

#[test]
fn cuts(rt: HostRuntime) -> Result<(), Fail> {
    are_cut(rt.alloc(), &CUTS)
}

fn push_many(rows: &mut Items<SortedRow>, alloc: Global) -> Result<(), Memory> {
    for number in 0..100usize {
        rows.push(numbered(alloc, number, &[Lit::Int((number % 7) as i64)])?)?;
    }
    Ok(())
}

/// So many rows of 0 to 6, more than are sorted without a buffer.
fn many(alloc: Global) -> Result<Vec<SortedRow>, Memory> {
    let mut rows = Items::new(alloc);
    let pushed = push_many(&mut rows, alloc);
    Ok(kept(rows, pushed)?.into_vec())
}

fn many_sorted(alloc: Global) -> Result<String, Memory> {
    let rows = many(alloc)?;
    numbers(alloc, cut_rows(sort_rows(rows, &[false])?, 13, Some(4)))
}

#[test]
fn sorts_many(rt: HostRuntime) -> Result<(), Fail> {
    is("many", many_sorted(rt.alloc()), "91 98 1 8")
}
