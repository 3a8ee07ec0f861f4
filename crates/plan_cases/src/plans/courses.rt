// What a statement demands, given keys and values.
ghost use Rattle.std.specs.Prelude.{◌↔◌, ◌≤◌, ◌<◌, ◌^◌, length, IfOk, IsTrue};
ghost use Rattle.std.specs.List.{All};

use crate::plans::shown::push_demand;
use crate::plans::statements::{Statement, typed_of};
use crate::plans::trees::two_tables;
use case_lines::{Line, is};
use cell_base::{Cell, Items, Key, Memory, Value};
use cell_compile::Plan;
use held_values::{kept, without};
use sql_tree::Table;
use statement_course::{Demand, PlanAnswer};
use std::alloc::Global;
use std::test::Fail;

/// A statement, the keys that a scan lists, the values of the cells that are read, and the demands with what the statement comes
/// to.
pub type Case = (Statement, &'static [i64], &'static [i64], &'static str);

/// Compares what each statement demands.
pub fn hold(alloc: Global, cases: &[Case]) -> Result<(), Fail> {
    for (place, case) in cases.iter().enumerate() {
        is(place, demands(alloc, case), case.3)?;
    }
    Ok(())
}

/// The demands of a statement over the tables.
fn demands(alloc: Global, case: &Case) -> Result<String, Memory> {
    let tables = two_tables(alloc)?;
    let told = demands_over(alloc, tables.as_slice(), case);
    without(tables, told)
}

fn are_narrow(tables: &[Table]) -> bool
    ensures { IsTrue result ↔ All (λ t. length t.columns ≤ 32) tables.now }
{
    tables.iter().all(|t| t.columns.len() <= 32)
}

fn demands_over(alloc: Global, tables: &[Table], case: &Case) -> Result<String, Memory> {
    if !are_narrow(tables) {
        return Err(Memory);
    }
    let mut plan = planned(alloc, case.0, tables)?;
    let told = told(alloc, &mut plan, case.1, case.2);
    without(plan, told)
}

fn planned(alloc: Global, statement: Statement, tables: &[Table]) -> Result<Plan, Memory>
    requires { All (λ t. length t.columns ≤ 32) tables.now }
{
    let typed = typed_of(alloc, statement)?;
    Plan::new(alloc, typed, tables)
}

fn told(alloc: Global, plan: &mut Plan, keys: &[i64], values: &[i64]) -> Result<String, Memory> {
    let mut line = Line::new(alloc);
    let told = tell(&mut line, alloc, plan, keys, values);
    let line = kept(line, told)?;
    Ok(line.whole()?)
}

/// Tells what the plan demands, and answers it, until the statement is done.
fn tell(
    line: &mut Line,
    alloc: Global,
    plan: &mut Plan,
    keys: &[i64],
    values: &[i64],
) -> Result<(), Memory> {
    let mut at: usize = 0;
    for _step in 0..20 {
        push_demand(line, plan.demand());
        let read = reads(plan);
        if is_done(alloc, plan, keys, number_at(values, at))? {
            break;
        }
        at = at.saturating_add(read);
    }
    Ok(())
}

/// 1 where a value is read.
fn reads(plan: &Plan) -> usize {
    match plan.demand() {
        Demand::Touch(_) => 1,
        _ => 0,
    }
}

fn number_at(values: &[i64], at: usize) -> i64 {
    match values.get(at) {
        Some(n) => *n,
        None => 0,
    }
}

/// Whether the statement is done; if not, what it demands is answered: keys to a scan, and what the number stands for to a touch.
fn is_done(alloc: Global, plan: &mut Plan, keys: &[i64], n: i64) -> Result<bool, Memory> {
    if let Demand::Reply(_) = plan.demand() {
        return Ok(true);
    }
    let is_flag = asks_presence(plan.demand());
    answer(alloc, plan, keys, (is_flag, n))?;
    Ok(false)
}

/// Answers what the plan demands: keys to a scan, and to a touch the number, or whether it is 1.
fn answer(
    alloc: Global,
    plan: &mut Plan,
    keys: &[i64],
    (is_flag, n): (bool, i64),
) -> Result<(), Memory> {
    match plan.demand() {
        Demand::Scan(_) => {
            let keys = few_keys(alloc, keys)?;
            plan.answer(PlanAnswer::Keys(keys))
        }
        Demand::Touch(_) => plan.answer(PlanAnswer::Value(value_of(is_flag, n))),
        Demand::Write(_, _) => plan.answer(PlanAnswer::Written),
        Demand::Reply(_) => Ok(()),
    }
}

fn asks_presence(demand: &Demand) -> bool {
    match demand {
        Demand::Touch(cell) => matches!(cell, Cell::Presence(_, _)),
        _ => false,
    }
}

fn value_of(is_flag: bool, n: i64) -> Value {
    if is_flag {
        Value::Flag(n == 1)
    } else {
        Value::Int(n)
    }
}

fn few_keys(alloc: Global, keys: &[i64]) -> Result<Items<Key>, Memory>
    ensures { IfOk result (λ made. length made < 2 ^ 32) }
{
    let mut made = Items::new(alloc);
    let pushed = push_keys(&mut made, keys);
    let made = kept(made, pushed)?;
    if made.len() > 100 {
        return Err(Memory);
    }
    Ok(made)
}

fn push_keys(made: &mut Items<Key>, keys: &[i64]) -> Result<(), Memory> {
    for n in keys {
        made.push(Key::Int(*n))?;
    }
    Ok(())
}
