// The calls of aggregates in expressions, in text order, each with what it keeps.
ghost use Rattle.std.specs.Prelude.{◌≡◌, ◌++◌, [], map, flat_map, IfOk, OnOk};
ghost use Rattle.typing_rules.specs.Outcome.{all_of};
ghost use Rattle.expr_eval.specs.Lent.{seen};
ghost use Rattle.row_meaning.specs.Groups.{meaning, calls_of};
ghost use Rattle.typing_rules.specs.Gives.{Gives};
ghost use Rattle.row_totals.specs.Calls.{operand_value, meant, at_start, added_to, Leaves, NextTally};
ghost use Rattle.row_totals.specs.Tallies as tallies;

use crate::tally::{Tally, changed, started, told};
use cell_base::{Boxed, Items, Memory, SqlFault, Value};
use expr_eval::{Datum, datum_of};
use sql_tree::{TypedExpr, TypedNode};
use std::alloc::Global;

/// A call of an aggregate.
#[derive(Debug, Drop)]
pub struct Call {
    /// None for `*`.
    pub operand: Option<TypedExpr>,
    pub tally: Tally,
}

/// Puts the calls of an expression after the others.
#[cycle(collects)]
pub fn collect(alloc: Global, expr: &TypedExpr, calls: &mut Vec<Call>) -> Result<(), Memory>
    ensures { OnOk result (map meant calls.new.items ≡ map meant calls.old.items ++ map at_start (meaning expr.now).calls) }
{
    match &expr.node {
        TypedNode::Constant(_) | TypedNode::Column(_, _) => Ok(()),
        TypedNode::Aggregate(function, operand) => {
            let operand = copied(alloc, operand)?;
            let tally = started(expr.kind, *function);
            Ok(calls.push(Call { operand, tally })?)
        }
        TypedNode::Neg(operand) | TypedNode::Not(operand) | TypedNode::IsNull(operand, _) => {
            collect(alloc, operand.get(), calls)
        }
        TypedNode::Binary(_, left, right) => {
            collect(alloc, left.get(), calls)?;
            collect(alloc, right.get(), calls)
        }
        TypedNode::In(left, members, _) => {
            collect(alloc, left.get(), calls)?;
            collect_each(alloc, members.as_slice(), calls)
        }
    }
}

fn copied(alloc: Global, operand: &Option<Boxed<TypedExpr>>) -> Result<Option<TypedExpr>, Memory>
    ensures { IfOk result (λ copy. copy ≡ operand.now) }
{
    match operand {
        Some(operand) => Ok(Some(operand.get().copy(alloc)?)),
        None => Ok(None),
    }
}

/// Puts the calls of some expressions after the others.
#[cycle(collects)]
pub fn collect_each(alloc: Global, exprs: &[TypedExpr], calls: &mut Vec<Call>) -> Result<(), Memory>
    ensures { OnOk result (map meant calls.new.items ≡ map meant calls.old.items ++ map at_start (calls_of exprs.now)) }
{
    for expr in exprs {
        collect(alloc, expr, calls)?;
    }
    Ok(())
}

/// Evaluates the operands over one more row, in order. After a fault the calls aren't used any more.
pub fn add_row(alloc: Global, calls: &mut Vec<Call>, row: &[&[Value]]) -> Result<(), SqlFault>
    ensures { Leaves result calls.new.items (all_of (map (added_to (seen row.now)) calls.old.items)) }
{
    for call in calls.iter_mut() {
        add_to(alloc, call, row)?;
    }
    Ok(())
}

fn add_to(alloc: Global, call: &mut Call, row: &[&[Value]]) -> Result<(), SqlFault>
    ensures { Leaves result call.new (added_to (seen row.now) call.old) }
{
    if let Some(tally) = next_tally(alloc, call, row)? {
        call.tally = tally;
    }
    Ok(())
}

/// What a call keeps with one row more, or none where it stays as it is.
fn next_tally(alloc: Global, call: &Call, row: &[&[Value]]) -> Result<Option<Tally>, SqlFault>
    ensures { NextTally result call.now (seen row.now) }
{
    let value = match &call.operand {
        Some(operand) => datum_of(operand, row)?,
        None => Datum::Flag(true),
    };
    Ok(changed(alloc, &call.tally, value)?)
}

/// The values of the aggregates, in order, or the first code.
pub fn totals(alloc: Global, mut calls: Vec<Call>) -> Result<Items<Value>, SqlFault>
    ensures { Gives (all_of (map (λ call. tallies.told call.tally) calls.items)) result }
{
    tell_each(alloc, &mut calls)
}

/// The same, with the values taken out of the calls.
fn tell_each(alloc: Global, calls: &mut Vec<Call>) -> Result<Items<Value>, SqlFault>
    ensures { Gives (all_of (map (λ call. tallies.told call.tally) calls.old.items)) result }
{
    let mut values = Items::new(alloc);
    for call in calls.iter_mut() {
        values.push(told(&mut call.tally)?)?;
    }
    Ok(values)
}
