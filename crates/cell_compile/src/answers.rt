// What follows an answer.
ghost use Rattle.std.specs.Prelude.{◌≡◌, ◌+◌, ◌^◌, ◌<◌, true, IfOk};
ghost use Rattle.cell_base.specs.declared.cell.Cell as cells;
ghost use Rattle.cell_base.specs.declared.value.Value as values;
ghost use Rattle.statement_course.specs.declared.demand.Demand.TheVariants as demands;
ghost use Rattle.statement_course.specs.declared.demand.Outcome as outcomes;
ghost use Rattle.statement_course.specs.declared.demand.PlanAnswer.TheVariants as answers;
ghost use Rattle.statement_course.specs.Course.{FitsDemand, following};
ghost use Rattle.table_reading.specs.Left.{step_answers, step_course};
ghost use Rattle.cell_compile.specs.declared.next.Next.TheVariants as nexts;
ghost use Rattle.cell_compile.specs.declared.next.Purpose.{Purpose};
ghost use Rattle.cell_compile.specs.Plans.{ending, left_of, next_answers, next_course, rest_of};
ghost use Rattle.cell_compile.specs.Together.{go_together};

use crate::Plan;
use crate::ending::{after_step, writes_left};
use crate::handing::{beside, without};
use crate::inserting::after_presence;
use crate::next::{Insertion, Next, Purpose};
use cell_base::{Cell, Items, Key, Memory, Value};
use statement_course::{Demand, Outcome};
use std::alloc::Global;
use table_reading::{Reading, Step};

/// Goes on with the keys of a table.
pub fn with_keys(
    alloc: Global,
    demand: Demand,
    next: Next,
    keys: Items<Key>,
) -> Result<Plan, Memory>
    requires together { go_together demand next ≡ true }
    requires fits { FitsDemand (next_course demand next) (answers.Keys keys) }
    ensures course { IfOk result (λ plan. rest_of plan ≡ following (next_course demand next) (answers.Keys keys)) }
    ensures less { IfOk result (λ plan. left_of plan < next_answers demand next) }
{
    match (demand, next) {
        (Demand::Scan(_), Next::Reads(reading, purpose)) => {
            let (purpose, step) = beside(purpose, reading.with_keys(keys))?;
            after_step(alloc, step, purpose)
        }
        _ => unreachable!(),
    }
}

/// Goes on with the value of a cell.
pub fn with_value(alloc: Global, demand: Demand, next: Next, value: Value) -> Result<Plan, Memory>
    requires together { go_together demand next ≡ true }
    requires fits { FitsDemand (next_course demand next) (answers.Value value) }
    ensures course { IfOk result (λ plan. rest_of plan ≡ following (next_course demand next) (answers.Value value)) }
    ensures less { IfOk result (λ plan. left_of plan < next_answers demand next) }
{
    match next {
        Next::Reads(reading, purpose) => read_value(alloc, demand, reading, purpose, value),
        Next::Inserts(insertion) => read_presence(alloc, demand, insertion, value),
        _ => unreachable!(),
    }
}

fn read_value(
    alloc: Global,
    demand: Demand,
    reading: Reading,
    purpose: Purpose,
    value: Value,
) -> Result<Plan, Memory>
    requires together { go_together demand (nexts.Reads reading purpose) ≡ true }
    requires fits { FitsDemand (next_course demand (nexts.Reads reading purpose)) (answers.Value value) }
    ensures course { IfOk result (λ plan. rest_of plan ≡ following (next_course demand (nexts.Reads reading purpose)) (answers.Value value)) }
    ensures less { IfOk result (λ plan. left_of plan < next_answers demand (nexts.Reads reading purpose)) }
{
    match demand {
        Demand::Touch(cell) => {
            let (purpose, step) = beside(purpose, with_cell(reading, cell, value))?;
            after_step(alloc, step, purpose)
        }
        _ => unreachable!(),
    }
}

/// What a reading asks for after the value of a cell.
fn with_cell(reading: Reading, cell: Cell, value: Value) -> Result<Step, Memory>
    ensures course { IfOk result (λ step. (purpose : Purpose) → step_course step (ending purpose) ≡ following (next_course (demands.Touch cell) (nexts.Reads reading purpose)) (answers.Value value)) }
    ensures less { IfOk result (λ step. (purpose : Purpose) → 2 ^ 64 + step_answers step < next_answers (demands.Touch cell) (nexts.Reads reading purpose)) }
{
    match cell {
        Cell::Presence(_, key) => {
            let step = reading.with_presence(key, &value);
            without(value, step)
        }
        Cell::Field(_, key, column) => reading.with_field(key, column, value),
    }
}

fn read_presence(
    alloc: Global,
    demand: Demand,
    insertion: Insertion,
    value: Value,
) -> Result<Plan, Memory>
    requires together { go_together demand (nexts.Inserts insertion) ≡ true }
    requires fits { FitsDemand (next_course demand (nexts.Inserts insertion)) (answers.Value value) }
    ensures course { IfOk result (λ plan. rest_of plan ≡ following (next_course demand (nexts.Inserts insertion)) (answers.Value value)) }
    ensures less { IfOk result (λ plan. left_of plan < next_answers demand (nexts.Inserts insertion)) }
{
    match demand {
        Demand::Touch(_cell) => Ok(after_presence(alloc, insertion, &value)),
        _ => unreachable!(),
    }
}

/// Goes on when a cell is written.
pub fn with_written(alloc: Global, demand: Demand, next: Next) -> Result<Plan, Memory>
    requires together { go_together demand next ≡ true }
    requires fits { FitsDemand (next_course demand next) answers.Written }
    ensures course { IfOk result (λ plan. rest_of plan ≡ following (next_course demand next) answers.Written) }
    ensures less { IfOk result (λ plan. left_of plan < next_answers demand next) }
{
    match (demand, next) {
        (Demand::Write(_, _), Next::Writes(writes, outcome)) => {
            Ok(writes_left(alloc, writes, outcome))
        }
        _ => unreachable!(),
    }
}

/// Takes the write out that is demanded, and goes on as when it is made.
pub fn take_write(alloc: Global, demand: Demand, next: Next) -> (Cell, Value, Plan)
    requires together { go_together demand next ≡ true }
    requires writes { (cell : cells.Cell) × (value : values.Value) × (demand ≡ demands.Write cell value) }
    ensures write { demand ≡ demands.Write result.0 result.1 }
    ensures course { rest_of result.2 ≡ following (next_course demand next) answers.Written }
    ensures less { left_of result.2 < next_answers demand next }
{
    match (demand, next) {
        (Demand::Write(cell, value), Next::Writes(writes, outcome)) => {
            (cell, value, writes_left(alloc, writes, outcome))
        }
        _ => unreachable!(),
    }
}

/// The outcome of a demand that is a reply.
pub fn replied(demand: Demand) -> Outcome
    requires { (outcome : outcomes.Outcome) × (demand ≡ demands.Reply outcome) }
    ensures { demand ≡ demands.Reply result }
{
    match demand {
        Demand::Reply(outcome) => outcome,
        _ => unreachable!(),
    }
}
