// What is made of the tables that were read, and what is written.
ghost use Rattle.std.specs.Prelude.{◌≡◌, ◌+◌, ◌^◌, ◌<◌, ◌≤◌, List, length, IfOk, Ok};
ghost use Rattle.cell_base.specs.declared.value.Value as values;
ghost use Rattle.sql_tree.specs.declared.typed.TypedSelect.{TypedSelect};
ghost use Rattle.typing_rules.specs.Gives.{Gives};
ghost use Rattle.typing_rules.specs.Outcome.{Outcome as Answer};
ghost use Rattle.row_meaning.specs.Changes.{changes_of as all_changes};
ghost use Rattle.row_meaning.specs.Pictures.{shown_of};
ghost use Rattle.row_meaning.specs.Selection.{selected};
ghost use Rattle.row_writes.specs.Seen.{changes_seen};
ghost use Rattle.statement_course.specs.Course.{done};
ghost use Rattle.statement_course.specs.Statements.{course_of_changes, rows_outcome};
ghost use Rattle.statement_course.specs.Writing.{write_all};
ghost use Rattle.table_reading.specs.Left.{step_answers, step_course};
ghost use Rattle.cell_compile.specs.Plans.{demanded, ending, left_of, rest_of};

use crate::Plan;
use crate::handing::without;
use crate::next::{Next, Purpose};
use cell_base::{Cell, Items, Key, Memory, SqlFault, Value};
use row_assembly::rows_of;
use row_meaning::TableRows;
use row_writes::{RowChange, changes_of, delete_writes, update_writes};
use sql_tree::{OutField, Table, TypedChange, TypedSelect};
use statement_course::{Demand, Outcome};
use std::alloc::Global;
use table_reading::{Question, Queue, Step};

/// A plan whose statement is done.
pub fn reply(alloc: Global, outcome: Outcome) -> Plan
    ensures course { rest_of result ≡ done outcome }
    ensures left { left_of result ≡ 0 }
{
    Plan::of(alloc, Demand::Reply(outcome), Next::Nothing)
}

/// Goes on with what a reading asks for, or with the tables that were read.
pub fn after_step(alloc: Global, step: Step, purpose: Purpose) -> Result<Plan, Memory>
    ensures course { IfOk result (λ plan. rest_of plan ≡ step_course step (ending purpose)) }
    ensures few { IfOk result (λ plan. left_of plan ≤ 2 ^ 64 + step_answers step) }
{
    match step {
        Step::Asks(question, reading) => {
            Ok(Plan::of(alloc, demand_of(question), Next::Reads(reading, purpose)))
        }
        Step::Ends(picture) => after_tables(alloc, purpose, picture),
    }
}

fn demand_of(question: Question) -> Demand
    ensures { result ≡ demanded question }
{
    match question {
        Question::Keys(table) => Demand::Scan(table),
        Question::Presence(table, key) => Demand::Touch(Cell::Presence(table, key)),
        Question::Field(table, key, column) => Demand::Touch(Cell::Field(table, key, column)),
    }
}

fn after_tables(alloc: Global, purpose: Purpose, picture: Items<TableRows>) -> Result<Plan, Memory>
    ensures course { IfOk result (λ plan. rest_of plan ≡ ending purpose picture) }
    ensures few { IfOk result (λ plan. left_of plan ≤ 2 ^ 64) }
{
    match purpose {
        Purpose::Selects(select) => Ok(reply(alloc, selection(alloc, select, picture)?)),
        Purpose::Changes(change, table) => changed(alloc, change, table, picture),
    }
}

fn selection(
    alloc: Global,
    select: TypedSelect,
    picture: Items<TableRows>,
) -> Result<Outcome, Memory>
    ensures { IfOk result (λ outcome. outcome ≡ rows_outcome select (selected select picture)) }
{
    let rows = rows_of(alloc, &select, picture.as_slice());
    rows_or_code(select.fields, without(picture, rows))
}

fn rows_or_code(
    fields: Items<OutField>,
    rows: Result<Items<Items<Value>>, SqlFault>,
) -> Result<Outcome, Memory>
    ensures { (select : TypedSelect) (whole : Answer (List (List values.Value))) → fields ≡ select.fields → Gives whole rows → IfOk result (λ outcome. outcome ≡ rows_outcome select whole) }
{
    match rows {
        Ok(rows) => Ok(Outcome::Rows(fields, rows)),
        Err(SqlFault::State(code)) => Ok(Outcome::Failed(code)),
        Err(SqlFault::Memory) => Err(Memory),
    }
}

fn changed(
    alloc: Global,
    change: TypedChange,
    table: Table,
    picture: Items<TableRows>,
) -> Result<Plan, Memory>
    ensures course { IfOk result (λ plan. rest_of plan ≡ course_of_changes change (all_changes table change (shown_of change.table picture))) }
    ensures few { IfOk result (λ plan. left_of plan ≤ 2 ^ 64) }
{
    let plan = changed_in(alloc, &change, &table, picture.as_slice());
    without((change, table, picture), plan)
}

fn changed_in(
    alloc: Global,
    change: &TypedChange,
    table: &Table,
    picture: &[TableRows],
) -> Result<Plan, Memory>
    ensures course { IfOk result (λ plan. rest_of plan ≡ course_of_changes change.now (all_changes table.now change.now (shown_of (change.now).table picture.now))) }
    ensures few { IfOk result (λ plan. left_of plan ≤ 2 ^ 64) }
{
    match changes_of(alloc, table, change, shown(picture, change.table)) {
        Ok(made) => changes_made(alloc, change, made),
        Err(SqlFault::State(code)) => Ok(reply(alloc, Outcome::Failed(code))),
        Err(SqlFault::Memory) => Err(Memory),
    }
}

fn shown(picture: &[TableRows], number: u32) -> &[(Key, Items<Value>)]
    ensures { result.now ≡ shown_of number picture.now }
{
    for rows in picture {
        if rows.table == number {
            return rows.rows.as_slice();
        }
    }
    &[]
}

fn changes_made(alloc: Global, change: &TypedChange, made: Items<RowChange>) -> Result<Plan, Memory>
    ensures course { IfOk result (λ plan. rest_of plan ≡ course_of_changes change.now (Ok (changes_seen made))) }
    ensures few { IfOk result (λ plan. left_of plan ≤ 2 ^ 64) }
{
    let count = counted(made.len())?;
    if change.delete {
        Ok(writing(
            alloc,
            delete_writes(alloc, change.table, made)?,
            Outcome::Deleted(count),
        ))
    } else {
        Ok(writing(
            alloc,
            update_writes(alloc, change.table, made)?,
            Outcome::Updated(count),
        ))
    }
}

/// A number of rows. A statement has fewer than 2^32, since no table has as many keys.
pub fn counted(rows: usize) -> Result<u32, Memory>
    ensures { IfOk result (λ count. count ≡ rows) }
{
    match u32::try_from(rows) {
        Ok(count) => Ok(count),
        Err(_) => Err(Memory),
    }
}

/// Begins to write cells.
pub fn writing(alloc: Global, writes: Items<(Cell, Value)>, outcome: Outcome) -> Plan
    ensures course { rest_of result ≡ write_all writes (done outcome) }
    ensures few { left_of result < 2 ^ 64 }
{
    let _count = writes.len();
    writes_left(alloc, Queue::from_items(writes), outcome)
}

/// Goes on to write cells.
pub fn writes_left(alloc: Global, writes: Queue<(Cell, Value)>, outcome: Outcome) -> Plan
    ensures course { rest_of result ≡ write_all writes (done outcome) }
    ensures left { left_of result ≡ length writes }
{
    match writes.split() {
        Some(((cell, value), others)) => {
            Plan::of(
                alloc,
                Demand::Write(cell, value),
                Next::Writes(others, outcome),
            )
        }
        None => reply(alloc, outcome),
    }
}
