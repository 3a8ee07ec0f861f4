// How a plan begins.
ghost use Rattle.std.specs.Prelude.{◌≡◌, [], ◌∷◌, List, map, length, slice_get, IfOk, Ok, Some};
ghost use Rattle.row_meaning.specs.Pictures.{TableRow};
ghost use Rattle.row_meaning.specs.declared.picture.TableRows.{TableRows};
ghost use Rattle.row_writes.specs.Widths.{AreWithin};
ghost use Rattle.cell_compile.specs.Narrow.{AreNarrow, IsNarrow};
ghost use Rattle.cell_compile.specs.Plans.{rest_of};
ghost use Rattle.statement_course.specs.Statements.{course_of_change, course_of_insert, course_of_rows, course_of_select, part_of_change};
ghost use Rattle.statement_course.specs.Statements as course;
ghost use Rattle.statement_course.specs.Course.{Course};
ghost use Rattle.statement_course.specs.Reading.{read_parts};
ghost use Rattle.table_reading.specs.Left.{step_course};

use crate::Plan;
use crate::ending::{after_step, counted, reply};
use crate::handing::{beside, without};
use crate::inserting::next_presence;
use crate::next::{Insertion, Purpose};
use crate::parts::{part_of, parts_of_select};
use cell_base::{Items, Key, Memory, SqlFault, SqlState, Value};
use row_writes::{insert_writes, rows_to_insert};
use sql_tree::{Table, TypedChange, TypedInsert, TypedSelect};
use statement_course::Outcome;
use std::alloc::Global;
use table_reading::{Queue, Step, begin};

/// The plan of a SELECT.
pub fn select_plan(alloc: Global, select: TypedSelect, tables: &[Table]) -> Result<Plan, Memory>
    ensures { IfOk result (λ plan. rest_of plan ≡ course_of_select tables.now select) }
{
    let first = select_step(alloc, &select, tables);
    let (select, step) = beside(select, first)?;
    after_step(alloc, step, Purpose::Selects(select))
}

/// What the reading of a SELECT begins with.
fn select_step(alloc: Global, select: &TypedSelect, tables: &[Table]) -> Result<Step, Memory>
    ensures { IfOk result (λ step. (rest : List TableRows → Course) → step_course step rest ≡ read_parts (course.parts_of_select tables.now select.now) [] rest) }
{
    begin(alloc, parts_of_select(alloc, tables, select)?)
}

/// The plan of an UPDATE or a DELETE.
pub fn change_plan(alloc: Global, change: TypedChange, tables: &[Table]) -> Result<Plan, Memory>
    ensures { IfOk result (λ plan. rest_of plan ≡ course_of_change change (slice_get tables.now change.table)) }
{
    match tables.get(change.table as usize) {
        Some(table) => change_of(alloc, change, table),
        None => Ok(without(change, reply(alloc, Outcome::Failed(SqlState::S42P01)))),
    }
}

fn change_of(alloc: Global, change: TypedChange, table: &Table) -> Result<Plan, Memory>
    ensures { IfOk result (λ plan. rest_of plan ≡ course_of_change change (Some table.now)) }
{
    let first = change_step(alloc, &change, table);
    let (change, step) = beside(change, first)?;
    let ((change, step), copy) = beside((change, step), table.copy(alloc))?;
    after_step(alloc, step, Purpose::Changes(change, copy))
}

/// What the reading of the table of a change begins with.
fn change_step(alloc: Global, change: &TypedChange, table: &Table) -> Result<Step, Memory>
    ensures { IfOk result (λ step. (rest : List TableRows → Course) → step_course step rest ≡ read_parts (part_of_change table.now change.now ∷ []) [] rest) }
{
    let mut parts = Items::new(alloc);
    parts.push(part_of(alloc, change.table, table, &change.mentioned, &change.point)?)?;
    begin(alloc, parts)
}

/// The plan of an INSERT.
pub fn insert_plan(alloc: Global, insert: TypedInsert, tables: &[Table]) -> Result<Plan, Memory>
    requires { AreNarrow tables.now }
    ensures { IfOk result (λ plan. rest_of plan ≡ course_of_insert insert (slice_get tables.now insert.table)) }
{
    match tables.get(insert.table as usize) {
        Some(table) => insert_into(alloc, &insert, table),
        None => Ok(reply(alloc, Outcome::Failed(SqlState::S42P01))),
    }
}

fn insert_into(alloc: Global, insert: &TypedInsert, table: &Table) -> Result<Plan, Memory>
    requires { IsNarrow table.now }
    ensures { IfOk result (λ plan. rest_of plan ≡ course_of_insert insert.now (Some table.now)) }
{
    match rows_to_insert(alloc, table, insert.rows.as_slice()) {
        Ok(rows) => with_rows(alloc, insert.table, table, rows),
        Err(SqlFault::State(code)) => Ok(reply(alloc, Outcome::Failed(code))),
        Err(SqlFault::Memory) => Err(Memory),
    }
}

fn with_rows(
    alloc: Global,
    number: u32,
    table: &Table,
    rows: Items<(Key, Items<Value>)>,
) -> Result<Plan, Memory>
    requires narrow { IsNarrow table.now }
    requires within { AreWithin (length (table.now).columns) rows }
    ensures { IfOk result (λ plan. rest_of plan ≡ course_of_rows number table.now (Ok rows)) }
{
    let count = counted(rows.len())?;
    let keys = keys_of(alloc, rows.as_slice())?;
    let writes = insert_writes(alloc, number, table, rows)?;
    Ok(next_presence(
        alloc,
        Insertion {
            table: number,
            keys: Queue::from_items(keys),
            found: false,
            writes,
            count,
        },
    ))
}

fn keys_of(alloc: Global, rows: &[(Key, Items<Value>)]) -> Result<Items<Key>, Memory>
    ensures { IfOk result (λ keys. keys ≡ map (λ (r : TableRow). r.0) rows.now) }
{
    let mut keys = Items::new(alloc);
    for (key, _) in rows {
        keys.push(key.copy(alloc)?)?;
    }
    Ok(keys)
}
