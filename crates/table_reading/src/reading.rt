// The machine that reads tables: given an answer, what it asks for next.
ghost use Rattle.std.specs.Prelude.{◌≡◌, ℕ, ◌+◌, ◌*◌, ◌^◌, ◌<◌, ◌≤◌, List, [], ◌∷◌, length, IfOk};
ghost use Rattle.row_meaning.specs.declared.picture.TableRows.{TableRows};
ghost use Rattle.statement_course.specs.Course.{Course};
ghost use Rattle.table_reading.specs.Left.{tables_course, rows_course, columns_course, after_keys, after_presence, after_field, step_course, row_answers, tables_answers, rows_answers, step_answers};

use crate::row::{is_true, row_values};
use crate::{Part, Queue};
use cell_base::{Items, Key, Memory, Value};
use row_meaning::TableRows;
use std::alloc::Global;

/// The table that is being read, and the others: those that were read, and those that are still to come.
#[derive(Debug, Drop)]
pub struct Tables {
    table: u32,
    width: usize,
    key_column: u32,
    columns: Items<u32>,
    parts: Queue<Part>,
    picture: Items<TableRows>,
}

/// A reading that waits for an answer. Beside what it has asked for, which holds the key of the row that is being read:
#[derive(Debug, Drop)]
pub struct Reading {
    alloc: Global,
    tables: Tables,
    /// The keys that are still to come.
    keys: Queue<Key>,
    /// The rows of the table that were found.
    found: Items<(Key, Items<Value>)>,
    /// The columns of the row that are still to come.
    columns: Queue<u32>,
    /// The columns of the row that were read.
    read: Items<(u32, Value)>,
}

/// What a reading asks for.
#[derive(Debug, Drop)]
pub enum Question {
    /// The keys of the table of this number.
    Keys(u32),
    /// Whether the table has a row of the key: table and key.
    Presence(u32, Key),
    /// The value of a column in the row of the key: table, key and column.
    Field(u32, Key, u32),
}

/// What comes after an answer.
#[derive(Debug, Drop)]
pub enum Step {
    /// The next question.
    Asks(Question, Reading),
    /// All tables were read.
    Ends(Items<TableRows>),
}

/// Begins to read tables, one after another.
pub fn begin(alloc: Global, parts: Items<Part>) -> Result<Step, Memory>
    ensures course { IfOk result (λ step. (rest : List TableRows → Course) → step_course step rest ≡ tables_course parts [] rest) }
    ensures few { IfOk result (λ step. step_answers step ≤ tables_answers parts) }
{
    next_table(alloc, Queue::from_items(parts), Items::new(alloc))
}

impl Reading {
    /// Goes on with the keys that a scan lists.
    pub fn with_keys(self, keys: Items<Key>) -> Result<Step, Memory>
        requires { length keys < 2 ^ 32 }
        ensures course { IfOk result (λ step. (rest : List TableRows → Course) → step_course step rest ≡ after_keys self keys rest) }
        ensures less { IfOk result (λ step. step_answers step
            < 2 ^ 32 * row_answers self.tables.columns + tables_answers self.tables.parts) }
    {
        next_row(
            self.alloc,
            self.tables,
            Queue::from_items(keys),
            Items::new(self.alloc),
        )
    }

    /// Goes on with the presence of this key.
    pub fn with_presence(self, key: Key, present: &Value) -> Result<Step, Memory>
        ensures course { IfOk result (λ step. (rest : List TableRows → Course) → step_course step rest ≡ after_presence self key present.now rest) }
        ensures less { IfOk result (λ step. step_answers step
            < row_answers self.tables.columns + rows_answers self.tables self.keys) }
    {
        if is_true(present) {
            let columns = Queue::from_items(self.tables.columns.copy(self.alloc)?);
            let read = Items::new(self.alloc);
            next_column(
                self.alloc,
                self.tables,
                self.keys,
                self.found,
                key,
                columns,
                read,
            )
        } else {
            next_row(self.alloc, self.tables, self.keys, self.found)
        }
    }

    /// Goes on with the value of this column of the row of this key.
    pub fn with_field(self, key: Key, column: u32, value: Value) -> Result<Step, Memory>
        ensures course { IfOk result (λ step. (rest : List TableRows → Course) → step_course step rest ≡ after_field self key column value rest) }
        ensures less { IfOk result (λ step. step_answers step
            < 1 + length self.columns + rows_answers self.tables self.keys) }
    {
        let mut read = self.read;
        read.push((column, value))?;
        next_column(
            self.alloc,
            self.tables,
            self.keys,
            self.found,
            key,
            self.columns,
            read,
        )
    }
}

fn next_table(alloc: Global, parts: Queue<Part>, picture: Items<TableRows>) -> Result<Step, Memory>
    ensures course { IfOk result (λ step. (rest : List TableRows → Course) → step_course step rest ≡ tables_course parts picture rest) }
    ensures few { IfOk result (λ step. step_answers step ≤ tables_answers parts) }
{
    match parts.split() {
        Some((part, others)) => Ok(first_question(alloc, part, others, picture)),
        None => Ok(Step::Ends(picture)),
    }
}

fn first_question(alloc: Global, part: Part, others: Queue<Part>, picture: Items<TableRows>) -> Step
    ensures course { (rest : List TableRows → Course) → step_course result rest ≡ tables_course (part ∷ others) picture rest }
    ensures few { step_answers result ≤ tables_answers (part ∷ others) }
{
    let Part {
        table,
        width,
        key_column,
        point,
        columns,
    } = part;
    let question = match point {
        Some(key) => Question::Presence(table, key),
        None => Question::Keys(table),
    };
    Step::Asks(
        question,
        Reading {
            alloc,
            tables: Tables {
                table,
                width,
                key_column,
                columns,
                parts: others,
                picture,
            },
            keys: Queue::new(alloc),
            found: Items::new(alloc),
            columns: Queue::new(alloc),
            read: Items::new(alloc),
        },
    )
}

fn next_row(
    alloc: Global,
    tables: Tables,
    keys: Queue<Key>,
    found: Items<(Key, Items<Value>)>,
) -> Result<Step, Memory>
    ensures course { IfOk result (λ step. (rest : List TableRows → Course) → step_course step rest ≡ rows_course tables keys found rest) }
    ensures few { IfOk result (λ step. step_answers step ≤ rows_answers tables keys) }
{
    match keys.split() {
        Some((key, others)) => {
            Ok(Step::Asks(
                Question::Presence(tables.table, key),
                Reading {
                    alloc,
                    tables,
                    keys: others,
                    found,
                    columns: Queue::new(alloc),
                    read: Items::new(alloc),
                },
            ))
        }
        None => end_table(alloc, tables, found),
    }
}

fn end_table(
    alloc: Global,
    tables: Tables,
    found: Items<(Key, Items<Value>)>,
) -> Result<Step, Memory>
    ensures course { IfOk result (λ step. (rest : List TableRows → Course) → step_course step rest ≡ rows_course tables [] found rest) }
    ensures few { IfOk result (λ step. step_answers step ≤ tables_answers tables.parts) }
{
    let mut picture = tables.picture;
    picture.push(TableRows {
        table: tables.table,
        rows: found,
    })?;
    next_table(alloc, tables.parts, picture)
}

fn next_column(
    alloc: Global,
    tables: Tables,
    keys: Queue<Key>,
    found: Items<(Key, Items<Value>)>,
    key: Key,
    columns: Queue<u32>,
    read: Items<(u32, Value)>,
) -> Result<Step, Memory>
    ensures course { IfOk result (λ step. (rest : List TableRows → Course) → step_course step rest ≡ columns_course tables keys found key columns read rest) }
    ensures few { IfOk result (λ step. step_answers step ≤ length columns + rows_answers tables keys) }
{
    match columns.split() {
        Some((column, others)) => {
            Ok(Step::Asks(
                Question::Field(tables.table, key, column),
                Reading {
                    alloc,
                    tables,
                    keys,
                    found,
                    columns: others,
                    read,
                },
            ))
        }
        None => end_row(alloc, tables, keys, found, key, read),
    }
}

fn end_row(
    alloc: Global,
    tables: Tables,
    keys: Queue<Key>,
    found: Items<(Key, Items<Value>)>,
    key: Key,
    read: Items<(u32, Value)>,
) -> Result<Step, Memory>
    ensures course { IfOk result (λ step. (rest : List TableRows → Course) → step_course step rest ≡ columns_course tables keys found key [] read rest) }
    ensures few { IfOk result (λ step. step_answers step ≤ rows_answers tables keys) }
{
    let values = row_values(alloc, tables.width, tables.key_column, &key, read)?;
    let mut rows = found;
    rows.push((key, values))?;
    next_row(alloc, tables, keys, rows)
}
