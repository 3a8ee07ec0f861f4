// What follows a demand of a plan.
use cell_base::{Cell, Items, Key, Value};
use sql_tree::{Table, TypedChange, TypedSelect};
use statement_course::Outcome;
use table_reading::{Queue, Reading};

/// What is made of the tables that are read.
#[derive(Debug, Drop)]
pub enum Purpose {
    /// The rows of a SELECT.
    Selects(TypedSelect),
    /// The changes of an UPDATE or a DELETE.
    Changes(TypedChange, Table),
}

/// The rows that are to be inserted.
#[derive(Debug, Drop)]
pub struct Insertion {
    pub table: u32,
    /// The keys whose presence is still to be read.
    pub keys: Queue<Key>,
    /// Whether a row of one of the other keys is there.
    pub found: bool,
    /// What is written where none is there, and for how many rows.
    pub writes: Items<(Cell, Value)>,
    pub count: u32,
}

/// What follows a demand.
#[derive(Debug, Drop)]
pub enum Next {
    /// Tables are read.
    Reads(Reading, Purpose),
    /// The presence of keys is read.
    Inserts(Insertion),
    /// Cells are written, and then this is what the statement comes to.
    Writes(Queue<(Cell, Value)>, Outcome),
    /// Nothing.
    Nothing,
}
