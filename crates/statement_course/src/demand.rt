// What a statement asks for, what it is answered, and what it comes to.
use cell_base::{Cell, Items, Key, SqlState, Value};
use sql_tree::OutField;

/// What a statement asks for next.
#[derive(Debug, Drop)]
pub enum Demand {
    /// The keys of the table of this number.
    Scan(u32),
    /// The value of a cell.
    Touch(Cell),
    /// That a cell is written.
    Write(Cell, Value),
    /// Nothing more: this is what the statement comes to.
    Reply(Outcome),
}

/// The answer to a demand.
#[derive(Debug, Drop)]
pub enum PlanAnswer {
    /// To a scan: the keys, ascending.
    Keys(Items<Key>),
    /// To a touch.
    Value(Value),
    /// To a write.
    Written,
}

/// What a statement comes to.
#[derive(Debug, Drop)]
pub enum Outcome {
    /// The columns of a result and its rows.
    Rows(Items<OutField>, Items<Items<Value>>),
    /// So many rows were inserted.
    Inserted(u32),
    /// So many rows were updated.
    Updated(u32),
    /// So many rows were deleted.
    Deleted(u32),
    /// The statement failed.
    Failed(SqlState),
}
