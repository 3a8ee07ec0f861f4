// The entries of the lock's list.
use cell_base::{Cell, Level, Value};
use history_core::Event;
use sql_tree::Table;
use std::collections::LinkedList;

/// One entry of the list that a shared history stands for. Only proofs speak of entries: no value of the type is made.
pub enum Entry {
    /// The level and the initial state of the history.
    Start {
        level: Level,
        initial: LinkedList<(Cell, Value)>,
    },
    /// An event, and the table that it defines, if it defines one.
    Happened {
        event: Event,
        table: Option<Table>,
    },
}
