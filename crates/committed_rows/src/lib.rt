//! What is committed at the end of a history, and a history that begins with it.
//!
//! `committed_rows` gathers the rows that are there at the end of a history: of each cell the value that was written last by the one of its committed
//! writers that began last. `start_after`
//! makes them the initial state of another store, whose first session defines the same tables and is closed.
#![tactic(auto)]

mod laws;
mod newest;
mod rows;
mod start;
mod walk;

pub use laws::{legal_start_is_small, one_list_of_rows, one_start};
pub use rows::committed_rows;
pub use start::start_after;
