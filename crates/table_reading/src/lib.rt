//! The reading of tables, one demand after another: of each table its keys or one key, of each key its presence, and of a row
//! that is there the columns that are wanted. No table, row or picture is copied.
#![tactic(auto)]

mod part;
mod queue;
mod reading;
mod row;

pub use part::Part;
pub use queue::Queue;
pub use reading::{Question, Reading, Step, begin};
pub use row::is_true;
