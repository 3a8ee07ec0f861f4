//! No tests, but a library of those of histories: a table of two columns, the cells of its rows, and the values that numbers stand for in them.
#![tactic(auto)]

mod cells;
mod creating;

pub use cells::{NULL, Spot, UNSET, field, presence};
pub use creating::table;
