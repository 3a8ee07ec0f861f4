//! Aggregates over a group of rows: the rows come one after another, and of each aggregate only what it needs is kept.
//!
//! The values are the defined ones. The operands of the aggregates are evaluated for each row, in text order; then the
//! aggregates have their values, and then the expressions. The first fault is told.
#![tactic(auto)]

mod calls;
mod filling;
mod law;
mod tally;
mod totals;

pub use law::one_meaning;
pub use totals::Totals;
