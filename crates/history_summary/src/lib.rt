//! The summary line of a simulated history: how many sessions, transactions, events and reads it has, how many writes were
//! offered to its reads, and how many of these took another write than the latest.
//!
//! The latest write of a cell, at a read, is that of the committed writer whose Commit comes last before the read. A read from
//! another one is weak. `summary` ensures that its line is that of the history, and `one_summary` says that there is no other.
#![tactic(auto)]

mod counts;
mod latest;
mod laws;
mod line;
mod running;
mod walk;

pub use laws::one_summary;
pub use line::summary;
