//! Tests of the summary line: a history without events, and one of two sessions with an insert, stale and fresh reads, a rollback, and
//! two transactions that commit in the other order than they began. The lines were worked out by hand.
//!
//! The contract of `summary` says which line it is, and not that memory is left. The crate has nothing but tests.
//!
//! A store that is held where a step may fail costs much to check, so each function hands its store on whole (`held_values`).
#![tactic(auto)]

#[cfg(test)]
mod lines;
#[cfg(test)]
mod play;
#[cfg(test)]
mod steps;
