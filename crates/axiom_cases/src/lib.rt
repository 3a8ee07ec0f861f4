//! Tests of the axiom crates: what reads see and what further reads force, found by hand, at each level over one history; and beside the pairs
//! that `saturation` finds and the offers of a store. And tests of what the calls of `forced_rows` answer beside a history without events.
//!
//! A definition could say something else than its reader thinks, and no clause says that memory is left. The crate has nothing but tests.
#![tactic(auto)]

#[cfg(test)]
mod answers;
#[cfg(test)]
mod bare_rows;
#[cfg(test)]
mod histories;
#[cfg(test)]
mod play;
#[cfg(test)]
mod together;
#[cfg(test)]
mod worked;
