//! Tests of stores: worked histories of one session and of several over the books of a store, with each offer, word, source and value found by
//! hand.
//!
//! No clause says that memory is left, and a definition could say something else than its reader thinks. The crate has nothing but
//! tests, so that `valid_writes` is proved once.
#![tactic(auto)]

#[cfg(test)]
mod cases;
#[cfg(test)]
mod keys;
#[cfg(test)]
mod play;
#[cfg(test)]
mod start;
#[cfg(test)]
mod worked;
