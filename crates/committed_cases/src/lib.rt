//! Tests of what is committed at the end of a history, and of the store that starts with it: rows that are inserted, updated, deleted and rolled
//! back, keys of both kinds, a row that isn't whole, and as many tables as there may be. What is expected was worked out by hand.
//!
//! The contracts say which rows these are, and not that memory is left. The crate has nothing but tests.
#![tactic(auto)]

#[cfg(test)]
mod cells;
#[cfg(test)]
mod full;
#[cfg(test)]
mod held;
#[cfg(test)]
mod play;
#[cfg(test)]
mod tests;
