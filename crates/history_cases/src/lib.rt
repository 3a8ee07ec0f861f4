//! Tests of histories: a session that writes a row and reads it back, event by event, an initial state of two rows, as many transactions
//! as a history takes, and the buffer of a transaction's writes
//! beside a list that is walked.
//!
//! The contracts of `history_core` and `txn_buffer` say what each call does. No clause says that a call with ample memory succeeds:
//! these tests compare answers with values found by hand. The crate has nothing but tests.
#![tactic(auto)]

#[cfg(test)]
mod buffer;
#[cfg(test)]
mod cells;
#[cfg(test)]
mod history;
#[cfg(test)]
mod limit;
#[cfg(test)]
mod rows;
#[cfg(test)]
mod steps;
