//! What a pending transaction has written: a map from cells to last values, in order of first write.
//!
//! `put` changes the value of its cell alone and keeps the order, `get` answers the cell's value or that the cell isn't
//! there, and `reserve` takes the memory that later calls of `put` need.
#![tactic(auto)]

mod buffer;
mod index;

pub use buffer::TxnBuffer;
