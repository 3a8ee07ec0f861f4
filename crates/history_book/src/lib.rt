//! [`Book`]: one session's way to a history that others may add to as well. [`Words`]: what gives the words that choose among the
//! values of its reads.
#![tactic(auto)]

mod book;
mod words;

pub use book::Book;
pub use words::Words;
