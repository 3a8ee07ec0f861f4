//! Tests of books on one shared history: two in one thread, whose calls take turns by hand, with every event of the final history, and two
//! in two threads, of whose sessions the history has just the events that each made, in order.
//!
//! The contracts say what a call adds and not that memory is left. The crate has nothing but tests.
#![tactic(auto)]

#[cfg(test)]
mod calls;
#[cfg(test)]
mod lines;
#[cfg(test)]
mod tests;
