//! Tests of the judge of traces, over texts of histories: right ones at each level, and for each breach a text in which one line is another
//! than in a right one; and of the judge of events alone, which doesn't look at the order.
//!
//! The contracts of `history_check` say which traces are right and which breach is told. No clause says that a call with ample memory
//! succeeds, or how a breach is printed: these tests compare lines that were found by hand. The crate has nothing but tests.
#![tactic(auto)]

#[cfg(test)]
mod breaches;
#[cfg(test)]
mod events;
#[cfg(test)]
mod levels;
#[cfg(test)]
mod verdict;
