//! Tests of the text of a history: the worked history in versions 1 and 2, each kind of event, an initial state, and each fault; lines of events
//! by themselves and inside of a text, with numbers, keys and cells near their limits; orders and initial lines.
//!
//! The contracts of `history_log` say what is printed, what is read, and which fault comes. No clause says that a call with ample
//! memory succeeds: these tests compare texts that were written by hand. The crate has nothing but tests.
#![tactic(auto)]

#[cfg(test)]
mod ends;
#[cfg(test)]
mod events;
#[cfg(test)]
mod faults;
#[cfg(test)]
mod lines;
#[cfg(test)]
mod texts;
