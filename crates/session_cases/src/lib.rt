//! Tests of sessions as a whole: all bytes that they are sent and all events of their histories, worked out by hand from the protocol,
//! the SQL and the rules of the levels; also where the input is cut short, a read or a write fails, or the history is full.
//!
//! The sessions are texts of `session_text`. The contracts of `session_core` say what a session is told. No clause says that it is
//! served where there is memory: these tests show it. The crate has nothing but tests.
#![tactic(auto)]

#[cfg(test)]
mod compared;
#[cfg(test)]
mod faults;
#[cfg(test)]
mod full;
#[cfg(test)]
mod in_turn;
#[cfg(test)]
mod links;
#[cfg(test)]
mod marks;
#[cfg(test)]
mod serving;
#[cfg(test)]
mod tests;
