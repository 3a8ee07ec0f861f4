//! Tests of the one pass over a log: what it says of right logs, and of texts that differ from these in one line. The answers are found by hand.
//! The crate has nothing but tests.
#![tactic(auto)]

#[cfg(test)]
mod asked;
#[cfg(test)]
mod bounds;
#[cfg(test)]
mod breaches;
#[cfg(test)]
mod orders;
#[cfg(test)]
mod texts;
