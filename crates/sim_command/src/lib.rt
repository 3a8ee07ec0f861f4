//! The command that simulates many sessions, in an order that is drawn from a seed, and prints the summary of their history.
#![tactic(auto)]

mod command;
mod playing;

pub use command::{Plan, simulate};
