//! The plan of a statement: its demands, one after another, given the answers, and at the end what it comes to.
#![tactic(auto)]

mod answers;
mod beginning;
mod ending;
mod handing;
mod inserting;
mod next;
mod parts;
mod plan;
mod planning;

pub use plan::Plan;
