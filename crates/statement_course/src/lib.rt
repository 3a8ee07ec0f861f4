//! What a statement asks of cells and what it answers: its demands one after another, given the answers, and at the end its
//! outcome. The definitions of a statement's course stand in `specs/`.
#![tactic(auto)]

mod demand;

pub use demand::{Demand, Outcome, PlanAnswer};
