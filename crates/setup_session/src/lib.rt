//! The setup of a server: the statements of a text, run by one session alone.
//!
//! [`run_setup`] serves a client in memory that starts, sends the text as one query and terminates, over a store of its own at Causal
//! Consistency. What comes back is the store, or why there is none (`specs/Setups`).
#![tactic(auto)]

mod fault;
mod run;

pub use fault::SetupFault;
pub use run::run_setup;
pub use setup_client::{MOST_TEXT, StatementFault};
