//! The command `serve`: many links, each a session over one shared history.
//!
//! [`serve`] runs the setup, where one is asked for, and starts from what that left (`specs/Starting`). It opens a door for each worker, runs the
//! workers to their ends, writes the log of the history, where one is asked for, and prints how many sessions, transactions and events there were
//! (`specs/Serving`). What each worker's book saw at any time is the
//! beginning of the one history ([`earlier_sights_begin_the_history`]).
#![tactic(auto)]

mod command;
mod law;
mod line;
mod manning;
mod start;

pub use command::serve;
pub use law::earlier_sights_begin_the_history;
