//! The history: one list of events, what its transactions read and wrote, and which event may come next.
//!
//! `History` keeps the events, with a record of each transaction that says what the events say of it, and takes each event
//! that fits, or names the limit that keeps it out. Each transaction has a level, and `InitialState` is what stands in the
//! tables before any transaction. `legal_laws` says what holds of each legal one.
#![tactic(auto)]

mod ends;
mod event;
mod fault;
mod history;
mod initial;
mod kept;
mod laws;
mod limits;
mod notes;
mod pushes;
mod search;
mod txn;
mod weight;
mod whole;

pub use event::Event;
pub use fault::{BookFault, DefineAnswer, Limit};
pub use history::History;
pub use initial::InitialState;
pub use laws::{consistency_is_kept, empty_initial_state, legal_laws};
pub use notes::copy_keys;
pub use txn::{Seen, Txn, TxnState};
