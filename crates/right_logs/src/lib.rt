//! What one pass over a text shows of it: that it is the log of a history without a breach, or of one whose events are right.
//!
//! `glimpse_of` reads the events one after another and keeps none of them, but what later ones are judged by. Where the events are right and their
//! order isn't clear, it hands out what `history_check::check_order` wants beside the history. Where it says nothing, `history_log` and
//! `history_check` decide.
#![tactic(auto)]

mod accesses;
mod ending;
mod glimpse;
mod guesses;
mod kept;
mod lines;
mod met;
mod noted_values;
mod open_reads;
mod packed_value;
mod pass;
mod places;
mod seats;
mod sessions;
mod standing;
mod take;
mod text;
mod txn_notes;
mod txns;

pub use glimpse::Glimpse;
pub use text::glimpse_of;
