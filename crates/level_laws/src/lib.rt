//! What the levels promise of each consistent history, and that all which they permit can be shown. There is no code here.
#![tactic(auto)]

mod promises;
mod shown;

pub use promises::{no_fractured_reads, no_lost_causes};
pub use shown::{all_histories_can_be_shown, one_call_has_one_event, prefixes_are_consistent};
