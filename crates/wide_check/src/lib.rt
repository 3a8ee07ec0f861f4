//! The judge of a trace that uses all processors: its answers are those of `history_check`, whichever thread is done first.
//!
//! What takes the time of an order that isn't clear from what is light is to judge its reads and scans, one by one. [`InThreads`] cuts the events
//! into pieces, looks in each by a thread of its own for the first event of which the order doesn't keep what it asks, and takes the first of all.
#![tactic(auto)]

mod check;
mod pieces;
mod threads;

pub use check::{check_order_wide, check_wide};
pub use pieces::first_unkept_event;
pub use threads::InThreads;
