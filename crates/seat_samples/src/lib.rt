//! No tests, but a library of those of stores: stores whose sessions open, seats of sessions that take turns, which are asked first where the
//! session stands, whole transactions of a seat, touches by a word of the test, and why a run of calls ends early.
#![tactic(auto)]

mod opening;
mod seats;
mod stop;
mod transactions;
mod words;

pub use opening::{open_next, with_table};
pub use seats::{busy_seat, idle_seat};
pub use stop::{Stop, misplaced, unlike};
pub use transactions::{begin, read_alone, read_many, write_alone, write_many};
pub use words::{SameWords, touch_by};
