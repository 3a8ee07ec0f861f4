//! Saturation: the pairs of transactions that a history forces on each commit order, and whether a further read is permitted.
#![tactic(auto)]

mod demands;
mod laws;
mod pairs;
mod past;
mod permitted;
mod records;

pub use laws::{forced_decides, further_read};
pub use order_witness::holds_cycle;
pub use pairs::{candidates, forced, is_writer};
pub use permitted::is_permitted;
