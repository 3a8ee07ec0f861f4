//! The types of INSERT, UPDATE and DELETE: the typed statement, or the code that comes first.
#![tactic(auto)]

mod cell;
mod change;
mod insert;
mod kept;
mod lengths;
mod reads;
mod row;
mod targets;

pub use change::{typed_delete, typed_update};
pub use insert::typed_insert;
