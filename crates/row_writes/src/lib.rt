//! What INSERT, UPDATE and DELETE write: the rows that an INSERT makes, the changes that an UPDATE or a DELETE makes over the
//! rows that it was shown, and the cells that are written for them.
#![tactic(auto)]

mod assigned;
mod cells;
mod changes;
mod evaluation;
mod insertion;
mod kept;
mod keys;
mod mentions;
mod storing;
mod update;

pub use cells::{delete_writes, insert_writes, update_writes};
pub use changes::{RowChange, changes_of};
pub use insertion::rows_to_insert;
