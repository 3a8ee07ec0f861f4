//! Notes of several writers under one turn lock: a small client, which shows what the lock's contracts give.
//!
//! The state is a list of notes, and a note's key is the number of its writer. A writer draws its number in its
//! first turn, from the state. [`two_writers`] runs two of them in two threads, and ensures from the lock's
//! clauses alone that the numbers differ, that of each number the final list has just its writer's notes, in that
//! writer's order, and that the list begins with the notes that stood there before. [`first_note`] reads the first
//! of these, whatever the pass has seen.
#![tactic(auto)]

mod notes;
mod writers;

pub use notes::{Add, First, Note, Notes, Start};
pub use writers::{add_note, first_note, start_writing, two_writers, write};

#[cfg(test)]
mod tests;
