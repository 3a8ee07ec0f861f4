//! The numbers of the transactions that write each cell, by cell.
//!
//! A number is noted at the cells that its transaction wrote. Those of one cell ascend, whatever the order in which they were noted, so that the
//! last one up to a limit is found by binary search. Where all events are at hand, `number_cells` numbers their cells once, and what is noted of
//! a cell stands at its number, so that no cell is looked up twice.
#![tactic(auto)]

mod cell_note;
mod cell_numbers;
mod numbers;
mod txn_places;
mod writers;

pub use cell_note::{CellNote, CellNotes, blank_cells, no_cells, take_cell};
pub use cell_numbers::{CellNumbers, number_of};
pub use numbers::Numbers;
pub use txn_places::TxnPlaces;
pub use writers::{CellWriters, last_writer, new_writers, note_writes, writers_at};
