//! A history with two indexes: for each cell the transactions that wrote it, and for each table its keys.
//!
//! `IndexedHistory` takes the events that a `History` takes, of any number of sessions, and contracts see the history alone.
//! A write lists its transaction at the cell and keeps the key of a presence, and takes the memory for both; a commit changes
//! nothing in the indexes, and a rollback takes its transaction out of the lists of the cells that it wrote, without memory. So
//! the writers of a cell are found by a hash, and a scan passes over the keys of its table, and over no event.
#![tactic(auto)]

mod index;
mod indexed;
mod keys;
mod numbers;
mod parts;
mod pushes;
mod records;
mod scanning;

pub use indexed::IndexedHistory;
