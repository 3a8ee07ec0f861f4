//! A store: one history of any number of sessions, with the rows that decide offers, and the book of one of its sessions.
//!
//! `Store` keeps a legal history with its indexes, and beside it the rows of its forced pairs. `offer` is exactly the list of the writes
//! that the pending transaction of a session may read next, at the level of that transaction. `SeatBook` is a `Book` over a store,
//! which it holds until `into_store` gives it back: each call adds just its event and keeps the rows, and a refused call leaves both.
//! A touch of a cell reads an own write back, and else draws a word: the read makes one offer and takes what the word picks of it. A commit, a rollback and a close take no memory.
#![tactic(auto)]

mod append;
mod book;
mod calls;
mod choosing;
mod desk;
mod kept;
mod own;
mod reading;
mod scanning;
mod store;
mod tables;
mod touching;

pub use book::SeatBook;
pub use store::Store;
