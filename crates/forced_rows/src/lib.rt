//! The forced pairs and the causal past of a history, as rows of bits that are kept beside it, and the writes that a pending transaction may
//! read next, decided by them.
//!
//! A read adds stars of edges, each from some writers to one source, and else only what is before its reader; a begin adds what is before the
//! new transaction; no other event adds a pair. So a read is offered by bit tests on the writers of its cell and one union of rows.
#![tactic(auto)]

mod late;
mod laws;
mod offering;
mod order;
mod reader;
mod rows;
mod seats;
mod sight;
mod stars;

pub use laws::rows_stay;
pub use rows::ForcedRows;
pub use stars::ReadStars;
