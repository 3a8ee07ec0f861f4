//! What one further event forces: a read of a pending transaction, a begin, and the others, which force nothing. A book that keeps the closure
//! of the forced pairs beside its history adds just these pairs.
//!
//! The crate has no code; its laws are functions without parameters, whose contracts are theorems over the definitions of `specs/`.
#![tactic(auto)]

mod laws;

pub use laws::{
    begin_forces, further_demands, further_pairs, further_read_is_permitted, last_begun_changes,
    nothing_follows_pending, others_force_nothing, seen_source_shows_nothing_new, sources_change,
};
