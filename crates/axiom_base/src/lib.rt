//! What the axioms of the levels have in common: the pairs that the reads of one transaction demand, given what its reads see.
//!
//! `axiom_rc`, `axiom_ra` and `axiom_cc` each say what a read sees at one level, as a `Sight`; this crate lists by it what a read sees
//! (`visible_by`) and what a further read forces (`trial_by`). All of it is plain lists over the records of a `History`. The definitions of
//! `specs/` have the level as a parameter, and `own_level_agrees` says that at the level of the reader they are those of `history_core`.
#![tactic(auto)]

mod laws;
mod precedence;
mod reads;
mod sight;
mod trial;

pub use laws::own_level_agrees;
pub use precedence::{precedes, predecessors};
pub use reads::{number, source};
pub use sight::{Sight, always_seen, visible_by};
pub use trial::trial_by;
