//! Sound tables: those that are built from a CREATE TABLE which the grammar gives for a plain list of tokens, and what holds
//! of each.
#![tactic(auto)]

mod law;

pub use law::{sound_is_well_formed, two_columns_are_sound};
