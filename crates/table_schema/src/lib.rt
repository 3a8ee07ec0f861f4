//! The table that a CREATE TABLE makes, or the code that comes first; and the list of the tables that are defined.
#![tactic(auto)]

mod building;
mod catalogue;
mod columns;
mod keys;

pub use building::build;
pub use catalogue::Catalogue;
