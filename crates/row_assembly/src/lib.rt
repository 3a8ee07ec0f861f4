//! The rows of a SELECT over the rows that it was shown: they are joined, kept by the conditions, put in order and cut, or
//! made into one by aggregates. The result is exactly the defined one.
#![tactic(auto)]

mod combinations;
mod conditions;
mod gathering;
mod group;
mod limit;
mod plain;
mod selection;
mod tables;

pub use selection::rows_of;
