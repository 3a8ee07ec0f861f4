//! No tests, but a library of those of SQL: the statements of a text, the tables of CREATE TABLE texts, and whether statements over tables may
//! be typed.
#![tactic(auto)]

mod reading;
mod tables;

pub use reading::read;
pub use tables::{are_narrow, tables_of};
