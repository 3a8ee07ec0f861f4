//! The columns of a typed SELECT can be described to a client, as long as no zero byte stands in the text.
#![tactic(auto)]

mod law;

pub use law::{columns_are_described, statement_is_described, statements_are_plain};
