//! The types of SELECT: the typed tree, or the code that comes first.
//!
//! [`typed_select`] answers exactly what the definition of a SELECT's types gives, unless memory runs out. Each part of a SELECT
//! has a module whose function gives exactly its part of the definition: FROM, the conditions of JOIN, whether an aggregate is
//! called, the items, ORDER BY, the columns that are mentioned, and the keys at which tables are read. The crate stands on the
//! types of expressions (`expr_typing`) and on what all statements share (`typing_parts`).
#![tactic(auto)]

mod aggregates;
mod from;
mod items;
mod joins;
mod kept;
mod order;
mod output;
mod points;
mod reads;
mod select;
mod star;

pub use select::typed_select;
