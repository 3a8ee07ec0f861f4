//! Definitions of typing: the typed tree of an expression, or the code that comes first; which typed expressions are well
//! typed; and how a value is converted to a column's type.
#![tactic(auto)]

mod form;
mod law;
mod place;

pub use form::Form;
pub use place::Place;
