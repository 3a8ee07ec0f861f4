//! The value of an expression over a row, and the conversion of a value to a column's type.
//!
//! The rules are PostgreSQL's: three-valued logic, integers that don't leave their type, division toward zero, text by
//! bytes.
#![tactic(auto)]

mod assignment;
mod compare;
mod compute;
mod datum;
mod evaluation;
mod logic;
mod lookup;

pub use assignment::assign;
pub use compare::{compared, order_of};
pub use compute::negated;
pub use datum::{Datum, is_null, to_value};
pub use evaluation::{binary, datum_of, eval};
pub use logic::{denied, either, null_test};
pub use lookup::of_kind;
