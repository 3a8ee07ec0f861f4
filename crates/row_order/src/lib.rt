//! ORDER BY, OFFSET and LIMIT over the rows of a result.
//!
//! The order is the defined one: by the first term in which two rows differ, null above every value, DESC the other way
//! round. Rows that tie stay as they stood.
#![tactic(auto)]

mod comparison;
mod cutting;
mod law;
mod sorting;

pub use cutting::cut_rows;
pub use law::order_is_right;
pub use sorting::{SortedRow, sort_rows};
