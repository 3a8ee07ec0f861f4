//! What the typing of each kind of statement needs: tables and columns by name, WHERE, the columns that expressions mention,
//! and the key at which a table is read.
#![tactic(auto)]

mod filter;
mod marks;
mod points;
mod tables;

pub use filter::typed_filter;
pub use marks::Marks;
pub use points::point_of;
pub use tables::{ColumnAt, TableAt, column_named, table_named};
