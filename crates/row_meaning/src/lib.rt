//! What the rows of a statement are: the definitions of a SELECT's result, of the rows that an INSERT makes, and of the changes
//! that an UPDATE or a DELETE makes, over the rows that the statement was shown.
#![tactic(auto)]

mod picture;

pub use picture::TableRows;
