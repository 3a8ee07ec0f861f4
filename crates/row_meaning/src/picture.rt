// What a statement was shown of a table.
use cell_base::{Items, Key, Value};

/// The rows of a table that a statement found, keys ascending: each with its key, and one value for each column of the table,
/// the key's own included. A column that the statement doesn't read is null.
#[derive(Debug, Drop)]
pub struct TableRows {
    /// The number of the table.
    pub table: u32,
    pub rows: Items<(Key, Items<Value>)>,
}
