// What is read of one table.
use cell_base::{Items, Key};

/// What is read of one table.
#[derive(Debug, Drop)]
pub struct Part {
    /// The number of the table.
    pub table: u32,
    /// How many columns it has.
    pub width: usize,
    /// The number of the key's column.
    pub key_column: u32,
    /// The one key that is asked, where the table isn't scanned.
    pub point: Option<Key>,
    /// The columns that are read, ascending.
    pub columns: Items<u32>,
}
