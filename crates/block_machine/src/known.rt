// What a session knows.
use cell_base::Level;
use sql_tree::Table;

/// What a session knows, and hands on from each statement to the next.
#[derive(Debug, Drop)]
pub struct Known {
    /// The tables that it was shown.
    pub tables: Vec<Table>,
    /// The level of its next transactions.
    pub level: Level,
    /// The level of the server, at which each session begins.
    pub served: Level,
}
