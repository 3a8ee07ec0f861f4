// What a query message asks for.
use cell_base::{Items, SqlState};
use sql_tree::Statement;

/// What a query message asks for.
#[derive(Debug, Drop)]
pub enum Message {
    /// Its statements, in order; there may be none.
    Statements(Items<Statement>),
    /// Nothing that can be read: the code that says why.
    Unread(SqlState),
}
