// The calls that a session makes of its book, and their answers.
use cell_base::{Items, Key, Level, Value};
use history_core::{BookFault, DefineAnswer};
use sql_tree::Table;

/// A call of a book, but for the definition of a table and the demands of a statement, which the session keeps.
#[derive(Debug, Drop)]
pub enum Call {
    /// An opening of a session.
    Open,
    /// A close of the session.
    Close,
    /// A look at the tables, with the number of those that the session knows.
    Look(u32),
    /// The begin of a transaction, at this level.
    Begin(Level),
    /// The commit of the pending transaction.
    Commit,
    /// The rollback of the pending transaction.
    Rollback,
    /// The number that `SHOW monkey.history` tells.
    Show,
}

/// The answer to a call.
#[derive(Debug, Drop)]
pub enum Answer {
    /// The session's number.
    Opened(u32),
    /// The session was closed.
    Closed,
    /// The tables that the session didn't know.
    Looked(Items<Table>),
    /// What became of a table's definition.
    Defined(DefineAnswer),
    /// The transaction's number.
    Begun(u32),
    /// The table's keys.
    Listed(Items<Key>),
    /// The cell's value.
    Found(Value),
    /// The cell was written.
    Written,
    /// The transaction was committed.
    Committed,
    /// The transaction was rolled back.
    RolledBack,
    /// The number of events that the history then has.
    Shown(u32),
    /// The call was refused, and why.
    Refused(BookFault),
}
