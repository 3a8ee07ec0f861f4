// The blocks of statements, as a message finds and leaves them.

/// The block in which a statement of a message stands (PostgreSQL's documentation, "Multiple Statements in a Simple Query").
#[derive(Clone, Copy, Debug, PartialEq, Eq)]
pub enum Block {
    /// The message's own block, which its end commits; whether its transaction is pending.
    Implicit(bool),
    /// A block that BEGIN or START TRANSACTION has begun. Its transaction is pending.
    Regular,
    /// A regular block in which a statement failed. Its transaction was rolled back, and only its end is taken.
    Failed,
}

/// A block whose transaction is pending.
#[derive(Clone, Copy, Debug, PartialEq, Eq)]
pub enum Pending {
    /// That of the message's own block.
    Implicit,
    /// That of a regular block.
    Regular,
}

/// What a session owes its book before it ends.
#[derive(Clone, Copy, Debug, PartialEq, Eq)]
pub enum Owed {
    /// Nothing: no session is open.
    Nothing,
    /// A close.
    Close,
    /// A rollback, and then a close.
    Rollback,
}
