// The replies to statements that succeed.

/// A reply that is known beforehand: CommandComplete with the tag of a statement, after a NoticeResponse where the statement wasn't
/// needed, or EmptyQueryResponse.
#[derive(Clone, Copy, Debug, PartialEq, Eq)]
pub enum Fixed {
    /// A message without a statement.
    Empty,
    /// CREATE TABLE.
    Created,
    /// SET.
    Set,
    /// BEGIN.
    Begun,
    /// START TRANSACTION.
    Started,
    /// BEGIN inside a block.
    BegunAgain,
    /// START TRANSACTION inside a block.
    StartedAgain,
    /// COMMIT of a block.
    Committed,
    /// COMMIT outside a block.
    CommittedNothing,
    /// ROLLBACK of a block, and COMMIT of a failed one.
    RolledBack,
    /// ROLLBACK outside a block.
    RolledBackNothing,
}

/// The reply to a statement that succeeded, or to a message without a statement.
#[derive(Clone, Copy, Debug, PartialEq, Eq)]
pub enum StatementReply {
    /// The reply that was built.
    Built,
    /// One that is known beforehand.
    Fixed(Fixed),
}
