// Where a session stands between two messages of its client.
use pg_framing::TransactionState;

/// How a session takes its client's next message (PostgreSQL's protocol chapter, "Message Flow").
#[derive(Clone, Copy, Debug, PartialEq, Eq)]
pub enum Phase {
    /// Before the startup message. The session isn't open.
    Startup,
    /// The next message is served. The state of the transaction block is the one that was last told.
    Normal(TransactionState),
    /// A message of the extended query has failed: messages are discarded up to the next Sync. The state is the block's state after that
    /// failure.
    Discarding(TransactionState),
}
