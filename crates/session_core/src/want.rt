// What a session wants.
use block_machine::{Call, End};

/// What a session wants next.
#[derive(Debug, Drop)]
pub enum Want {
    /// More bytes of its client.
    Bytes,
    /// The next of the messages that it holds looked at.
    Message,
    /// Its table defined by its book.
    Define,
    /// What its running statement demands.
    Cells,
    /// Another call of its book.
    Book(Call),
    /// Its reply sent.
    Send,
    /// Nothing: it has ended.
    Ended(End),
}
