// The messages of a client, and what can be wrong with a stream of them.
use cell_base::{Items, Memory};
use thiserror::Error;

/// A message of a client (PostgreSQL's protocol chapter, "Message Formats").
#[derive(Debug, Drop)]
pub enum FrontendMessage {
    /// A request for SSL encryption.
    Ssl,
    /// A request for GSSAPI encryption.
    Gss,
    /// A request to cancel what another session runs: that session's process number, and its secret key.
    Cancel(u32, u32),
    /// A startup message of protocol 3.0: names and values, in order.
    Startup(Items<(Items<u8>, Items<u8>)>),
    /// A startup message of another version of the protocol: its code. What stands after the code isn't kept.
    Version(u32),
    /// A simple query: its text, without the zero byte that ends it.
    Query(Items<u8>),
    /// The end of the session.
    Terminate,
    /// The end of a series of extended query messages.
    Sync,
    /// A request to send what is held back.
    Flush,
    /// A message of the extended query. Its body isn't kept.
    Extended(Extended),
    /// A function call. Its body isn't kept.
    FunctionCall,
    /// A message of a copy. Its body isn't kept.
    Copy(CopyMessage),
}

/// The messages of the extended query.
#[derive(Clone, Copy, Debug, PartialEq, Eq)]
pub enum Extended {
    /// Makes a prepared statement of a text.
    Parse,
    /// Makes a portal of a prepared statement and its parameters.
    Bind,
    /// Asks for the description of a prepared statement or a portal.
    Describe,
    /// Runs a portal.
    Execute,
    /// Closes a prepared statement or a portal.
    Close,
}

/// The messages of a copy from the client.
#[derive(Clone, Copy, Debug, PartialEq, Eq)]
pub enum CopyMessage {
    /// A piece of the data.
    Data,
    /// The end of the data.
    Done,
    /// The client gives up.
    Fail,
}

/// What is wrong with a stream of messages.
#[derive(Clone, Copy, Debug, PartialEq, Eq, Error)]
pub enum FrameFault {
    /// A length below 8 before the startup. After it, a length that no message of its type has: below 5 of a query, another
    /// than 4 of a message without a body, below 4 of any other.
    #[error("this message cannot have the length {0}")]
    BadLength(u32),
    /// Before the startup, bytes that can't become a message: a request of another length than its own, or a startup message
    /// whose body can't be pairs of names and values with their end.
    #[error("the bytes cannot become a startup message or a request")]
    BadStartup,
    /// A length above 10,000 before the startup, or above 1,048,576 after it.
    #[error("the length {0} is above the limit")]
    TooLong(u32),
    /// A type byte that no message has.
    #[error("no message has the type byte {0}")]
    UnknownType(u8),
    /// The text of a query isn't ended by its only zero byte.
    #[error("the text of a query is not ended by its only zero byte")]
    NoTerminator,
    /// Out of memory.
    #[error("out of memory")]
    Memory,
}

impl From<Memory> for FrameFault {
    ghost use Rattle.std.specs.Prelude.{◌≡◌};
    ghost use Rattle.client_framing.specs.declared.frontend_message.FrameFault.TheVariants as faults;

    ghost from_gives = { λ _ e. e ≡ faults.Memory };

    fn from(_: Memory) -> Self {
        FrameFault::Memory
    }
}
