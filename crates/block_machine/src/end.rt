// How a session ends.
use cell_base::SqlState;
use client_framing::FrameFault;

/// How a session ended.
#[derive(Clone, Copy, Debug, PartialEq, Eq)]
pub enum End {
    /// The client said so.
    Terminated,
    /// The input ended between two messages.
    Closed,
    /// The input ended inside a message.
    Cut,
    /// The bytes are no messages; a fatal ErrorResponse with 08P01 was sent.
    Protocol(FrameFault),
    /// The client asked that another session's query be cancelled; nothing was sent.
    Cancelled,
    /// A read of the link failed.
    ReadFault,
    /// A write to the link failed.
    WriteFault,
    /// Out of memory.
    Memory,
    /// The session was not started; a fatal ErrorResponse with this code was sent.
    Refused(SqlState),
    /// 1,073,741,824 bytes were read and more were wanted; a fatal ErrorResponse with 54000 was sent.
    Spent,
}

/// Why no more bytes come.
#[derive(Clone, Copy, Debug, PartialEq, Eq)]
pub enum Stop {
    /// The input ended.
    EndOfInput,
    /// A read of the link failed.
    ReadFault,
    /// The limit of bytes was reached.
    Spent,
}
