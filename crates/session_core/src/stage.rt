// What a session does next.
use crate::phase::Phase;
use client_framing::FrameFault;
use pg_framing::TransactionState;

/// An end that a FATAL reply tells.
#[derive(Clone, Copy, Debug, PartialEq, Eq)]
pub enum Fatal {
    Protocol(FrameFault),
    NoUser,
    OtherVersion,
    /// The book was full at the session's opening.
    Full,
    Spent,
}

/// An end, with its reply where it has one.
#[derive(Clone, Copy, Debug, PartialEq, Eq)]
pub enum Finish {
    Terminated,
    Closed,
    Cut,
    Cancelled,
    ReadFault,
    WriteFault,
    Memory,
    Fatal(Fatal),
}

/// A reply of the session's own, after which the next message follows.
#[derive(Clone, Copy, Debug, PartialEq, Eq)]
pub enum SessionReply {
    /// A request for encryption is refused.
    NoEncryption,
    /// The session was opened. The startup reply was built.
    Startup,
    /// A Sync is answered.
    Ready(TransactionState),
    /// The error of a message of the extended query, and the state that its block is then in.
    Unsupported(TransactionState),
}

/// What comes next.
#[derive(Clone, Copy, Debug, PartialEq, Eq)]
pub enum SessionStage {
    /// Bytes are wanted.
    Waiting(Phase),
    /// The next message is to be taken, if one is held.
    Taking(Phase),
    Opening,
    /// The statements of a message run.
    Running,
    /// The rollback of the block in which a message of the extended query stood.
    Undoing,
    /// A reply is held.
    Telling(SessionReply),
    /// The end: its rollback, its close, its last reply.
    Leaving(Finish),
    Closing(Finish),
    Parting(Fatal),
    Ended(Finish),
}
