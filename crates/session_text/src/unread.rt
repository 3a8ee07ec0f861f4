// Why a text isn't read.
use std::alloc::{AllocError, AllocFailed};
use thiserror::Error;

/// Why a line or a text of sessions isn't read.
#[derive(Clone, Copy, Debug, PartialEq, Eq, Error)]
pub enum Unread {
    /// The line is none that a session has.
    #[error("a line that no session has")]
    Line,
    /// Out of memory.
    #[error("out of memory")]
    Memory,
}

impl From<AllocError> for Unread {
    fn from(_: AllocError) -> Self {
        Unread::Memory
    }
}

impl<T: Drop> From<AllocFailed<T>> for Unread {
    fn from(_: AllocFailed<T>) -> Self {
        Unread::Memory
    }
}
