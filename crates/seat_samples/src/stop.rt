// Why a test's run of calls ends.
use cell_base::Memory;
use history_core::{BookFault, History, Limit};
use std::alloc::{AllocError, AllocFailed};
use thiserror::Error;

/// Why a run of calls ends early. Numbers are those of the event that would have come next.
#[derive(Clone, Copy, Debug, Error)]
pub enum Stop {
    /// Out of memory.
    #[error("out of memory")]
    Memory,
    /// The history is full.
    #[error("the history is full: {0}")]
    Full(Limit),
    /// The session doesn't stand so that the call may be made.
    #[error("misplaced call before event {0}")]
    Misplaced(u32),
    /// Something else was offered or told than was expected.
    #[error("another answer before event {0}")]
    Unlike(u32),
    /// The load of the history, where it was to be another one.
    #[error("a load of {0}")]
    Load(u64),
    /// A call succeeded that was to be refused.
    #[error("an accepted call")]
    Accepted,
}

/// The call can't be made where the history stands.
pub fn misplaced(history: &History) -> Stop {
    Stop::Misplaced(history.next_number())
}

/// Something else came than was expected.
pub fn unlike(history: &History) -> Stop {
    Stop::Unlike(history.next_number())
}

impl From<Memory> for Stop {
    fn from(_: Memory) -> Self {
        Stop::Memory
    }
}

impl From<AllocError> for Stop {
    fn from(_: AllocError) -> Self {
        Stop::Memory
    }
}

impl<T: Drop> From<AllocFailed<T>> for Stop {
    fn from(_: AllocFailed<T>) -> Self {
        Stop::Memory
    }
}

impl From<BookFault> for Stop {
    fn from(fault: BookFault) -> Self {
        match fault {
            BookFault::Memory => Stop::Memory,
            BookFault::Full(limit) => Stop::Full(limit),
        }
    }
}
