//! Why a test ends early.

use std::alloc::{AllocError, AllocFailed};

/// Why a test ends early.
#[derive(Clone, Copy, Debug)]
pub(crate) enum Stop {
    /// Out of memory.
    Memory,
    /// Something else came of the step at this place of a table, or of a trial after so many edges.
    At(usize),
    /// Something else came of these two numbers.
    Between(u32, u32),
}

impl From<AllocError> for Stop {
    fn from(_: AllocError) -> Self {
        Stop::Memory
    }
}

impl<T: Drop> From<AllocFailed<T>> for Stop {
    fn from(_: AllocFailed<T>) -> Self {
        Stop::Memory
    }
}

/// Ends the test where this doesn't hold.
pub(crate) fn agree(holds: bool, stop: Stop) -> Result<(), Stop> {
    if holds { Ok(()) } else { Err(stop) }
}
