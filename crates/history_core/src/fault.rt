// Why a history or a book refuses a call.
use cell_base::Memory;
use std::alloc::{AllocError, AllocFailed};
use thiserror::Error;

/// A limit of the history.
#[derive(Clone, Copy, Debug, PartialEq, Eq, Error)]
pub enum Limit {
    /// The load is at least 1,048,576.
    #[error("the load has reached the limit of 1,048,576")]
    Load,
    /// 65,535 transactions were begun.
    #[error("65,535 transactions have begun, which is the limit")]
    Transactions,
    /// 4,096 sessions were opened.
    #[error("4,096 sessions have been opened, which is the limit")]
    Sessions,
    /// 64 tables are defined.
    #[error("64 tables are defined, which is the limit")]
    Tables,
}

/// Why a book refuses a call.
#[derive(Clone, Copy, Debug, PartialEq, Eq, Error)]
pub enum BookFault {
    /// The history is full.
    #[error("the history is full: {0}")]
    Full(Limit),
    /// Out of memory.
    #[error("out of memory")]
    Memory,
}

/// What a book answers to a definition.
#[derive(Clone, Copy, Debug, PartialEq, Eq)]
pub enum DefineAnswer {
    /// The table is defined, with this number.
    Defined(u32),
    /// The name is taken; so many tables are defined.
    Taken(u32),
}

impl From<Memory> for BookFault {
    ghost use Rattle.std.specs.Prelude.{◌≡◌};
    ghost use Rattle.history_core.specs.declared.fault.BookFault.TheVariants as faults;

    ghost from_gives = { λ _ e. e ≡ faults.Memory };

    fn from(_: Memory) -> Self {
        BookFault::Memory
    }
}

impl From<AllocError> for BookFault {
    ghost use Rattle.std.specs.Prelude.{◌≡◌};
    ghost use Rattle.history_core.specs.declared.fault.BookFault.TheVariants as faults;

    ghost from_gives = { λ _ e. e ≡ faults.Memory };

    fn from(_: AllocError) -> Self {
        BookFault::Memory
    }
}

impl<T: Drop> From<AllocFailed<T>> for BookFault {
    ghost use Rattle.std.specs.Prelude.{◌≡◌};
    ghost use Rattle.history_core.specs.declared.fault.BookFault.TheVariants as faults;

    ghost from_gives = { λ _ e. e ≡ faults.Memory };

    fn from(_: AllocFailed<T>) -> Self {
        BookFault::Memory
    }
}
