// Why a piece of the text can't be read.
use cell_base::Memory;
use hex::FromHexError;
use std::alloc::{AllocError, AllocFailed};
use thiserror::Error;

/// Why a piece of the text can't be read.
#[derive(Clone, Copy, Debug, PartialEq, Eq, Error)]
pub enum Misread {
    /// It isn't of its form.
    #[error("the text is not of its form")]
    Form,
    /// Out of memory.
    #[error("out of memory")]
    Memory,
}

impl From<Memory> for Misread {
    ghost use Rattle.std.specs.Prelude.{◌≡◌};
    ghost use Rattle.history_log.specs.declared.misread.Misread.TheVariants as misreads;

    ghost from_gives = { λ _ e. e ≡ misreads.Memory };

    fn from(_: Memory) -> Self {
        Misread::Memory
    }
}

impl From<AllocError> for Misread {
    ghost use Rattle.std.specs.Prelude.{◌≡◌};
    ghost use Rattle.history_log.specs.declared.misread.Misread.TheVariants as misreads;

    ghost from_gives = { λ _ e. e ≡ misreads.Memory };

    fn from(_: AllocError) -> Self {
        Misread::Memory
    }
}

impl<T: Drop> From<AllocFailed<T>> for Misread {
    ghost use Rattle.std.specs.Prelude.{◌≡◌};
    ghost use Rattle.history_log.specs.declared.misread.Misread.TheVariants as misreads;

    ghost from_gives = { λ _ e. e ≡ misreads.Memory };

    fn from(_: AllocFailed<T>) -> Self {
        Misread::Memory
    }
}

impl From<FromHexError> for Misread {
    ghost use Rattle.std.specs.Prelude.{◌≡◌, ◌≢◌};
    ghost use Rattle.hex.specs.declared.error.FromHexError.TheVariants as hexes;
    ghost use Rattle.history_log.specs.declared.misread.Misread.TheVariants as misreads;

    ghost from_gives = { λ e m. m ≡ misreads.Form → e ≢ hexes.OutOfMemory };

    fn from(fault: FromHexError) -> Self {
        match fault {
            FromHexError::OutOfMemory => Misread::Memory,
            FromHexError::OddLength => Misread::Form,
            FromHexError::InvalidStringLength => Misread::Form,
            FromHexError::InvalidHexCharacter { .. } => Misread::Form,
        }
    }
}
