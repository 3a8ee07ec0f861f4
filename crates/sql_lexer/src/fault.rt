// Why a text isn't a list of tokens.
ghost use Rattle.std.specs.Prelude.{◌≡◌};
ghost use Rattle.sql_lexer.specs.declared.fault.LexFault.TheVariants.{Memory as no_memory};

use cell_base::{Memory, SqlState};
use std::alloc::{AllocError, AllocFailed};
use thiserror::Error;

/// Why a text isn't a list of tokens. The number is the place at fault: the offset in bytes of the token or comment that
/// begins there.
#[derive(Clone, Copy, Debug, PartialEq, Eq, Error)]
pub enum LexFault {
    /// A string without its closing quote.
    #[error("the string that begins at byte {0} has no closing quote")]
    UnclosedString(u32),
    /// A comment without its `*/`.
    #[error("the comment that begins at byte {0} has no `*/`")]
    UnclosedComment(u32),
    /// A quoted name without its closing quote.
    #[error("the quoted name that begins at byte {0} has no closing quote")]
    UnclosedName(u32),
    /// A quoted name without a character.
    #[error("the quoted name at byte {0} is empty")]
    EmptyName(u32),
    /// A character with which nothing begins.
    #[error("nothing begins with the character at byte {0}")]
    BadCharacter(u32),
    /// A number that runs into a letter, `_` or `$`.
    #[error("the number at byte {0} runs into a letter, `_` or `$`")]
    Junk(u32),
    /// A number above 9223372036854775807.
    #[error("the number at byte {0} is above 9223372036854775807")]
    TooWide(u32),
    /// A word or a quoted name of more than 63 bytes.
    #[error("the name at byte {0} has more than 63 bytes")]
    NameTooLong(u32),
    /// A number with a point or an exponent, or a string with a prefix, as `e'a'`: PostgreSQL reads them, this server
    /// doesn't.
    #[error("the number or string at byte {0} is of a kind that is not supported")]
    Unsupported(u32),
    /// Out of memory.
    #[error("out of memory")]
    Memory,
}

impl From<AllocError> for LexFault {
    ghost from_gives = { λ _ e. e ≡ no_memory };

    fn from(_: AllocError) -> Self {
        LexFault::Memory
    }
}

impl<T: Drop> From<AllocFailed<T>> for LexFault {
    ghost from_gives = { λ _ e. e ≡ no_memory };

    fn from(_: AllocFailed<T>) -> Self {
        LexFault::Memory
    }
}

impl From<Memory> for LexFault {
    ghost from_gives = { λ _ e. e ≡ no_memory };

    fn from(_: Memory) -> Self {
        LexFault::Memory
    }
}

impl LexFault {
    ghost use Rattle.sql_lexer.specs.States.{state_of};

    /// The code that the server answers: 0A000 for what isn't supported, 22003 for a number that is too wide, 54000 for a
    /// name that is too long, 53200 for out of memory, and 42601, a syntax error, for all others.
    pub fn state(&self) -> SqlState
        ensures { result ≡ state_of self.now }
    {
        match self {
            LexFault::Unsupported(_) => SqlState::S0A000,
            LexFault::TooWide(_) => SqlState::S22003,
            LexFault::NameTooLong(_) => SqlState::S54000,
            LexFault::Memory => SqlState::S53200,
            LexFault::UnclosedString(_)
            | LexFault::UnclosedComment(_)
            | LexFault::UnclosedName(_)
            | LexFault::EmptyName(_)
            | LexFault::BadCharacter(_)
            | LexFault::Junk(_) => SqlState::S42601,
        }
    }
}
