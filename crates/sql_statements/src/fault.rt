// Why a text or a token list isn't a list of statements.

use cell_base::{Memory, SqlState};
use sql_lexer::LexFault;
use thiserror::Error;

/// Why a text or a token list isn't a list of statements. Only a fault of the lexer has a place.
#[derive(Clone, Copy, Debug, PartialEq, Eq, Error)]
pub enum ParseFault {
    /// The text isn't a list of tokens. Never holds [`LexFault::Memory`].
    #[error("{0}")]
    Lex(LexFault),
    /// What no grammar spells.
    #[error("syntax error")]
    Syntax,
    /// What PostgreSQL reads and this server doesn't support.
    #[error("the statement is not supported")]
    Unsupported,
    /// An expression that is spelled deeper than 64, or more than 66 parentheses open at once.
    #[error("an expression or its parentheses are nested too deep")]
    TooDeep,
    /// More than 256 statements, or more than 1,000 rows in an INSERT.
    #[error("too many statements, or too many rows in an INSERT")]
    TooMany,
    /// Out of memory.
    #[error("out of memory")]
    Memory,
}

impl From<Memory> for ParseFault {
    ghost use Rattle.std.specs.Prelude.{◌≡◌};
    ghost use Rattle.sql_statements.specs.declared.fault.ParseFault.TheVariants as fault;

    ghost from_gives = { λ _ e. e ≡ fault.Memory };

    fn from(_: Memory) -> ParseFault {
        ParseFault::Memory
    }
}

impl ParseFault {
    ghost use Rattle.std.specs.Prelude.{◌≡◌};
    ghost use Rattle.sql_statements.specs.Faults.{state_of};

    /// The code that the server answers: 54000 beyond a limit, 0A000 for what isn't supported, 42601 for a syntax error,
    /// 53200 for out of memory, and the lexer's code for its faults.
    pub fn state(&self) -> SqlState
        ensures { result ≡ state_of self.now }
    {
        match self {
            ParseFault::Lex(fault) => fault.state(),
            ParseFault::TooMany | ParseFault::TooDeep => SqlState::S54000,
            ParseFault::Unsupported => SqlState::S0A000,
            ParseFault::Syntax => SqlState::S42601,
            ParseFault::Memory => SqlState::S53200,
        }
    }
}
