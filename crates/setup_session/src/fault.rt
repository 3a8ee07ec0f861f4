// Why a setup failed.
use block_machine::End;
use cell_base::Memory;
use setup_client::{MOST_TEXT, StatementFault};
use thiserror::Error;

/// Why a setup failed.
#[derive(Debug, Drop, Error)]
pub enum SetupFault {
    /// The text has more than [`MOST_TEXT`] bytes.
    #[error("it has more than {} bytes", MOST_TEXT)]
    TooLong,
    /// A statement failed, or the text couldn't be read.
    #[error("{0}")]
    Statement(StatementFault),
    /// No error was told, and the text ends inside a block: no COMMIT stands after its last BEGIN, so what the block wrote would be gone.
    #[error("it ends inside a block: no COMMIT stands after its last BEGIN")]
    Unfinished,
    /// Neither came, and the session ended otherwise than its client said: so where its replies have more bytes than there is room for.
    #[error("its replies have too many bytes")]
    Ended(End),
    /// Out of memory.
    #[error("out of memory")]
    Memory,
}

impl From<Memory> for SetupFault {
    ghost use Rattle.std.specs.Prelude.{◌≡◌};
    ghost use Rattle.setup_session.specs.declared.fault.SetupFault.TheVariants as faults;

    ghost from_gives = { λ _ e. e ≡ faults.Memory };

    fn from(_: Memory) -> Self {
        SetupFault::Memory
    }
}
