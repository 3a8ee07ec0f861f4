// Why marks weren't read.
use cell_base::Memory;
use thiserror::Error;

/// Why marks weren't read.
#[derive(Clone, Copy, Debug, PartialEq, Eq, Error)]
pub enum Refusal {
    /// Out of memory.
    #[error("out of memory")]
    Memory,
    /// The grammar doesn't spell them.
    #[error("the grammar does not spell the marks")]
    NotInGrammar,
}

impl From<Memory> for Refusal {
    ghost use Rattle.std.specs.Prelude.{◌≡◌};
    ghost use Rattle.sql_parser.specs.declared.error.Refusal.TheVariants as refusal;

    ghost from_gives = { λ _ e. e ≡ refusal.Memory };

    fn from(_: Memory) -> Refusal {
        Refusal::Memory
    }
}
