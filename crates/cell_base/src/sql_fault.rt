// Why SQL has no answer: a code, or memory was refused.
use crate::{Memory, SqlState};
use thiserror::Error;

/// Why a statement or an expression has no answer.
#[derive(Clone, Copy, Debug, PartialEq, Eq, Error)]
pub enum SqlFault {
    /// The code that comes first, PostgreSQL's for this fault.
    #[error("{0}")]
    State(SqlState),
    /// Out of memory.
    #[error("out of memory")]
    Memory,
}

impl From<SqlState> for SqlFault {
    ghost use Rattle.std.specs.Prelude.{◌≡◌};
    ghost use Rattle.cell_base.specs.declared.sql_fault.SqlFault.TheVariants as faults;

    ghost from_gives = { λ state e. e ≡ faults.State state };

    fn from(state: SqlState) -> Self {
        SqlFault::State(state)
    }
}

impl From<Memory> for SqlFault {
    ghost use Rattle.std.specs.Prelude.{◌≡◌};
    ghost use Rattle.cell_base.specs.declared.sql_fault.SqlFault.TheVariants as faults;

    ghost from_gives = { λ _ e. e ≡ faults.Memory };

    fn from(_: Memory) -> Self {
        SqlFault::Memory
    }
}
