// What is wrong with a text that isn't a history's.
use cell_base::Memory;
use thiserror::Error;

/// What is wrong with bytes that aren't the text of a history.
#[derive(Clone, Copy, Debug, PartialEq, Eq, Error)]
pub enum LogFault {
    /// The first line isn't the head of a version.
    #[error("log fault: version")]
    Version,
    /// This line, counted from 1, isn't of its form in its place.
    #[error("log fault: line {0}")]
    Line(u32),
    /// There is no line feed, the last whole line isn't the end, or bytes follow the last line feed.
    #[error("log fault: cut")]
    Cut,
    /// There are more than 268,435,456 bytes.
    #[error("log fault: too long")]
    TooLong,
    /// Out of memory.
    #[error("out of memory")]
    Memory,
}

impl From<Memory> for LogFault {
    ghost use Rattle.std.specs.Prelude.{◌≡◌};
    ghost use Rattle.history_log.specs.declared.log_fault.LogFault.TheVariants as faults;

    ghost from_gives = { λ _ e. e ≡ faults.Memory };

    fn from(_: Memory) -> Self {
        LogFault::Memory
    }
}
