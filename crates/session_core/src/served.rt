// What became of a session that was served.
use block_machine::End;

/// What became of a session.
#[derive(Clone, Copy, Debug, PartialEq, Eq)]
pub struct Served {
    /// The number of the session that was opened, if one was.
    pub session: Option<u32>,
    /// How it ended.
    pub end: End,
    /// Whether memory ran out.
    pub short: bool,
}
