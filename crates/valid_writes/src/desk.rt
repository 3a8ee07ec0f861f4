// What a book of a store keeps.
use crate::kept::Kept;

/// Where the session of a book stands.
#[derive(Clone, Copy, Debug, PartialEq, Eq)]
pub enum Stage {
    /// It is closed, or none was opened.
    NoSession,
    /// It is open, and nothing is pending in it.
    InSession,
    /// Its transaction is pending.
    Pending,
}

/// The store, the session that was given at the start, the number of events then, and the session now with where it stands.
#[derive(Debug, Drop)]
pub struct Desk {
    pub store: Kept,
    pub given: Option<u32>,
    pub from: usize,
    pub session: u32,
    pub stage: Stage,
}
