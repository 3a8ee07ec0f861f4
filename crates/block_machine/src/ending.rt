// Whether the end of a message has its ReadyForQuery.

/// Whether the end of a message has its ReadyForQuery.
#[derive(Clone, Copy, Debug, PartialEq, Eq)]
pub enum ReadyForQuery {
    /// It is told, as at the end of a Query, and at a Sync.
    Told,
    /// It is left out.
    Omitted,
}
