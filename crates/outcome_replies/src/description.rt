// Whether a reply has its RowDescription.

/// Whether the reply of a statement that answers rows has its RowDescription. The other statements have none in any case.
#[derive(Clone, Copy, Debug, PartialEq, Eq)]
pub enum RowDescription {
    /// It is told before the rows, as in the reply to a Query.
    Told,
    /// It is left out, as in the reply to an Execute.
    Omitted,
}
