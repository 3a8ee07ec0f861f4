// Where an expression stands.

/// Where an expression stands, as far as typing asks.
#[derive(Clone, Copy, Debug, PartialEq, Eq)]
pub enum Place {
    /// Of one row: columns may stand here, aggregates may not.
    Row,
    /// Of all rows together, in a SELECT with an aggregate: aggregates may stand here, and columns inside them alone.
    Group,
}
