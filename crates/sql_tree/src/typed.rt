// Statements with their types.
use crate::{OutField, TypedExpr};
use cell_base::{Items, Key};

/// A SELECT with its types. `tables`, `mentioned` and `points` have one member for each entry of FROM.
#[derive(Debug, Drop)]
pub struct TypedSelect {
    /// The columns of the result.
    pub fields: Items<OutField>,
    /// The number of each entry's table.
    pub tables: Items<u32>,
    /// The columns of each entry's table, but for its key, that the statement mentions, ascending.
    pub mentioned: Items<Items<u32>>,
    /// The one key at which an entry is read, where the entry isn't scanned.
    pub points: Items<Option<Key>>,
    /// The ON conditions in order, and then WHERE.
    pub conditions: Items<TypedExpr>,
    /// The values of a result row.
    pub items: Items<TypedExpr>,
    /// The terms of ORDER BY, each true for DESC.
    pub order: Items<(TypedExpr, bool)>,
    /// Whether the items hold an aggregate.
    pub aggregate: bool,
    pub limit: Option<i64>,
    pub offset: i64,
}

/// An INSERT with its types: for each row one expression for each column of the table, in declared order.
#[derive(Debug, Drop)]
pub struct TypedInsert {
    pub table: u32,
    pub rows: Items<Items<TypedExpr>>,
}

/// An UPDATE or a DELETE with its types.
#[derive(Debug, Drop)]
pub struct TypedChange {
    pub table: u32,
    /// The one key at which the table is read, where it isn't scanned.
    pub point: Option<Key>,
    /// The columns, but for the key, that are read, ascending.
    pub mentioned: Items<u32>,
    pub filter: Option<TypedExpr>,
    /// The assigned columns with their values, in text order.
    pub set: Items<(u32, TypedExpr)>,
    pub delete: bool,
}

/// A statement that reads or writes rows, with its types.
#[derive(Debug, Drop)]
pub enum Typed {
    Select(TypedSelect),
    Insert(TypedInsert),
    Change(TypedChange),
}
