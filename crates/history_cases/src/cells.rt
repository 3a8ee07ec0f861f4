// Cells of the first table and values, as constants.
use cell_base::{Cell, Key, Value};

/// A cell.
#[derive(Clone, Copy)]
pub enum Spot {
    /// Whether the row of the key is there.
    Presence(i64),
    /// The column of the row of the key.
    Field(i64, u32),
}

impl Spot {
    /// The cell.
    pub fn cell(self) -> Cell {
        match self {
            Spot::Presence(key) => Cell::Presence(0, Key::Int(key)),
            Spot::Field(key, column) => Cell::Field(0, Key::Int(key), column),
        }
    }
}

/// A value.
#[derive(Clone, Copy)]
pub enum Lit {
    Null,
    Flag(bool),
    Int(i64),
}

impl Lit {
    /// The value.
    pub fn value(self) -> Value {
        match self {
            Lit::Null => Value::Null,
            Lit::Flag(flag) => Value::Flag(flag),
            Lit::Int(n) => Value::Int(n),
        }
    }
}

/// A cell, and the value that is found at it, if one is.
pub type Found = (Spot, Option<Lit>);

/// Whether this is what is found.
pub fn is_found(found: Option<&Value>, want: Option<Lit>) -> bool {
    match (found, want) {
        (Some(value), Some(lit)) => *value == lit.value(),
        (None, None) => true,
        _ => false,
    }
}
