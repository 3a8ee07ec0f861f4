// The cells of the table's rows, whose keys are integers, and the values that numbers stand for in them.
ghost use Rattle.std.specs.Prelude.{◌≡◌, pos};
ghost use Rattle.history_core.specs.Events.{table_of};
ghost use Rattle.history_core.specs.Initial.{IsStorable};

use cell_base::{Cell, Key, Value};

/// Whether the row of key 1 is there.
pub fn presence() -> Cell
    ensures is { result ≡ Cell.Presence 0 (Key.Int (pos 1)) }
    ensures table { table_of result ≡ 0 }
{
    Cell::Presence(0, Key::Int(1))
}

/// The field v of the row of key 1.
pub fn field() -> Cell
    ensures is { result ≡ Cell.Field 0 (Key.Int (pos 1)) 1 }
    ensures table { table_of result ≡ 0 }
{
    Cell::Field(0, Key::Int(1), 1)
}

/// The number that stands for null in a field.
pub const NULL: i64 = -1;

/// The number that stands for what is in a field that nobody wrote.
pub const UNSET: i64 = -2;

/// A cell of the row of a key.
#[derive(Clone, Copy, PartialEq, Eq)]
pub enum Spot {
    /// Whether the row is there.
    Presence(i64),
    /// Its column v.
    Field(i64),
}

impl Spot {
    /// The cell.
    pub fn cell(self) -> Cell
        ensures { table_of result ≡ 0 }
    {
        match self {
            Spot::Presence(key) => Cell::Presence(0, Key::Int(key)),
            Spot::Field(key) => Cell::Field(0, Key::Int(key), 1),
        }
    }

    /// The value that a number stands for in the cell: in a presence each but 0 is true.
    pub fn value(self, number: i64) -> Value {
        if number == UNSET {
            return Value::Unset;
        }
        self.written(number)
    }

    /// The same for a write, which can't unset the cell.
    pub fn written(self, number: i64) -> Value
        ensures { IsStorable result }
    {
        match self {
            Spot::Presence(_) => Value::Flag(number != 0),
            Spot::Field(_) => number_or_null(number),
        }
    }
}

fn number_or_null(number: i64) -> Value
    ensures { IsStorable result }
{
    if number == NULL {
        return Value::Null;
    }
    Value::Int(number)
}
