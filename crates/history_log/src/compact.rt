// Events of few digits: they are copied, and need no memory.
ghost use Rattle.std.specs.Prelude.{◌≡◌};
ghost use Rattle.history_log.specs.Compact.{compact_cell, compact_value, compact_read, compact_write, compact_own};

use cell_base::{Cell, Key, Value};
use history_core::Event;

/// A cell whose key is a number of few digits.
#[derive(Clone, Copy, Debug, PartialEq, Eq)]
pub enum CompactCell {
    /// The table and the key.
    Presence(u32, u32),
    /// The table, the key and the column.
    Field(u32, u32, u32),
}

/// A value that is a number of few digits or has a name.
#[derive(Clone, Copy, Debug, PartialEq, Eq)]
pub enum CompactValue {
    Unset,
    Null,
    Flag(bool),
    Int(u32),
}

/// An external read of few digits.
#[derive(Clone, Copy, Debug)]
pub struct CompactRead {
    pub session: u32,
    pub cell: CompactCell,
    pub source: u32,
    pub count: u32,
    pub word: u32,
    pub value: CompactValue,
}

/// A write or an own read of few digits.
#[derive(Clone, Copy, Debug)]
pub struct CompactAccess {
    pub session: u32,
    pub cell: CompactCell,
    pub value: CompactValue,
}

impl CompactCell {
    /// The cell.
    pub fn cell(self) -> Cell
        ensures { result ≡ compact_cell self }
    {
        match self {
            CompactCell::Presence(table, key) => Cell::Presence(table, Key::Int(key as i64)),
            CompactCell::Field(table, key, column) => {
                Cell::Field(table, Key::Int(key as i64), column)
            }
        }
    }
}

impl CompactValue {
    /// The value.
    pub fn value(self) -> Value
        ensures { result ≡ compact_value self }
    {
        match self {
            CompactValue::Unset => Value::Unset,
            CompactValue::Null => Value::Null,
            CompactValue::Flag(flag) => Value::Flag(flag),
            CompactValue::Int(number) => Value::Int(number as i64),
        }
    }
}

impl CompactRead {
    /// The event.
    pub fn event(self) -> Event
        ensures { result ≡ compact_read self }
    {
        Event::Read {
            session: self.session,
            cell: self.cell.cell(),
            source: self.source,
            count: self.count,
            word: self.word,
            value: self.value.value(),
        }
    }
}

impl CompactAccess {
    /// The event, where it is a write.
    pub fn as_write(self) -> Event
        ensures { result ≡ compact_write self }
    {
        Event::Write {
            session: self.session,
            cell: self.cell.cell(),
            value: self.value.value(),
        }
    }

    /// The event, where it is an own read.
    pub fn as_own(self) -> Event
        ensures { result ≡ compact_own self }
    {
        Event::Own {
            session: self.session,
            cell: self.cell.cell(),
            value: self.value.value(),
        }
    }
}
