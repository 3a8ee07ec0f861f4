// Lines of text.
ghost use Rattle.std.specs.Prelude.{◌≡◌, ◌↔◌, false, IfOk, IsErr, IsTrue};

use cell_base::{Cell, Key, Value};
use std::alloc::{AllocError, Global};
use std::fmt::Debug;

/// A line of text. Where memory runs out it is cut, and then it isn't answered.
#[derive(Drop)]
pub struct Line {
    text: String,
    is_cut: bool,
}

impl Line {
    /// A line without words.
    pub fn new(alloc: Global) -> Line
        ensures { result.is_cut ≡ false }
    {
        Line {
            text: String::new(alloc),
            is_cut: false,
        }
    }

    /// Adds a word.
    pub fn word(&mut self, word: &str) {
        if self.text.push_str(word).is_err() {
            self.is_cut = true;
        }
    }

    /// Adds a word so many times.
    pub fn times(&mut self, word: &str, times: u32) {
        for _ in 0..times {
            self.word(word);
        }
    }

    /// Adds a number.
    pub fn number(&mut self, number: i64) {
        self.wide(i128::from(number));
    }

    /// Adds a number that may have more than 64 bits.
    pub fn wide(&mut self, number: i128) {
        if write!(self.text, "{number}").is_err() {
            self.is_cut = true;
        }
    }

    /// Adds the name of a value.
    pub fn name<T: Debug>(&mut self, value: &T) {
        if write!(self.text, "{value:?}").is_err() {
            self.is_cut = true;
        }
    }

    /// Adds a key: its number, or its text.
    pub fn key(&mut self, key: &Key) {
        match key {
            Key::Int(n) => self.number(*n),
            Key::Text(text) => self.word(text.as_str()),
        }
    }

    // The presence of the row of the key.
    fn row(&mut self, table: u32, key: &Key) {
        self.number(i64::from(table));
        self.word(".");
        self.key(key);
    }

    /// Adds a cell: its table's number and the key, and after them the number of the column, if it is a field.
    pub fn cell(&mut self, cell: &Cell) {
        match cell {
            Cell::Presence(table, key) => self.row(*table, key),
            Cell::Field(table, key, column) => {
                self.row(*table, key);
                self.word(".");
                self.number(i64::from(*column));
            }
        }
    }

    /// Adds a value: `t` or `f` for a flag, and for null the word that is given.
    pub fn value(&mut self, value: &Value, null: &str) {
        match value {
            Value::Unset => self.word("unset"),
            Value::Null => self.word(null),
            Value::Flag(flag) => self.word(if *flag { "t" } else { "f" }),
            Value::Int(n) => self.number(*n),
            Value::Wide(n) => self.wide(*n),
            Value::Text(text) => self.word(text.as_str()),
        }
    }

    /// The whole line.
    pub fn whole(self) -> Result<String, AllocError>
        ensures all { IfOk result (λ text. text ≡ self.text) }
        ensures cut { IsErr result ↔ IsTrue self.is_cut }
    {
        if self.is_cut {
            Err(AllocError)
        } else {
            Ok(self.text)
        }
    }
}
