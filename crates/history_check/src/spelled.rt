// A cell as the text of a history spells it.
use cell_base::{Cell, Key};
use std::fmt;

/// A cell as the text of a history spells it: `p.TABLE.KEY` or `f.TABLE.KEY.COLUMN`.
#[derive(Debug, Drop)]
pub struct SpelledCell<'a> {
    pub cell: &'a Cell,
}

/// A key as the text of a history spells it: a number, or `x` and the bytes of a text in lower-case hexadecimal.
#[derive(Debug, Drop)]
struct SpelledKey<'a> {
    key: &'a Key,
}

impl fmt::Display for SpelledKey<'_> {
    fn fmt<W: fmt::Write>(&self, f: &mut fmt::Formatter<W>) -> fmt::Result {
        match self.key {
            Key::Int(number) => write!(f, "{number}"),
            Key::Text(text) => {
                write!(f, "x")?;
                for byte in text.bytes() {
                    write!(f, "{byte:02x}")?;
                }
                Ok(())
            }
        }
    }
}

impl fmt::Display for SpelledCell<'_> {
    fn fmt<W: fmt::Write>(&self, f: &mut fmt::Formatter<W>) -> fmt::Result {
        match self.cell {
            Cell::Presence(table, key) => {
                let key = SpelledKey { key };
                write!(f, "p.{table}.{key}")
            }
            Cell::Field(table, key, column) => {
                let key = SpelledKey { key };
                write!(f, "f.{table}.{key}.{column}")
            }
        }
    }
}
