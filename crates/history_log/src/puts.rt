// Writes words.
ghost use Rattle.std.specs.Prelude.{◌≡◌, ◌++◌, ◌∷◌, decimal, OnOk};
ghost use Rattle.std.specs.Fmt.{signed_decimal};
ghost use Rattle.history_log.specs.Spelling.{text_word, key_word, cell_word, value_word, level_word, keyword_word};
ghost use Rattle.std.specs.Str.{IsUtf8};
ghost use Rattle.history_log.specs.Reading.{IsU32, IsI64, FitsKey, FitsCell, FitsValue};
ghost use Rattle.history_log.specs.Log.{IsNotWide};

use crate::keyword::Keyword;
use cell_base::{Cell, Key, Level, Memory, Text, Value};
use itoa::Buffer;
use std::alloc::Global;

/// Writes bytes at the end.
pub fn put(out: &mut Vec<u8>, text: &[u8]) -> Result<(), Memory>
    ensures { OnOk result (out.new.items ≡ out.old.items ++ text.now) }
{
    out.extend_from_slice(text)?;
    Ok(())
}

/// Writes a number. What is written fits its type, here and below.
pub fn put_number(out: &mut Vec<u8>, n: u32) -> Result<(), Memory>
    ensures text { OnOk result (out.new.items ≡ out.old.items ++ decimal n) }
    ensures fits { OnOk result (IsU32 n) }
{
    put(out, Buffer::new().format(n).as_bytes())
}

/// Writes an integer.
fn put_integer(out: &mut Vec<u8>, n: i64) -> Result<(), Memory>
    ensures text { OnOk result (out.new.items ≡ out.old.items ++ signed_decimal n) }
    ensures fits { OnOk result (IsI64 n) }
{
    put(out, Buffer::new().format(n).as_bytes())
}

/// Writes a text.
pub fn put_text(alloc: Global, out: &mut Vec<u8>, text: &Text) -> Result<(), Memory>
    ensures text { OnOk result (out.new.items ≡ out.old.items ++ text_word text.now) }
    ensures fits { OnOk result (IsUtf8 text.now) }
{
    put(out, b"x")?;
    put(out, hex::encode(alloc, text.bytes())?.as_bytes())
}

/// Writes a key.
pub fn put_key(alloc: Global, out: &mut Vec<u8>, key: &Key) -> Result<(), Memory>
    ensures text { OnOk result (out.new.items ≡ out.old.items ++ key_word key.now) }
    ensures fits { OnOk result (FitsKey key.now) }
{
    match key {
        Key::Int(n) => put_integer(out, *n),
        Key::Text(text) => put_text(alloc, out, text),
    }
}

/// Writes a cell.
pub fn put_cell(alloc: Global, out: &mut Vec<u8>, cell: &Cell) -> Result<(), Memory>
    ensures text { OnOk result (out.new.items ≡ out.old.items ++ cell_word cell.now) }
    ensures fits { OnOk result (FitsCell cell.now) }
{
    match cell {
        Cell::Presence(table, key) => {
            put(out, b"p.")?;
            put_number(out, *table)?;
            put(out, b".")?;
            put_key(alloc, out, key)
        }
        Cell::Field(table, key, column) => {
            put(out, b"f.")?;
            put_number(out, *table)?;
            put(out, b".")?;
            put_key(alloc, out, key)?;
            put(out, b".")?;
            put_number(out, *column)
        }
    }
}

/// Writes a value that isn't wide.
pub fn put_value(alloc: Global, out: &mut Vec<u8>, value: &Value) -> Result<(), Memory>
    requires { IsNotWide value.now }
    ensures text { OnOk result (out.new.items ≡ out.old.items ++ value_word value.now) }
    ensures fits { OnOk result (FitsValue value.now) }
{
    match value {
        Value::Unset => put(out, b"unset"),
        Value::Null => put(out, b"null"),
        Value::Flag(true) => put(out, b"true"),
        Value::Flag(false) => put(out, b"false"),
        Value::Int(n) => put_integer(out, *n),
        Value::Wide(_) => unreachable!(),
        Value::Text(text) => put_text(alloc, out, text),
    }
}

/// Writes a level.
pub fn put_level(out: &mut Vec<u8>, level: Level) -> Result<(), Memory>
    ensures { OnOk result (out.new.items ≡ out.old.items ++ level_word level) }
{
    match level {
        Level::Rc => put(out, b"rc"),
        Level::Ra => put(out, b"ra"),
        Level::Cc => put(out, b"cc"),
    }
}

/// Writes a keyword and a session.
pub fn put_start(out: &mut Vec<u8>, keyword: Keyword, session: u32) -> Result<(), Memory>
    ensures text { OnOk result (out.new.items ≡ out.old.items ++ (keyword_word keyword ++ 32 ∷ decimal session)) }
    ensures fits { OnOk result (IsU32 session) }
{
    put(out, keyword.text())?;
    put(out, b" ")?;
    put_number(out, session)
}
