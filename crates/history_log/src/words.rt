// Reads the words of a line.
ghost use Rattle.std.specs.Prelude.{◌≡◌, ◌≢◌, ◌∷◌, ◌++◌, ℕ, List, IfSome, MatchOption};
ghost use Rattle.history_log.specs.Reading.{IsNumber, IsInteger, IsHex, IsText, IsKey, IsNamedValue, IsValue, IsLevel, Finds, Reads};

use crate::digits::few_digits;
use crate::misread::Misread;
use cell_base::{Items, Key, Level, Text, TextFault, Value};
use itoa::Buffer;
use std::alloc::Global;
use std::str;

/// The number, without leading zeros and without a sign.
pub fn number_of(word: &[u8]) -> Option<u32>
    ensures { Finds IsNumber result word.now }
{
    match few_digits(word) {
        Some(n) => Some(n),
        None => long_number(word),
    }
}

/// The number, whatever its length.
fn long_number(word: &[u8]) -> Option<u32>
    ensures { Finds IsNumber result word.now }
{
    let Ok(text) = str::from_utf8(word) else {
        return None;
    };
    let Ok(n) = text.parse::<u32>() else {
        return None;
    };
    if Buffer::new().format(n).as_bytes() == word {
        Some(n)
    } else {
        None
    }
}

/// The integer, without leading zeros, with a sign where it is below zero.
pub fn integer_of(word: &[u8]) -> Option<i64>
    ensures { Finds IsInteger result word.now }
{
    match few_digits(word) {
        Some(n) => Some(n as i64),
        None => long_integer(word),
    }
}

/// The integer, whatever its length.
fn long_integer(word: &[u8]) -> Option<i64>
    ensures { Finds IsInteger result word.now }
{
    let Ok(text) = str::from_utf8(word) else {
        return None;
    };
    let Ok(n) = text.parse::<i64>() else {
        return None;
    };
    if Buffer::new().format(n).as_bytes() == word {
        Some(n)
    } else {
        None
    }
}

/// The level.
pub fn level_of(word: &[u8]) -> Option<Level>
    ensures { Finds IsLevel result word.now }
{
    match word {
        b"rc" => Some(Level::Rc),
        b"ra" => Some(Level::Ra),
        b"cc" => Some(Level::Cc),
        _ => None,
    }
}

/// The bytes that lower-case hex digits are.
fn hex_bytes(alloc: Global, digits: &[u8]) -> Result<Items<u8>, Misread>
    ensures { Reads IsHex result digits.now }
{
    let bytes = hex::decode(alloc, digits)?;
    let again = hex::encode(alloc, bytes.as_slice())?;
    if again.as_bytes() == digits {
        Ok(Items::from_vec(bytes))
    } else {
        Err(Misread::Form)
    }
}

/// What stands after this byte, where the word begins with it.
#[inline(always)]
pub fn after_byte(word: &[u8], byte: u8) -> Option<&[u8]>
    ensures { MatchOption result ((rest : List ℕ) → word.now ≢ byte ∷ rest) (λ rest. word.now ≡ byte ∷ rest.now) }
{
    if word.is_empty() {
        return None;
    }
    if word[0] == byte {
        Some(&word[1..])
    } else {
        None
    }
}

/// What stands after this word, where the text begins with it. `None` says nothing of the text.
#[inline(always)]
pub fn after_word<'a>(text: &'a [u8], word: &[u8]) -> Option<&'a [u8]>
    ensures { IfSome result (λ rest. text.now ≡ word.now ++ rest.now) }
{
    let mut rest = text;
    for byte in word {
        let after = after_byte(rest, *byte)?;
        rest = after;
    }
    Some(rest)
}

/// The text: an `x` and lower-case hex digits of UTF-8.
pub fn text_of(alloc: Global, word: &[u8]) -> Result<Text, Misread>
    ensures { Reads IsText result word.now }
{
    let Some(digits) = after_byte(word, b'x') else {
        return Err(Misread::Form);
    };
    let bytes = hex_bytes(alloc, digits)?;
    match Text::from_bytes(alloc, bytes.as_slice()) {
        Ok(text) => Ok(text),
        Err(TextFault::NotUtf8) => Err(Misread::Form),
        Err(TextFault::Memory) => Err(Misread::Memory),
    }
}

/// The key: an integer or a text.
pub fn key_of(alloc: Global, word: &[u8]) -> Result<Key, Misread>
    ensures { Reads IsKey result word.now }
{
    match integer_of(word) {
        Some(n) => Ok(Key::Int(n)),
        None => Ok(Key::Text(text_of(alloc, word)?)),
    }
}

/// The value that a word is, where it names one.
fn named_value(word: &[u8]) -> Option<Value>
    ensures { Finds IsNamedValue result word.now }
{
    match word {
        b"unset" => Some(Value::Unset),
        b"null" => Some(Value::Null),
        b"true" => Some(Value::Flag(true)),
        b"false" => Some(Value::Flag(false)),
        _ => None,
    }
}

/// The value.
pub fn value_of(alloc: Global, word: &[u8]) -> Result<Value, Misread>
    ensures { Reads IsValue result word.now }
{
    if let Some(value) = named_value(word) {
        return Ok(value);
    }
    match integer_of(word) {
        Some(n) => Ok(Value::Int(n)),
        None => Ok(Value::Text(text_of(alloc, word)?)),
    }
}
