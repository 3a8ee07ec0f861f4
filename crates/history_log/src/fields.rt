// Takes words off the front of a line.
ghost use Rattle.std.specs.Prelude.{decimal};
ghost use Rattle.history_log.specs.Spelling.{text_word, key_word, cell_word, value_word, level_word};
ghost use Rattle.history_log.specs.Reading.{IsU32, FitsKey, FitsCell, FitsValue, IsAnyLevel, IsUtf8Text, IsEnd, Takes, Reads};

use crate::cells::cell_of;
use crate::misread::Misread;
use crate::parts::Parts;
use crate::words::{key_of, level_of, number_of, text_of, value_of};
use cell_base::{Cell, Key, Level, Text, Value};
use std::alloc::Global;

/// Takes a number.
pub fn take_number(words: &mut Parts) -> Result<u32, Misread>
    ensures { Takes decimal IsU32 result words.old words.new }
{
    if let Some(n) = words.next_number() {
        return Ok(n);
    }
    let Some(word) = words.next() else {
        return Err(Misread::Form);
    };
    match number_of(word) {
        Some(n) => Ok(n),
        None => Err(Misread::Form),
    }
}

/// Takes a level.
pub fn take_level(words: &mut Parts) -> Result<Level, Misread>
    ensures { Takes level_word IsAnyLevel result words.old words.new }
{
    let Some(word) = words.next() else {
        return Err(Misread::Form);
    };
    match level_of(word) {
        Some(level) => Ok(level),
        None => Err(Misread::Form),
    }
}

/// Takes a text.
pub fn take_text(alloc: Global, words: &mut Parts) -> Result<Text, Misread>
    ensures { Takes text_word IsUtf8Text result words.old words.new }
{
    match words.next() {
        Some(word) => text_of(alloc, word),
        None => Err(Misread::Form),
    }
}

/// Takes a key.
pub fn take_key(alloc: Global, words: &mut Parts) -> Result<Key, Misread>
    ensures { Takes key_word FitsKey result words.old words.new }
{
    match words.next() {
        Some(word) => key_of(alloc, word),
        None => Err(Misread::Form),
    }
}

/// Takes a cell.
pub fn take_cell(alloc: Global, words: &mut Parts) -> Result<Cell, Misread>
    ensures { Takes cell_word FitsCell result words.old words.new }
{
    if let Some(compact) = words.next_cell() {
        return Ok(compact.cell());
    }
    match words.next() {
        Some(word) => cell_of(alloc, word),
        None => Err(Misread::Form),
    }
}

/// Takes a value.
pub fn take_value(alloc: Global, words: &mut Parts) -> Result<Value, Misread>
    ensures { Takes value_word FitsValue result words.old words.new }
{
    if let Some(n) = words.next_number() {
        return Ok(Value::Int(n as i64));
    }
    match words.next() {
        Some(word) => value_of(alloc, word),
        None => Err(Misread::Form),
    }
}

/// Whether nothing is left.
pub fn take_end(words: &mut Parts) -> Result<(), Misread>
    ensures { Reads IsEnd result words.old }
{
    match words.next() {
        Some(_) => Err(Misread::Form),
        None => Ok(()),
    }
}
