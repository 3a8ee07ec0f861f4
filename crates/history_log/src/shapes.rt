// Reads what stands after the keyword of an event.
ghost use Rattle.history_log.specs.Reading.{IsSession, IsSessionNumber, IsSessionText, IsSessionLevel, IsSessionCellValue, IsReadFields, IsScanFields, IsBeginFields, IsKeys, IsNumbers, Reads};

use crate::fields::{take_cell, take_end, take_level, take_number, take_text, take_value};
use crate::misread::Misread;
use crate::parts::Parts;
use crate::version::Version;
use crate::words::{key_of, number_of};
use cell_base::{Cell, Items, Key, Level, Text, Value};
use std::alloc::Global;

/// A session alone.
pub fn session_of(words: &mut Parts) -> Result<u32, Misread>
    ensures { Reads IsSession result words.old }
{
    let session = take_number(words)?;
    take_end(words)?;
    Ok(session)
}

/// A session and a number.
pub fn session_and_number(words: &mut Parts) -> Result<(u32, u32), Misread>
    ensures { Reads IsSessionNumber result words.old }
{
    let session = take_number(words)?;
    let number = take_number(words)?;
    take_end(words)?;
    Ok((session, number))
}

/// A session and a text.
pub fn session_and_text(alloc: Global, words: &mut Parts) -> Result<(u32, Text), Misread>
    ensures { Reads IsSessionText result words.old }
{
    let session = take_number(words)?;
    let text = take_text(alloc, words)?;
    take_end(words)?;
    Ok((session, text))
}

/// A session and a level.
fn session_and_level(words: &mut Parts) -> Result<(u32, Level), Misread>
    ensures { Reads IsSessionLevel result words.old }
{
    let session = take_number(words)?;
    let level = take_level(words)?;
    take_end(words)?;
    Ok((session, level))
}

/// The session and the level of a transaction that begins; in version 1 the level is the head's.
pub fn begin_of(version: Version, head: Level, words: &mut Parts) -> Result<(u32, Level), Misread>
    ensures { Reads (IsBeginFields version head) result words.old }
{
    match version {
        Version::One => Ok((session_of(words)?, head)),
        Version::Two => session_and_level(words),
        Version::Three => session_and_level(words),
    }
}

/// A session, a cell and a value.
pub fn session_cell_and_value(
    alloc: Global,
    words: &mut Parts,
) -> Result<(u32, Cell, Value), Misread>
    ensures { Reads IsSessionCellValue result words.old }
{
    let session = take_number(words)?;
    let cell = take_cell(alloc, words)?;
    let value = take_value(alloc, words)?;
    take_end(words)?;
    Ok((session, cell, value))
}

/// A session, a cell, a source, a count, a word and a value.
pub fn read_of(
    alloc: Global,
    words: &mut Parts,
) -> Result<(u32, Cell, u32, u32, u32, Value), Misread>
    ensures { Reads IsReadFields result words.old }
{
    let session = take_number(words)?;
    let cell = take_cell(alloc, words)?;
    let source = take_number(words)?;
    let count = take_number(words)?;
    let word = take_number(words)?;
    let value = take_value(alloc, words)?;
    take_end(words)?;
    Ok((session, cell, source, count, word, value))
}

/// A session, a table and keys.
pub fn scan_of(alloc: Global, words: &mut Parts) -> Result<(u32, u32, Items<Key>), Misread>
    ensures { Reads IsScanFields result words.old }
{
    let session = take_number(words)?;
    let table = take_number(words)?;
    Ok((session, table, keys_of(alloc, words)?))
}

/// Keys, to the end of the line.
fn keys_of(alloc: Global, words: &mut Parts) -> Result<Items<Key>, Misread>
    ensures { Reads IsKeys result words.old }
{
    let mut keys = Items::new(alloc);
    while let Some(word) = words.next() {
        keys.push(key_of(alloc, word)?)?;
    }
    Ok(keys)
}

/// Numbers, to the end of the line.
pub fn numbers_of(alloc: Global, words: &mut Parts) -> Result<Items<u32>, Misread>
    ensures { Reads IsNumbers result words.old }
{
    let mut numbers = Items::new(alloc);
    while let Some(word) = words.next() {
        match number_of(word) {
            Some(n) => numbers.push(n)?,
            None => return Err(Misread::Form),
        }
    }
    Ok(numbers)
}
