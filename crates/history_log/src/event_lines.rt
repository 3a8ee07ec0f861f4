// Writes the lines of events.
ghost use Rattle.std.specs.Prelude.{◌≡◌, ◌++◌, ◌∷◌, decimal, OnOk, map};
ghost use Rattle.std.specs.List.{AllByRecursion};
ghost use Rattle.history_log.specs.Spelling.{key_word, cell_word, value_word, keyword_word, event_line, words_after};
ghost use Rattle.history_log.specs.Reading.{IsU32, FitsKey, FitsCell, FitsValue, FitsEvent};
ghost use Rattle.history_log.specs.Log.{IsNotWide, HasNoWide};

use crate::keyword::Keyword;
use crate::puts::{put, put_cell, put_key, put_level, put_number, put_start, put_text, put_value};
use crate::version::Version;
use cell_base::{Cell, Key, Memory, Value};
use history_core::Event;
use std::alloc::Global;

/// Writes the line of an event, as versions 2 and 3 have it, without its line feed.
pub fn put_event(alloc: Global, out: &mut Vec<u8>, event: &Event) -> Result<(), Memory>
    requires { HasNoWide event.now }
    ensures text { OnOk result (out.new.items ≡ out.old.items ++ event_line Version.Two event.now) }
    ensures fits { OnOk result (FitsEvent event.now) }
{
    match event {
        Event::Open { session } => put_start(out, Keyword::Open, *session),
        Event::Close { session } => put_start(out, Keyword::Close, *session),
        Event::Commit { session } => put_start(out, Keyword::Commit, *session),
        Event::Rollback { session } => put_start(out, Keyword::Rollback, *session),
        Event::Define { session, name } => {
            put_start(out, Keyword::Define, *session)?;
            put(out, b" ")?;
            put_text(alloc, out, name)
        }
        Event::Look { session, tables } => put_pair(out, Keyword::Look, *session, *tables),
        Event::Show { session, number } => put_pair(out, Keyword::Show, *session, *number),
        Event::Begin { session, level } => {
            put_start(out, Keyword::Begin, *session)?;
            put(out, b" ")?;
            put_level(out, *level)
        }
        Event::Scan {
            session,
            table,
            keys,
        } => {
            put_pair(out, Keyword::Scan, *session, *table)?;
            put_keys(alloc, out, keys.as_slice())
        }
        Event::Read {
            session,
            cell,
            source,
            count,
            word,
            value,
        } => {
            put_start(out, Keyword::Read, *session)?;
            put(out, b" ")?;
            put_cell(alloc, out, cell)?;
            put_three(out, *source, *count, *word)?;
            put(out, b" ")?;
            put_value(alloc, out, value)
        }
        Event::Own {
            session,
            cell,
            value,
        } => put_access(alloc, out, Keyword::Own, *session, cell, value),
        Event::Write {
            session,
            cell,
            value,
        } => put_access(alloc, out, Keyword::Write, *session, cell, value),
    }
}

/// A keyword, a session and a number.
fn put_pair(out: &mut Vec<u8>, keyword: Keyword, session: u32, number: u32) -> Result<(), Memory>
    ensures text { OnOk result (out.new.items ≡ out.old.items ++ (keyword_word keyword ++ 32 ∷ (decimal session ++ 32 ∷ decimal number))) }
    ensures fits { OnOk result (IsU32 session × IsU32 number) }
{
    put_start(out, keyword, session)?;
    put(out, b" ")?;
    put_number(out, number)
}

/// Three numbers, each after a blank.
fn put_three(out: &mut Vec<u8>, first: u32, second: u32, third: u32) -> Result<(), Memory>
    ensures text { OnOk result (out.new.items ≡ out.old.items ++ (32 ∷ (decimal first ++ 32 ∷ (decimal second ++ 32 ∷ decimal third)))) }
    ensures fits { OnOk result (IsU32 first × IsU32 second × IsU32 third) }
{
    put(out, b" ")?;
    put_number(out, first)?;
    put(out, b" ")?;
    put_number(out, second)?;
    put(out, b" ")?;
    put_number(out, third)
}

/// A keyword, a session, a cell and a value.
fn put_access(
    alloc: Global,
    out: &mut Vec<u8>,
    keyword: Keyword,
    session: u32,
    cell: &Cell,
    value: &Value,
) -> Result<(), Memory>
    requires { IsNotWide value.now }
    ensures text { OnOk result (out.new.items ≡ out.old.items ++ (keyword_word keyword ++ 32 ∷ (decimal session ++ 32 ∷ (cell_word cell.now ++ 32 ∷ value_word value.now)))) }
    ensures fits { OnOk result (IsU32 session × FitsCell cell.now × FitsValue value.now) }
{
    put_start(out, keyword, session)?;
    put(out, b" ")?;
    put_cell(alloc, out, cell)?;
    put(out, b" ")?;
    put_value(alloc, out, value)
}

/// Keys, each after a blank.
fn put_keys(alloc: Global, out: &mut Vec<u8>, keys: &[Key]) -> Result<(), Memory>
    ensures text { OnOk result (out.new.items ≡ out.old.items ++ words_after (map key_word keys.now)) }
    ensures fits { OnOk result (AllByRecursion FitsKey keys.now) }
{
    for key in keys {
        put(out, b" ")?;
        put_key(alloc, out, key)?;
    }
    Ok(())
}
