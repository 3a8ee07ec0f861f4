// Reads events.
ghost use Rattle.history_log.specs.Reading.{IsEventAfter, Reads};

use crate::keyword::Keyword;
use crate::misread::Misread;
use crate::parts::Parts;
use crate::shapes::{
    begin_of, read_of, scan_of, session_and_number, session_and_text, session_cell_and_value,
    session_of,
};
use crate::version::Version;
use cell_base::Level;
use history_core::Event;
use std::alloc::Global;

/// The event of this keyword and these words, in a text of this version whose head has this level.
pub fn event_of(
    alloc: Global,
    version: Version,
    head: Level,
    keyword: Keyword,
    words: &mut Parts,
) -> Result<Event, Misread>
    ensures { Reads (IsEventAfter version head keyword) result words.old }
{
    match keyword {
        Keyword::Open => open_of(version, head, words),
        Keyword::Close => close_of(version, head, words),
        Keyword::Commit => commit_of(version, head, words),
        Keyword::Rollback => rollback_of(version, head, words),
        Keyword::Define => define_of(alloc, version, head, words),
        Keyword::Look => look_of(version, head, words),
        Keyword::Show => show_of(version, head, words),
        Keyword::Begin => begin_event(version, head, words),
        Keyword::Scan => scan_event(alloc, version, head, words),
        Keyword::Read => read_event(alloc, version, head, words),
        Keyword::Own => own_of(alloc, version, head, words),
        Keyword::Write => write_of(alloc, version, head, words),
        Keyword::Initial => Err(Misread::Form),
        Keyword::Order => Err(Misread::Form),
        Keyword::End => Err(Misread::Form),
    }
}

fn define_of(
    alloc: Global,
    _version: Version,
    _head: Level,
    words: &mut Parts,
) -> Result<Event, Misread>
    ensures { Reads (IsEventAfter _version _head Keyword.Define) result words.old }
{
    let (session, name) = session_and_text(alloc, words)?;
    Ok(Event::Define { session, name })
}

fn look_of(_version: Version, _head: Level, words: &mut Parts) -> Result<Event, Misread>
    ensures { Reads (IsEventAfter _version _head Keyword.Look) result words.old }
{
    let (session, tables) = session_and_number(words)?;
    Ok(Event::Look { session, tables })
}

fn show_of(_version: Version, _head: Level, words: &mut Parts) -> Result<Event, Misread>
    ensures { Reads (IsEventAfter _version _head Keyword.Show) result words.old }
{
    let (session, number) = session_and_number(words)?;
    Ok(Event::Show { session, number })
}

fn begin_event(version: Version, head: Level, words: &mut Parts) -> Result<Event, Misread>
    ensures { Reads (IsEventAfter version head Keyword.Begin) result words.old }
{
    let (session, level) = begin_of(version, head, words)?;
    Ok(Event::Begin { session, level })
}

fn scan_event(
    alloc: Global,
    _version: Version,
    _head: Level,
    words: &mut Parts,
) -> Result<Event, Misread>
    ensures { Reads (IsEventAfter _version _head Keyword.Scan) result words.old }
{
    let (session, table, keys) = scan_of(alloc, words)?;
    Ok(Event::Scan {
        session,
        table,
        keys,
    })
}

fn read_event(
    alloc: Global,
    _version: Version,
    _head: Level,
    words: &mut Parts,
) -> Result<Event, Misread>
    ensures { Reads (IsEventAfter _version _head Keyword.Read) result words.old }
{
    let (session, cell, source, count, word, value) = read_of(alloc, words)?;
    Ok(Event::Read {
        session,
        cell,
        source,
        count,
        word,
        value,
    })
}

fn own_of(
    alloc: Global,
    _version: Version,
    _head: Level,
    words: &mut Parts,
) -> Result<Event, Misread>
    ensures { Reads (IsEventAfter _version _head Keyword.Own) result words.old }
{
    let (session, cell, value) = session_cell_and_value(alloc, words)?;
    Ok(Event::Own {
        session,
        cell,
        value,
    })
}

fn write_of(
    alloc: Global,
    _version: Version,
    _head: Level,
    words: &mut Parts,
) -> Result<Event, Misread>
    ensures { Reads (IsEventAfter _version _head Keyword.Write) result words.old }
{
    let (session, cell, value) = session_cell_and_value(alloc, words)?;
    Ok(Event::Write {
        session,
        cell,
        value,
    })
}

fn open_of(_version: Version, _head: Level, words: &mut Parts) -> Result<Event, Misread>
    ensures { Reads (IsEventAfter _version _head Keyword.Open) result words.old }
{
    let session = session_of(words)?;
    Ok(Event::Open { session })
}

fn close_of(_version: Version, _head: Level, words: &mut Parts) -> Result<Event, Misread>
    ensures { Reads (IsEventAfter _version _head Keyword.Close) result words.old }
{
    let session = session_of(words)?;
    Ok(Event::Close { session })
}

fn commit_of(_version: Version, _head: Level, words: &mut Parts) -> Result<Event, Misread>
    ensures { Reads (IsEventAfter _version _head Keyword.Commit) result words.old }
{
    let session = session_of(words)?;
    Ok(Event::Commit { session })
}

fn rollback_of(_version: Version, _head: Level, words: &mut Parts) -> Result<Event, Misread>
    ensures { Reads (IsEventAfter _version _head Keyword.Rollback) result words.old }
{
    let session = session_of(words)?;
    Ok(Event::Rollback { session })
}
