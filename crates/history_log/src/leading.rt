// Events of few digits, read with their line feed off the front of a text.
ghost use Rattle.std.specs.Prelude.{◌≡◌, ◌≢◌, ◌∷◌, ◌++◌, codes, decimal, IfSome};
ghost use Rattle.history_log.specs.Spelling.{cell_word, value_word, level_word};
ghost use Rattle.history_log.specs.Reading.{IsU32, FitsCell, FitsValue};
ghost use Rattle.history_log.specs.Leading.{IsLeading, IsLeadingIn};
ghost use Rattle.history_log.specs.Compact.{compact_cell, compact_value, compact_read, compact_write, compact_own};

use crate::cells::leading_cell;
use crate::compact::{CompactAccess, CompactCell, CompactRead, CompactValue};
use crate::digits::number_before;
use crate::version::Version;
use crate::words::{after_byte, after_word};
use cell_base::Level;
use history_core::Event;

/// The read, the write, the own read or the commit that the text begins with, with its line feed, and what stands after it.
/// `None` says nothing of the text.
pub fn leading_event(text: &[u8]) -> Option<(Event, &[u8])>
    ensures { IfSome result (λ x. IsLeading x.0 text.now x.1.now) }
{
    if let Some((read, rest)) = leading_read(text) {
        return Some((read.event(), rest));
    }
    if let Some((write, rest)) = leading_write(text) {
        return Some((write.as_write(), rest));
    }
    if let Some((own, rest)) = leading_own(text) {
        return Some((own.as_own(), rest));
    }
    let (session, rest) = leading_commit(text)?;
    Some((Event::Commit { session }, rest))
}

/// The external read, of few digits, that the text begins with, with its line feed, and what stands after it. `None` says
/// nothing of the text.
#[inline(always)]
pub fn leading_read(text: &[u8]) -> Option<(CompactRead, &[u8])>
    ensures { IfSome result (λ x. IsLeading (compact_read x.0) text.now x.1.now) }
{
    let rest = after_word(text, b"read ")?;
    read_after(rest)
}

/// The write, of few digits, that the text begins with, with its line feed, and what stands after it. `None` says nothing of
/// the text.
#[inline(always)]
pub fn leading_write(text: &[u8]) -> Option<(CompactAccess, &[u8])>
    ensures { IfSome result (λ x. IsLeading (compact_write x.0) text.now x.1.now) }
{
    let rest = after_word(text, b"write ")?;
    write_after(rest)
}

/// The own read, of few digits, that the text begins with, with its line feed, and what stands after it. `None` says nothing
/// of the text.
#[inline(always)]
pub fn leading_own(text: &[u8]) -> Option<(CompactAccess, &[u8])>
    ensures { IfSome result (λ x. IsLeading (compact_own x.0) text.now x.1.now) }
{
    let rest = after_word(text, b"own ")?;
    own_after(rest)
}

/// The session of the commit that the text begins with, with its line feed, and what stands after it. `None` says nothing of
/// the text.
#[inline(always)]
pub fn leading_commit(text: &[u8]) -> Option<(u32, &[u8])>
    ensures { IfSome result (λ x. IsLeading (Event.Commit x.0) text.now x.1.now) }
{
    let rest = after_word(text, b"commit ")?;
    commit_after(rest)
}

/// The session and the level of the begin that the text begins with, in a text of this version whose head has this level, with
/// its line feed, and what stands after it. `None` says nothing of the text.
pub fn leading_begin(version: Version, head: Level, text: &[u8]) -> Option<(u32, Level, &[u8])>
    ensures { IfSome result (λ x. IsLeadingIn version head (Event.Begin x.0 x.1) text.now x.2.now) }
{
    let rest = after_word(text, b"begin ")?;
    match version {
        Version::One => begin_of_head(head, rest),
        Version::Two => begin_of_level(version, head, rest),
        Version::Three => begin_of_level(version, head, rest),
    }
}

/// The read whose line begins before the text, with its keyword, and what stands after its line feed. `None` says nothing of
/// the text.
#[inline(never)]
fn read_after(text: &[u8]) -> Option<(CompactRead, &[u8])>
    ensures { IfSome result (λ x. IsLeading (compact_read x.0) (codes "read " ++ text.now) x.1.now) }
{
    let (session, cell, rest) = session_and_cell(text)?;
    let (source, count, word, rest) = three_numbers(rest)?;
    let (value, rest) = value_and_feed(rest)?;
    let read = CompactRead {
        session,
        cell,
        source,
        count,
        word,
        value,
    };
    Some((read, rest))
}

/// What the write says whose line begins before the text, with its keyword, and what stands after its line feed. `None` says
/// nothing of the text.
#[inline(never)]
fn write_after(text: &[u8]) -> Option<(CompactAccess, &[u8])>
    ensures { IfSome result (λ x. IsLeading (compact_write x.0) (codes "write " ++ text.now) x.1.now) }
{
    let (session, cell, rest) = session_and_cell(text)?;
    let (value, rest) = value_and_feed(rest)?;
    let write = CompactAccess {
        session,
        cell,
        value,
    };
    Some((write, rest))
}

/// The same of an own read.
#[inline(never)]
fn own_after(text: &[u8]) -> Option<(CompactAccess, &[u8])>
    ensures { IfSome result (λ x. IsLeading (compact_own x.0) (codes "own " ++ text.now) x.1.now) }
{
    let (session, cell, rest) = session_and_cell(text)?;
    let (value, rest) = value_and_feed(rest)?;
    let own = CompactAccess {
        session,
        cell,
        value,
    };
    Some((own, rest))
}

/// The session of the commit whose line begins before the text, with its keyword, and what stands after its line feed. `None`
/// says nothing of the text.
fn commit_after(text: &[u8]) -> Option<(u32, &[u8])>
    ensures { IfSome result (λ x. IsLeading (Event.Commit x.0) (codes "commit " ++ text.now) x.1.now) }
{
    let (session, rest) = number_before(text, b'\n')?;
    Some((session, rest))
}

/// The begin whose line begins before the text, with its keyword, in version 1, which leaves the level to the head, and what stands
/// after its line feed. `None` says nothing of the text.
fn begin_of_head(head: Level, text: &[u8]) -> Option<(u32, Level, &[u8])>
    ensures { IfSome result (λ x. IsLeadingIn Version.One head (Event.Begin x.0 x.1) (codes "begin " ++ text.now) x.2.now) }
{
    let (session, rest) = number_before(text, b'\n')?;
    Some((session, head, rest))
}

/// The begin whose line begins before the text, with its keyword, in a version that says its level, and what stands after its line
/// feed. `None` says nothing of the text.
fn begin_of_level(_version: Version, _head: Level, text: &[u8]) -> Option<(u32, Level, &[u8])>
    requires { _version ≢ Version.One }
    ensures { IfSome result (λ x. IsLeadingIn _version _head (Event.Begin x.0 x.1) (codes "begin " ++ text.now) x.2.now) }
{
    let (session, rest) = number_before(text, b' ')?;
    let (level, rest) = level_and_feed(rest)?;
    Some((session, level, rest))
}

/// The level and the line feed that the text begins with, and what stands after them. `None` says nothing of the text.
fn level_and_feed(text: &[u8]) -> Option<(Level, &[u8])>
    ensures { IfSome result (λ x. text.now ≡ level_word x.0 ++ 10 ∷ x.1.now) }
{
    if let Some(rest) = after_word(text, b"rc\n") {
        return Some((Level::Rc, rest));
    }
    if let Some(rest) = after_word(text, b"ra\n") {
        return Some((Level::Ra, rest));
    }
    let rest = after_word(text, b"cc\n")?;
    Some((Level::Cc, rest))
}

/// The session and the cell, each before a blank, that the text begins with, and what stands after them. `None` says nothing of
/// the text.
#[inline(always)]
fn session_and_cell(text: &[u8]) -> Option<(u32, CompactCell, &[u8])>
    ensures { IfSome result (λ x. IsU32 x.0 × FitsCell (compact_cell x.1)
        × (text.now ≡ decimal x.0 ++ 32 ∷ (cell_word (compact_cell x.1) ++ 32 ∷ x.2.now))) }
{
    let (session, rest) = number_before(text, b' ')?;
    let (cell, rest) = leading_cell(rest)?;
    let rest = after_byte(rest, b' ')?;
    Some((session, cell, rest))
}

/// The three numbers, each before a blank, that the text begins with, and what stands after them. `None` says nothing of the
/// text.
#[inline(always)]
fn three_numbers(text: &[u8]) -> Option<(u32, u32, u32, &[u8])>
    ensures { IfSome result (λ x. IsU32 x.0 × IsU32 x.1 × IsU32 x.2
        × (text.now ≡ decimal x.0 ++ 32 ∷ (decimal x.1 ++ 32 ∷ (decimal x.2 ++ 32 ∷ x.3.now)))) }
{
    let (first, rest) = number_before(text, b' ')?;
    let (second, rest) = number_before(rest, b' ')?;
    let (third, rest) = number_before(rest, b' ')?;
    Some((first, second, third, rest))
}

/// The value and the line feed that the text begins with, and what stands after them. `None` says nothing of the text.
#[inline(always)]
fn value_and_feed(text: &[u8]) -> Option<(CompactValue, &[u8])>
    ensures { IfSome result (λ x. FitsValue (compact_value x.0) × (text.now ≡ value_word (compact_value x.0) ++ 10 ∷ x.1.now)) }
{
    match number_before(text, b'\n') {
        Some((number, rest)) => Some((CompactValue::Int(number), rest)),
        None => name_and_feed(text),
    }
}

/// The value that has a name and the line feed that the text begins with, and what stands after them. `None` says nothing of the
/// text.
fn name_and_feed(text: &[u8]) -> Option<(CompactValue, &[u8])>
    ensures { IfSome result (λ x. FitsValue (compact_value x.0) × (text.now ≡ value_word (compact_value x.0) ++ 10 ∷ x.1.now)) }
{
    if let Some(rest) = after_word(text, b"unset\n") {
        return Some((CompactValue::Unset, rest));
    }
    if let Some(rest) = after_word(text, b"true\n") {
        return Some((CompactValue::Flag(true), rest));
    }
    if let Some(rest) = after_word(text, b"false\n") {
        return Some((CompactValue::Flag(false), rest));
    }
    let rest = after_word(text, b"null\n")?;
    Some((CompactValue::Null, rest))
}
