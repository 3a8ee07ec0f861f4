// What came of a session beside what its text says.
use crate::serving::{Outcome, served_new};
use cell_base::Memory;
use event_text::{common_bytes, other_event};
use held_values::without;
use link_traits::MemLink;
use session_core::Served;
use session_text::Session;
use std::alloc::{AllocError, Global};
use std::test::Fail;

// The number of the session, and its end.
fn ended(alloc: Global, served: &Served) -> Result<String, AllocError> {
    let (end, short) = (served.end, served.short);
    if short {
        return String::from_str(alloc, "out of memory\n");
    }
    match served.session {
        Some(number) => format!(in alloc; "session {number}: {end:?}\n"),
        None => format!(in alloc; "no session: {end:?}\n"),
    }
}

// The first byte that isn't as the text says.
fn other_byte(alloc: Global, found: &[u8], expected: &[u8]) -> Result<String, AllocError> {
    let common = common_bytes(found, expected);
    format!(in alloc; "after {common} bytes another one is sent")
}

// The end, where it isn't as the text says.
fn other_end(alloc: Global, served: &Served, expected: &str) -> Result<String, AllocError> {
    let mut end = ended(alloc, served)?;
    if end.as_str() == expected {
        end.clear();
    }
    Ok(end)
}

// What isn't as the text says, of what came and the bytes that were sent.
fn compared(
    alloc: Global,
    session: &Session,
    came: &Outcome,
    sent: &[u8],
) -> Result<String, AllocError> {
    let unread = session.unread.as_str();
    if !unread.is_empty() {
        return format!(in alloc; "unread: {unread}");
    }
    if came.events.as_str() != session.events.as_str() {
        return other_event(alloc, came.events.as_str(), session.events.as_str());
    }
    if sent != session.sent.as_slice() {
        return other_byte(alloc, sent, &session.sent);
    }
    other_end(alloc, &came.served, session.end.as_str())
}

/// What isn't as the session's text says, where its client is served over this link: nothing, where all of it is.
pub fn difference(alloc: Global, session: &Session, link: &mut MemLink) -> Result<String, Fail> {
    let came = served_new(alloc, session, link)?;
    let found = compared(alloc, session, &came, link.written());
    Ok(without(came, found)?)
}

/// The same over a link that is let go then.
pub fn difference_over(
    alloc: Global,
    session: &Session,
    link: Result<MemLink, Memory>,
) -> Result<String, Fail> {
    let mut link = link?;
    let found = difference(alloc, session, &mut link);
    without(link, found)
}
