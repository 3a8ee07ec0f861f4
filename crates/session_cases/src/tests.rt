// The sessions of `session_text`, over links in memory, in pieces of several lengths.
ghost use Rattle.std.specs.Prelude.{◌<◌};

use crate::compared::difference_over;
use crate::links::link;
use held_values::without;
use session_text::{
    Session, block_sessions, delete_sessions, duplicate_key_sessions, level_sessions,
    lone_sessions, message_sessions, query_sessions, read_sessions, refusal_sessions, row_sessions,
    statement_sessions,
};
use std::alloc::Global;
use std::test::Fail;

// What isn't as the session's text says, for an input in pieces of this length.
fn difference_in_pieces(alloc: Global, session: &Session, piece: u32) -> Result<String, Fail>
    requires { 0 < piece }
{
    difference_over(alloc, session, link(alloc, &session.input, piece))
}

// The first session that isn't as its text says, and what differs; or how many there are.
fn first_difference(alloc: Global, sessions: &[Session], piece: u32) -> Result<String, Fail>
    requires { 0 < piece }
{
    for session in sessions {
        let found = difference_in_pieces(alloc, session, piece)?;
        if !found.as_str().is_empty() {
            let (name, what) = (session.name.as_str(), found.as_str());
            return Ok(format!(in alloc; "{name}, in pieces of {piece}: {what}")?);
        }
    }
    Ok(String::new(alloc))
}

// The first of a text's sessions that isn't as the text says, and what differs, for inputs in pieces of several lengths; or how many
// sessions there are.
fn held(alloc: Global, text: &str) -> Result<String, Fail> {
    let sessions = read_sessions(alloc, text)?;
    let held = all_held(alloc, &sessions);
    without(sessions, held)
}

// The same of these sessions.
fn all_held(alloc: Global, sessions: &[Session]) -> Result<String, Fail> {
    for piece in [1, 2, 3, 7, 29, 64, 100] {
        let found = first_difference(alloc, sessions, piece)?;
        if !found.as_str().is_empty() {
            return Ok(found);
        }
    }
    let count = sessions.len();
    Ok(format!(in alloc; "{count} held")?)
}

#[test]
fn serves_sessions_of_one_row(rt: HostRuntime) -> Result<(), Fail> {
    let alloc = rt.alloc();
    assert_eq!(rt; held(alloc, row_sessions())?.as_str(), "8 held");
    Ok(())
}

#[test]
fn refuses_duplicate_keys(rt: HostRuntime) -> Result<(), Fail> {
    let alloc = rt.alloc();
    assert_eq!(rt; held(alloc, duplicate_key_sessions())?.as_str(), "3 held");
    Ok(())
}

#[test]
fn serves_messages(rt: HostRuntime) -> Result<(), Fail> {
    let alloc = rt.alloc();
    assert_eq!(rt; held(alloc, message_sessions())?.as_str(), "10 held");
    Ok(())
}

#[test]
fn serves_many_queries(rt: HostRuntime) -> Result<(), Fail> {
    let alloc = rt.alloc();
    assert_eq!(rt; held(alloc, query_sessions())?.as_str(), "1 held");
    Ok(())
}

#[test]
fn serves_blocks(rt: HostRuntime) -> Result<(), Fail> {
    let alloc = rt.alloc();
    assert_eq!(rt; held(alloc, block_sessions())?.as_str(), "6 held");
    Ok(())
}

#[test]
fn serves_statements(rt: HostRuntime) -> Result<(), Fail> {
    let alloc = rt.alloc();
    assert_eq!(rt; held(alloc, statement_sessions())?.as_str(), "6 held");
    Ok(())
}

#[test]
fn serves_deletes(rt: HostRuntime) -> Result<(), Fail> {
    let alloc = rt.alloc();
    assert_eq!(rt; held(alloc, delete_sessions())?.as_str(), "5 held");
    Ok(())
}

#[test]
fn refuses_what_is_not_supported(rt: HostRuntime) -> Result<(), Fail> {
    let alloc = rt.alloc();
    assert_eq!(rt; held(alloc, refusal_sessions())?.as_str(), "15 held");
    Ok(())
}

#[test]
fn chooses_levels(rt: HostRuntime) -> Result<(), Fail> {
    let alloc = rt.alloc();
    assert_eq!(rt; held(alloc, level_sessions())?.as_str(), "4 held");
    Ok(())
}

#[test]
fn serves_lone_sessions(rt: HostRuntime) -> Result<(), Fail> {
    let alloc = rt.alloc();
    assert_eq!(rt; held(alloc, lone_sessions())?.as_str(), "3 held");
    Ok(())
}

// The first difference of the first sessions of a text, so many of them, in pieces of each length below the bound.
fn difference_in_each(alloc: Global, text: &str, count: usize, bound: u32) -> Result<String, Fail> {
    let sessions = read_sessions(alloc, text)?;
    let first = sessions.get(..count).unwrap_or(&[]);
    let found = difference_below(alloc, first, bound);
    without(sessions, found)
}

// The same of these sessions.
fn difference_below(alloc: Global, sessions: &[Session], bound: u32) -> Result<String, Fail> {
    for piece in 1..bound {
        let found = first_difference(alloc, sessions, piece)?;
        if !found.as_str().is_empty() {
            return Ok(found);
        }
    }
    Ok(String::new(alloc))
}

// The refused encryption, of 29 bytes, in pieces of each length up to the whole input.
#[test]
fn serves_requests_in_pieces_of_each_length(rt: HostRuntime) -> Result<(), Fail> {
    let alloc = rt.alloc();
    assert_eq!(rt;
        difference_in_each(alloc, message_sessions(), 1, 30)?.as_str(),
        ""
    );
    Ok(())
}

// The two first sessions of a row, of 141 bytes.
#[test]
fn serves_rows_in_pieces_of_each_length(rt: HostRuntime) -> Result<(), Fail> {
    let alloc = rt.alloc();
    assert_eq!(rt;
        difference_in_each(alloc, row_sessions(), 2, 143)?.as_str(),
        ""
    );
    Ok(())
}
