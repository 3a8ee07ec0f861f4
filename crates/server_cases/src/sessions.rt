// The sessions of `session_text` over the whole program.
use crate::hosts::{answers, client_of};
use cell_base::Level;
use session_text::{
    Session, block_sessions, delete_sessions, duplicate_key_sessions, level_sessions,
    lone_sessions, message_sessions, query_sessions, read_sessions, refusal_sessions, row_sessions,
    statement_sessions,
};
use std::alloc::{AllocError, Global};
use std::sync::Wait;
use std::test::Fail;
use std::thread::Threads;

fn level_word(level: Level) -> &'static str {
    match level {
        Level::Rc => "rc",
        Level::Ra => "ra",
        Level::Cc => "cc",
    }
}

// The choice words with commas between them, and 0 where there are none.
fn list_of(alloc: Global, words: &[u32]) -> Result<String, AllocError> {
    let mut out = String::new(alloc);
    for word in words {
        if !out.as_str().is_empty() {
            out.push_str(",")?;
        }
        out.push_str(format!(in alloc; "{word}")?.as_str())?;
    }
    if words.is_empty() {
        out.push_str("0")?;
    }
    Ok(out)
}

// The status of a session's end: 1 where the input ended inside a message, had a fault, or was refused.
fn status_of(end: &str) -> u8 {
    if end.ends_with(": Terminated\n")
        || end.ends_with(": Closed\n")
        || end.ends_with(": Cancelled\n")
    {
        0
    } else {
        1
    }
}

// The command that serves the session, with a slash between each two words.
fn line_of(alloc: Global, session: &Session) -> Result<String, AllocError> {
    let list = list_of(alloc, &session.words)?;
    let (level, list) = (level_word(session.level), list.as_str());
    format!(in alloc; "pipe/{level}/{list}")
}

// Whether the program serves the session as its text says, for an input that comes in pieces of this length.
fn serves<R: Threads + Wait + Eprint + Sync>(
    rt: &R,
    alloc: Global,
    session: &Session,
    piece: u32,
) -> Result<bool, Fail> {
    let line = line_of(alloc, session)?;
    let client = client_of(&session.input, piece);
    let status = status_of(session.end.as_str());
    Ok(answers(rt, alloc, line.as_str(), client, status, &session.sent)?)
}

// The name of the first session that isn't served as its text says, or none.
fn first_unserved<R: Threads + Wait + Eprint + Sync>(
    rt: &R,
    alloc: Global,
    sessions: &[Session],
    piece: u32,
) -> Result<String, Fail> {
    for session in sessions {
        if !session.unread.as_str().is_empty() || !serves(rt, alloc, session, piece)? {
            return Ok(String::from_str(alloc, session.name.as_str())?);
        }
    }
    Ok(String::new(alloc))
}

// The name of the first of a text's sessions that isn't served as the text says, in pieces of several lengths; or how many there are.
fn outcome<R: Threads + Wait + Eprint + Sync>(
    rt: &R,
    alloc: Global,
    text: &str,
) -> Result<String, Fail> {
    let sessions = read_sessions(alloc, text)?;
    for piece in [1, 7, 64] {
        let name = first_unserved(rt, alloc, &sessions, piece)?;
        if !name.as_str().is_empty() {
            return Ok(name);
        }
    }
    let count = sessions.len();
    Ok(format!(in alloc; "{count} held")?)
}

// The texts by their places in `HELD`.
fn text_at(place: usize) -> &'static str {
    match place {
        0 => row_sessions(),
        1 => duplicate_key_sessions(),
        2 => delete_sessions(),
        3 => message_sessions(),
        4 => query_sessions(),
        5 => refusal_sessions(),
        6 => statement_sessions(),
        7 => block_sessions(),
        8 => level_sessions(),
        _ => lone_sessions(),
    }
}

// What is told of each text.
const HELD: [(usize, &str); 10] = [
    (0, "8 held"),
    (1, "3 held"),
    (2, "5 held"),
    (3, "10 held"),
    (4, "1 held"),
    (5, "15 held"),
    (6, "6 held"),
    (7, "6 held"),
    (8, "4 held"),
    (9, "3 held"),
];

#[test]
fn serves_sessions(rt: HostRuntime) -> Result<(), Fail> {
    let alloc = rt.alloc();
    for (place, wanted) in HELD {
        assert_eq!(rt; outcome(&rt, alloc, text_at(place))?.as_str(), wanted);
    }
    Ok(())
}

// How many piece lengths, from 1 on and below the bound, the session is served in, up to the first in which it isn't.
fn lengths_held<R: Threads + Wait + Eprint + Sync>(
    rt: &R,
    alloc: Global,
    session: &Session,
    bound: u32,
) -> Result<u32, Fail> {
    for piece in 1..bound {
        if !serves(rt, alloc, session, piece)? {
            return Ok(piece);
        }
    }
    Ok(bound)
}

// The same of the session at a place of a text.
fn lengths_held_at<R: Threads + Wait + Eprint + Sync>(
    rt: &R,
    alloc: Global,
    text: &str,
    place: usize,
    bound: u32,
) -> Result<u32, Fail> {
    let sessions = read_sessions(alloc, text)?;
    match sessions.get(place) {
        Some(session) => lengths_held(rt, alloc, session, bound),
        None => Ok(0),
    }
}

// The first two sessions of a row, and the one that reads a table that isn't there. Each has a test of its own, since one takes long.
#[test]
fn serves_a_read_that_misses_in_pieces_of_each_length(rt: HostRuntime) -> Result<(), Fail> {
    assert_eq!(rt;
        lengths_held_at(&rt, rt.alloc(), row_sessions(), 0, 200)?,
        200
    );
    Ok(())
}

#[test]
fn serves_a_read_that_finds_in_pieces_of_each_length(rt: HostRuntime) -> Result<(), Fail> {
    assert_eq!(rt;
        lengths_held_at(&rt, rt.alloc(), row_sessions(), 1, 200)?,
        200
    );
    Ok(())
}

#[test]
fn serves_a_read_of_no_table_in_pieces_of_each_length(rt: HostRuntime) -> Result<(), Fail> {
    assert_eq!(rt;
        lengths_held_at(&rt, rt.alloc(), row_sessions(), 7, 200)?,
        200
    );
    Ok(())
}
