// A session's text, line by line.
use crate::parts::number;
use crate::replies::push_reply;
use crate::requests::push_request;
use crate::setups::setup;
use crate::unread::Unread;
use cell_base::Level;
use std::alloc::Global;

/// One session over a new history.
#[derive(Debug, Drop)]
pub struct Session {
    /// The first line of its text.
    pub name: String,
    /// The level of the server.
    pub level: Level,
    /// The choice words.
    pub words: Vec<u32>,
    /// The bytes that the client sends.
    pub input: Vec<u8>,
    /// The bytes that the client is sent.
    pub sent: Vec<u8>,
    /// The events of the history, a line each.
    pub events: String,
    /// The number of the session that was opened, and its end.
    pub end: String,
    /// The lines that couldn't be read, a line each.
    pub unread: String,
}

fn new_session(alloc: Global) -> Session {
    Session {
        name: String::new(alloc),
        level: Level::Rc,
        words: Vec::new(alloc),
        input: Vec::new(alloc),
        sent: Vec::new(alloc),
        events: String::new(alloc),
        end: String::new(alloc),
        unread: String::new(alloc),
    }
}

fn push_line_of(out: &mut String, line: &str) -> Result<(), Unread> {
    out.push_str(line)?;
    out.push_str("\n")?;
    Ok(())
}

// The first one is the name of the session.
fn push_comment(name: &mut String, comment: &str) -> Result<(), Unread> {
    if name.as_str().is_empty() {
        name.push_str(comment)?;
    }
    Ok(())
}

fn push_words(words: &mut Vec<u32>, text: &str) -> Result<(), Unread> {
    for word in text.split_whitespace() {
        words.push(number(word)?)?;
    }
    Ok(())
}

fn level_of(name: &str) -> Result<Level, Unread> {
    match name {
        "rc" => Ok(Level::Rc),
        "ra" => Ok(Level::Ra),
        "cc" => Ok(Level::Cc),
        _ => Err(Unread::Line),
    }
}

// A line that names no set-up.
fn push_plain_line(alloc: Global, session: &mut Session, line: &str) -> Result<(), Unread> {
    let (kind, rest) = line.split_once(' ').unwrap_or((line, ""));
    match kind {
        "" => Ok(()),
        "#" => push_comment(&mut session.name, rest),
        ">" => push_request(alloc, &mut session.input, rest),
        "<" => push_reply(alloc, &mut session.sent, rest),
        "*" => push_line_of(&mut session.events, rest),
        "=" => push_line_of(&mut session.end, rest),
        "words" => push_words(&mut session.words, rest),
        "level" => {
            session.level = level_of(rest)?;
            Ok(())
        }
        _ => Err(Unread::Line),
    }
}

// A set-up whose lines name no other one.
fn push_plain_setup(alloc: Global, session: &mut Session, name: &str) -> Result<(), Unread> {
    for line in setup(name)?.lines() {
        push_plain_line(alloc, session, line)?;
    }
    Ok(())
}

fn push_setup_line(alloc: Global, session: &mut Session, line: &str) -> Result<(), Unread> {
    match line.strip_prefix("+ ") {
        Some(name) => push_plain_setup(alloc, session, name),
        None => push_plain_line(alloc, session, line),
    }
}

fn push_setup(alloc: Global, session: &mut Session, name: &str) -> Result<(), Unread> {
    for line in setup(name)?.lines() {
        push_setup_line(alloc, session, line)?;
    }
    Ok(())
}

fn push_line(alloc: Global, session: &mut Session, line: &str) -> Result<(), Unread> {
    match line.strip_prefix("+ ") {
        Some(name) => push_setup(alloc, session, name),
        None => push_plain_line(alloc, session, line),
    }
}

// The session of a text. A line that can't be read is kept as such.
fn read_session(alloc: Global, text: &str) -> Result<Session, Unread> {
    let mut session = new_session(alloc);
    for line in text.lines() {
        match push_line(alloc, &mut session, line) {
            Ok(()) => {}
            Err(Unread::Line) => push_line_of(&mut session.unread, line)?,
            Err(Unread::Memory) => return Err(Unread::Memory),
        }
    }
    Ok(session)
}

/// The sessions of a text, which are parted by an empty line each. Fails where memory runs out.
pub fn read_sessions(alloc: Global, text: &str) -> Result<Vec<Session>, Unread> {
    let mut sessions = Vec::new(alloc);
    for paragraph in text.split("\n\n") {
        sessions.push(read_session(alloc, paragraph)?)?;
    }
    Ok(sessions)
}

// The session of a text each line of which can be read.
fn read_whole_session(alloc: Global, text: &str) -> Result<Session, Unread> {
    let mut session = new_session(alloc);
    for line in text.lines() {
        push_line(alloc, &mut session, line)?;
    }
    Ok(session)
}

/// The bytes that the client of one session's text sends. Fails at a line that can't be read, and where memory runs out.
pub fn request_bytes(alloc: Global, text: &str) -> Result<Vec<u8>, Unread> {
    let session = read_whole_session(alloc, text)?;
    Ok(session.input)
}

/// The bytes that the client of one session's text is sent. Fails as `request_bytes` does.
pub fn reply_bytes(alloc: Global, text: &str) -> Result<Vec<u8>, Unread> {
    let session = read_whole_session(alloc, text)?;
    Ok(session.sent)
}
