// An interleaving's text, line by line.
use crate::setups::setup;
use held_values::{beside, kept, without};
use session_text::{Session, Unread, read_sessions};
use std::alloc::Global;

/// Sessions that go on by turns, over one history.
#[derive(Drop)]
pub struct Interleaving {
    /// What is said of all of them: the name, the level of the server, and the events of the history.
    pub head: Session,
    /// What each client says and is sent, that of session 1 first.
    pub clients: Vec<Session>,
    /// The lines that couldn't be read, a line each.
    pub unread: String,
}

// A text, as far as it was read.
#[derive(Drop)]
struct Parts {
    // What is said of all sessions, as the text of one.
    head: String,
    // The text of each client's session.
    clients: Vec<String>,
    unread: String,
}

fn no_parts(alloc: Global) -> Parts {
    Parts {
        head: String::new(alloc),
        clients: Vec::new(alloc),
        unread: String::new(alloc),
    }
}

fn push_line_of(out: &mut String, line: &str) -> Result<(), Unread> {
    out.push_str(line)?;
    out.push_str("\n")?;
    Ok(())
}

// The name of the level of the server, as far as the text was read.
fn level_name(head: &str) -> &str {
    for line in head.lines() {
        if let Some(name) = line.strip_prefix("level ") {
            return name;
        }
    }
    "rc"
}

// The place of a session's number, which is from 1 on. The first that isn't there yet may come.
fn place_of(session: &str, count: usize) -> Result<usize, Unread> {
    let Ok(number) = session.parse::<u32>() else {
        return Err(Unread::Line);
    };
    let place = number as usize;
    if place == 0 || place > count.saturating_add(1) {
        return Err(Unread::Line);
    }
    Ok(place - 1)
}

fn push_client_line(
    alloc: Global,
    clients: &mut Vec<String>,
    session: &str,
    line: &str,
) -> Result<(), Unread> {
    let place = place_of(session, clients.len())?;
    if place >= clients.len() {
        clients.push(String::new(alloc))?;
    }
    if place >= clients.len() {
        return Err(Unread::Line);
    }
    push_line_of(&mut clients[place], line)
}

// A line that names no set-up of an interleaving.
fn push_plain_line(alloc: Global, parts: &mut Parts, line: &str) -> Result<(), Unread> {
    let (kind, rest) = line.split_once(' ').unwrap_or((line, ""));
    match kind {
        "" => Ok(()),
        "#" => push_line_of(&mut parts.head, line),
        "*" => push_line_of(&mut parts.head, line),
        "level" => push_line_of(&mut parts.head, line),
        _ => push_client_line(alloc, &mut parts.clients, kind, rest),
    }
}

// The lines of a set-up for the session.
fn filled(alloc: Global, head: &str, session: &str, lines: &str) -> Result<String, Unread> {
    let lines = lines.replace(alloc, "{session}", session)?;
    let filled: Result<String, _> = lines.as_str().replace(alloc, "{level}", level_name(head));
    Ok(without(lines, filled)?)
}

// The session that has a set-up, and the name of that.
fn named_setup(line: &str) -> Option<(&str, &str)> {
    let (session, rest) = line.split_once(' ')?;
    let name = rest.strip_prefix("+ ")?;
    Some((session, name))
}

fn push_plain_lines(alloc: Global, parts: &mut Parts, lines: &str) -> Result<(), Unread> {
    for line in lines.lines() {
        push_plain_line(alloc, parts, line)?;
    }
    Ok(())
}

// A set-up whose lines name no other one.
fn push_plain_setup(
    alloc: Global,
    parts: &mut Parts,
    session: &str,
    lines: &str,
) -> Result<(), Unread> {
    let lines = filled(alloc, parts.head.as_str(), session, lines)?;
    let pushed = push_plain_lines(alloc, parts, lines.as_str());
    without(lines, pushed)
}

fn push_setup_line(alloc: Global, parts: &mut Parts, line: &str) -> Result<(), Unread> {
    if let Some((session, name)) = named_setup(line) {
        if let Some(lines) = setup(name) {
            return push_plain_setup(alloc, parts, session, lines);
        }
    }
    push_plain_line(alloc, parts, line)
}

fn push_setup_lines(alloc: Global, parts: &mut Parts, lines: &str) -> Result<(), Unread> {
    for line in lines.lines() {
        push_setup_line(alloc, parts, line)?;
    }
    Ok(())
}

fn push_setup(alloc: Global, parts: &mut Parts, session: &str, lines: &str) -> Result<(), Unread> {
    let lines = filled(alloc, parts.head.as_str(), session, lines)?;
    let pushed = push_setup_lines(alloc, parts, lines.as_str());
    without(lines, pushed)
}

fn push_line(alloc: Global, parts: &mut Parts, line: &str) -> Result<(), Unread> {
    if let Some((session, name)) = named_setup(line) {
        if let Some(lines) = setup(name) {
            return push_setup(alloc, parts, session, lines);
        }
    }
    push_plain_line(alloc, parts, line)
}

// A line that can't be read is kept as such.
fn push_any_line(alloc: Global, parts: &mut Parts, line: &str) -> Result<(), Unread> {
    match push_line(alloc, parts, line) {
        Ok(()) => Ok(()),
        Err(Unread::Line) => push_line_of(&mut parts.unread, line),
        Err(Unread::Memory) => Err(Unread::Memory),
    }
}

fn push_lines(alloc: Global, parts: &mut Parts, text: &str) -> Result<(), Unread> {
    for line in text.lines() {
        push_any_line(alloc, parts, line)?;
    }
    Ok(())
}

// The parts of a text.
fn read_parts(alloc: Global, text: &str) -> Result<Parts, Unread> {
    let mut parts = no_parts(alloc);
    let read = push_lines(alloc, &mut parts, text);
    kept(parts, read)
}

// The last one that was made.
fn last<T: Drop>(made: Result<Vec<T>, Unread>) -> Result<T, Unread> {
    let mut made = made?;
    match made.pop() {
        Some(one) => Ok(without(made, one)),
        None => without(made, Err(Unread::Line)),
    }
}

// Adds what was made, if it was.
fn push_made<T: Drop>(out: &mut Vec<T>, made: Result<T, Unread>) -> Result<(), Unread> {
    out.push(made?)?;
    Ok(())
}

// Adds the session of each text.
fn push_clients(alloc: Global, texts: &[String], clients: &mut Vec<Session>) -> Result<(), Unread> {
    for text in texts {
        push_made(clients, last(read_sessions(alloc, text.as_str())))?;
    }
    Ok(())
}

// The session of each of these texts.
fn read_clients(alloc: Global, texts: &[String]) -> Result<Vec<Session>, Unread> {
    let mut clients = Vec::new(alloc);
    let read = push_clients(alloc, texts, &mut clients);
    kept(clients, read)
}

// What is said of all sessions, and each of them.
fn read_all(alloc: Global, parts: &Parts) -> Result<(Session, Vec<Session>), Unread> {
    let head = last(read_sessions(alloc, parts.head.as_str()))?;
    beside(head, read_clients(alloc, &parts.clients))
}

// The parts with these sessions.
fn with_sessions(parts: Parts, head: Session, clients: Vec<Session>) -> Interleaving {
    let Parts {
        head: text,
        clients: texts,
        unread,
    } = parts;
    without(
        (text, texts),
        Interleaving {
            head,
            clients,
            unread,
        },
    )
}

// Adds the lines of sessions that couldn't be read.
fn push_unread(unread: &mut String, head: &Session, clients: &[Session]) -> Result<(), Unread> {
    unread.push_str(head.unread.as_str())?;
    for client in clients {
        unread.push_str(client.unread.as_str())?;
    }
    Ok(())
}

// The interleaving of a text.
fn read_interleaving(alloc: Global, text: &str) -> Result<Interleaving, Unread> {
    let parts = read_parts(alloc, text)?;
    let sessions = read_all(alloc, &parts);
    let (parts, (head, clients)) = beside(parts, sessions)?;
    let mut row = with_sessions(parts, head, clients);
    let told = push_unread(&mut row.unread, &row.head, &row.clients);
    kept(row, told)
}

fn push_interleavings(
    alloc: Global,
    text: &str,
    rows: &mut Vec<Interleaving>,
) -> Result<(), Unread> {
    for paragraph in text.split("\n\n") {
        push_made(rows, read_interleaving(alloc, paragraph))?;
    }
    Ok(())
}

/// The interleavings of a text, which are parted by an empty line each. Fails where memory runs out.
pub fn read_interleavings(alloc: Global, text: &str) -> Result<Vec<Interleaving>, Unread> {
    let mut rows = Vec::new(alloc);
    let read = push_interleavings(alloc, text, &mut rows);
    kept(rows, read)
}
