// Halls, step by step, beside what the texts of their interleavings say.
ghost use Rattle.std.specs.Prelude.{◌≡◌, ◌<◌, ◌≤◌, All, IfOk, length};
ghost use Rattle.session_hall.specs.declared.client.Client.{Client as Known};
ghost use Rattle.session_hall.specs.Halls.{IsHall, clients_of};

use crate::reading::Interleaving;
use cell_base::Memory;
use event_text::{common_bytes, event_lines, other_event};
use held_values::without;
use session_hall::{Client, Hall};
use session_text::Session;
use std::alloc::{AllocError, Global};
use std::test::Fail;

fn client(alloc: Global, session: &Session, piece: u32) -> Result<Client, AllocError>
    ensures { IfOk result (λ client. client.piece ≡ piece) }
{
    Ok(Client {
        stream: Vec::from_slice(alloc, &session.input)?,
        piece,
        words: Vec::from_slice(alloc, &session.words)?,
    })
}

fn clients(alloc: Global, sessions: &[Session], piece: u32) -> Result<Vec<Client>, Fail>
    requires { 0 < piece }
    ensures { IfOk result (λ clients. All (λ (c : Known). 0 < c.piece) clients.items) }
{
    let mut out = Vec::new(alloc);
    for session in sessions {
        out.push(client(alloc, session, piece)?)?;
    }
    Ok(out)
}

// The client of the session that the event names, counted from 0.
fn client_of(event: &str) -> Option<u32> {
    let session = event.split(' ').nth(1)?;
    session.parse::<u32>().ok()?.checked_sub(1)
}

// The client whose event comes next makes a step. Nothing happens where there is no such client.
fn go(hall: &mut Hall, count: u32, event: &str) -> Result<(), Memory>
    requires hall { IsHall hall.old }
    requires count { count ≤ clients_of hall.old }
    ensures hall { IsHall hall.new }
    ensures range { clients_of hall.new ≡ clients_of hall.old }
{
    if let Some(client) = client_of(event) {
        if client < count {
            hall.step(client)?;
        }
    }
    Ok(())
}

// The clients go on in the order of these events.
fn take_turns(hall: &mut Hall, count: u32, events: &str) -> Result<(), Memory>
    requires hall { IsHall hall.old }
    requires count { count ≤ clients_of hall.old }
    ensures hall { IsHall hall.new }
    ensures range { clients_of hall.new ≡ clients_of hall.old }
{
    for event in events.lines() {
        go(hall, count, event)?;
    }
    Ok(())
}

// What isn't as these events say.
fn unlike(alloc: Global, found: &str, expected: &str) -> Result<String, AllocError> {
    if found == expected {
        return Ok(String::new(alloc));
    }
    other_event(alloc, found, expected)
}

// How a client ended, as a line.
fn ended(alloc: Global, hall: &Hall, client: u32) -> Result<String, AllocError>
    requires { client < clients_of hall.now }
{
    if hall.short(client) {
        return String::from_str(alloc, "out of memory\n");
    }
    match hall.end(client) {
        Some(end) => format!(in alloc; "{end:?}\n"),
        None => String::from_str(alloc, "none\n"),
    }
}

// What isn't as the client's session says, of the bytes that it was sent and its end.
fn other_reply(
    alloc: Global,
    hall: &Hall,
    client: u32,
    session: &Session,
) -> Result<String, AllocError>
    requires { client < clients_of hall.now }
{
    let (number, sent) = (client.saturating_add(1), hall.sent(client));
    if sent != session.sent.as_slice() {
        let common = common_bytes(sent, &session.sent);
        return format!(in alloc; "session {number}, after {common} bytes: another one is sent");
    }
    let end = ended(alloc, hall, client)?;
    if end.as_str() != session.end.as_str() {
        let end = end.as_str();
        return format!(in alloc; "session {number}, end: {end}");
    }
    Ok(String::new(alloc))
}

// What isn't as the sessions of the clients say.
fn other_replies(
    alloc: Global,
    hall: &Hall,
    count: u32,
    sessions: &[Session],
) -> Result<String, AllocError>
    requires { count ≤ clients_of hall.now }
{
    for client in 0..count {
        if let Some(session) = sessions.get(client as usize) {
            let found = other_reply(alloc, hall, client, session)?;
            if !found.as_str().is_empty() {
                return Ok(found);
            }
        }
    }
    Ok(String::new(alloc))
}

// What isn't as these events say, of those of the hall's history.
fn other_events(alloc: Global, hall: &Hall, expected: &str) -> Result<String, AllocError>
    requires { IsHall hall.now }
{
    let found = event_lines(alloc, hall.history().events())?;
    let other = unlike(alloc, found.as_str(), expected);
    without(found, other)
}

// What isn't as the text says, once the clients have gone on in the order of its events: nothing, where all of it is.
fn played(alloc: Global, hall: &mut Hall, count: u32, row: &Interleaving) -> Result<String, Fail>
    requires hall { IsHall hall.old }
    requires count { count ≤ clients_of hall.old }
{
    take_turns(hall, count, row.head.events.as_str())?;
    let found = other_events(alloc, hall, row.head.events.as_str())?;
    if !found.as_str().is_empty() {
        return Ok(found);
    }
    Ok(other_replies(alloc, hall, count, &row.clients)?)
}

// How many clients there are, as far as that can be told.
fn count_of(clients: &[Client]) -> u32
    ensures { result ≤ length clients.now }
{
    u32::try_from(clients.len()).unwrap_or(u32::MAX)
}

// What isn't as the text says, in a hall of its clients.
fn found_in(alloc: Global, row: &Interleaving, piece: u32) -> Result<String, Fail>
    requires { 0 < piece }
{
    let clients = clients(alloc, &row.clients, piece)?;
    let count = count_of(clients.as_slice());
    let mut hall = Hall::new(alloc, row.head.level, clients)?;
    let found = played(alloc, &mut hall, count, row);
    without(hall, found)
}

/// What isn't as the interleaving's text says, where the streams of its clients come in pieces of this length: nothing, where all of it is.
pub fn difference(alloc: Global, row: &Interleaving, piece: u32) -> Result<String, Fail>
    requires { 0 < piece }
{
    let unread = row.unread.as_str();
    if !unread.is_empty() {
        return Ok(format!(in alloc; "unread: {unread}")?);
    }
    if u32::try_from(row.clients.len()).is_err() {
        return Ok(String::from_str(alloc, "too many clients")?);
    }
    found_in(alloc, row, piece)
}
