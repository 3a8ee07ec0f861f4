// Links, doors and networks in memory.
ghost use Rattle.std.specs.Prelude.{All, IfOk};
ghost use Rattle.doors.specs.Passage.{IsUnused};
ghost use Rattle.doors.specs.MemDoors.{mem_passage};

use crate::hosts::plan;
use cell_base::Memory;
use doors::{MemDoor, MemNetwork};
use link_traits::MemLink;
use session_text::{Unread, reply_bytes, request_bytes};
use std::alloc::Global;

/// What is told of the bytes that a client is sent.
#[derive(Clone, Copy)]
pub enum Replies {
    /// They are those of its text.
    AsWritten,
    /// Nothing, since they depend on which worker comes first.
    Untold,
}

/// A link that comes in by a door.
#[derive(Clone, Copy)]
pub struct Visit<'a> {
    /// The text of its session.
    pub session: &'a str,
    /// The numbers, from 1 on, of the writes to it that fail.
    pub failing: &'a [u64],
    pub replies: Replies,
}

/// What comes in by a door, one link after another.
#[derive(Clone, Copy)]
pub struct Entry<'a> {
    pub visits: &'a [Visit<'a>],
    /// The numbers, from 1 on, of the calls of `accept` that fail.
    pub failing: &'a [u64],
}

// A text's bytes. A line that can't be read fails its test as a lack of memory does.
fn encoded(bytes: Result<Vec<u8>, Unread>) -> Result<Vec<u8>, Memory> {
    match bytes {
        Ok(bytes) => Ok(bytes),
        Err(_) => Err(Memory),
    }
}

// The link, whose reads give 64 bytes at most, and whose writes take all.
fn link(alloc: Global, visit: &Visit<'_>) -> Result<MemLink, Memory> {
    MemLink::new(
        alloc,
        encoded(request_bytes(alloc, visit.session))?,
        plan(alloc, 64, &[])?,
        plan(alloc, 10_000, visit.failing)?,
    )
}

fn links(alloc: Global, visits: &[Visit<'_>]) -> Result<Vec<MemLink>, Memory> {
    let mut links = Vec::with_capacity(alloc, visits.len())?;
    for visit in visits {
        links.push(link(alloc, visit)?)?;
    }
    Ok(links)
}

fn door(alloc: Global, entry: &Entry<'_>) -> Result<MemDoor, Memory>
    ensures { IfOk result (λ door. IsUnused (mem_passage door)) }
{
    let links = links(alloc, entry.visits)?;
    MemDoor::new(alloc, links, Vec::from_slice(alloc, entry.failing)?)
}

fn doors(alloc: Global, entries: &[Entry<'_>]) -> Result<Vec<MemDoor>, Memory>
    ensures { IfOk result (λ doors. All (λ door. IsUnused (mem_passage door)) doors.items) }
{
    let mut doors = Vec::with_capacity(alloc, entries.len())?;
    for entry in entries {
        let one = door(alloc, entry)?;
        doors.push(one)?;
    }
    Ok(doors)
}

/// A network of these doors.
pub fn network(alloc: Global, entries: &[Entry<'_>]) -> Result<MemNetwork, Memory> {
    let doors = doors(alloc, entries)?;
    Ok(MemNetwork::new(alloc, doors, Vec::new(alloc)))
}

// Whether the link was sent what is told of it.
fn was_sent(alloc: Global, link: &MemLink, visit: &Visit<'_>) -> Result<bool, Memory> {
    match visit.replies {
        Replies::AsWritten => {
            let sent = encoded(reply_bytes(alloc, visit.session))?;
            Ok(link.written() == sent.as_slice())
        }
        Replies::Untold => Ok(true),
    }
}

// Whether each link of a door came back, and none where accepting failed, and each was sent what is told of it.
fn were_sent(alloc: Global, door: &MemDoor, entry: &Entry<'_>) -> Result<bool, Memory> {
    let came = if entry.failing.is_empty() {
        entry.visits.len()
    } else {
        0
    };
    let back = door.back();
    if back.len() != came {
        return Ok(false);
    }
    for (link, visit) in back.iter().zip(entry.visits) {
        if !was_sent(alloc, link, visit)? {
            return Ok(false);
        }
    }
    Ok(true)
}

/// Whether each door came back once, with its links, and each of these was sent what is told of it.
pub fn came_back(
    alloc: Global,
    network: &MemNetwork,
    entries: &[Entry<'_>],
) -> Result<bool, Memory> {
    let [doors] = network.back() else {
        return Ok(false);
    };
    let doors = doors.as_slice();
    if doors.len() != entries.len() {
        return Ok(false);
    }
    for (door, entry) in doors.iter().zip(entries) {
        if !were_sent(alloc, door, entry)? {
            return Ok(false);
        }
    }
    Ok(true)
}
