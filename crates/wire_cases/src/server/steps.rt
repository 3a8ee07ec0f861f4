// Calls on the sides of links, each with what it is to come to. No function has clauses, so that a test of many calls stays short to prove.
ghost use Rattle.std.specs.Prelude.{◌<◌, length};

use crate::server::compared::right;
use link_traits::{Failed, Link, Sink, Source, send_all};
use std::test::Fail;

/// A call on a link, and what it comes to.
#[derive(Clone, Copy)]
pub enum Step<'a> {
    /// A read into a room of four, and the bytes that it gives, or none where it fails.
    Read(Option<&'a [u8]>),
    /// A write of the bytes, and how many of them it takes, or none where it fails.
    Write(&'a [u8], Option<usize>),
    /// All the bytes are sent.
    Send(&'a [u8]),
}

/// Whether a read into a room of four gives these bytes.
fn gives<S: Source>(source: &mut S, bytes: &[u8]) -> bool {
    let mut room = [0; 4];
    match source.read(&mut room) {
        Ok(n) => &room[..n] == bytes,
        Err(_) => false,
    }
}

/// Whether a read fails.
fn reads_nothing<S: Source>(source: &mut S) -> bool {
    source.read(&mut [0; 4]) == Err(Failed)
}

/// Whether a read gives these bytes, or fails where there are none.
pub fn reads<S: Source>(source: &mut S, want: Option<&[u8]>) -> bool {
    match want {
        Some(bytes) => gives(source, bytes),
        None => reads_nothing(source),
    }
}

/// Whether a write takes so many of these bytes, or fails where there is no number.
pub fn writes<S: Sink>(sink: &mut S, bytes: &[u8], want: Option<usize>) -> bool {
    if bytes.is_empty() {
        return false;
    }
    sink.write(bytes) == want.ok_or(Failed)
}

/// Whether all bytes are sent.
pub fn sends<S: Sink>(sink: &mut S, bytes: &[u8]) -> bool {
    send_all(sink, bytes).is_ok()
}

fn holds<L: Link>(link: &mut L, step: Step<'_>) -> bool {
    match step {
        Step::Read(want) => reads(link, want),
        Step::Write(bytes, want) => writes(link, bytes, want),
        Step::Send(bytes) => sends(link, bytes),
    }
}

/// Ends the test at the first step that comes to something else.
pub fn take<L: Link>(link: &mut L, table: &str, steps: &[Step<'_>]) -> Result<(), Fail> {
    for (place, step) in steps.iter().enumerate() {
        right(table, place, holds(link, *step))?;
    }
    Ok(())
}
