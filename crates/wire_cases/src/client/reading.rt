// A stream in pieces, and what is read from it in words.
use cell_base::{Items, Memory};
use client_framing::{CopyMessage, Extended, FrameFault, FrontendMessage, Split, split_stream};
use held_values::{kept, without};
use std::alloc::Global;

/// The startup of user `a`, 16 bytes.
pub const STARTUP: &[u8] = b"\x00\x00\x00\x10\x00\x03\x00\x00user\x00a\x00\x00";

fn push_pieces(
    pieces: &mut Items<Items<u8>>,
    alloc: Global,
    stream: &[u8],
    size: usize,
) -> Result<(), Memory> {
    for piece in stream.chunks(size.max(1)) {
        pieces.push(Items::from_slice(alloc, piece)?)?;
    }
    Ok(())
}

// A stream in pieces of this size.
fn pieces_of(alloc: Global, stream: &[u8], size: usize) -> Result<Items<Items<u8>>, Memory> {
    let mut pieces = Items::new(alloc);
    let pushed = push_pieces(&mut pieces, alloc, stream, size);
    kept(pieces, pushed)
}

/// What is read from a stream that comes in pieces of this size.
pub fn read(alloc: Global, size: usize, stream: &[u8]) -> Result<Split, Memory> {
    let pieces = pieces_of(alloc, stream, size)?;
    let split = split_stream(alloc, pieces.as_slice());
    without(pieces, split)
}

fn push_parts(stream: &mut Vec<u8>, parts: &[&[u8]]) -> Result<(), Memory> {
    for part in parts {
        stream.extend_from_slice(part)?;
    }
    Ok(())
}

/// The stream of these parts.
pub fn joined(alloc: Global, parts: &[&[u8]]) -> Result<Vec<u8>, Memory> {
    let mut stream = Vec::new(alloc);
    let pushed = push_parts(&mut stream, parts);
    kept(stream, pushed)
}

/// What a test looks at of what is read.
#[derive(Clone, Copy)]
pub struct Seen {
    /// How many messages there are.
    pub messages: usize,
    /// The name of the last one; empty where there is none.
    pub name: &'static [u8],
    /// How many bytes the last one's text has: a query's, or that of a startup's last value.
    pub text: usize,
    /// How many bytes are left.
    pub rest: usize,
    pub fault: Option<FrameFault>,
}

impl Seen {
    /// Whether there are so many messages, and this fault or none.
    pub fn has(self, messages: usize, fault: Option<FrameFault>) -> bool {
        self.messages == messages && self.fault == fault
    }
}

fn text_size(message: &FrontendMessage) -> usize {
    match message {
        FrontendMessage::Startup(pairs) => match pairs.as_slice().last() {
            Some((_, value)) => value.len(),
            None => 0,
        },
        FrontendMessage::Query(text) => text.len(),
        _ => 0,
    }
}

fn seen_of(split: &Split) -> Seen {
    let (name, text) = match split.messages.as_slice().last() {
        Some(message) => (name_of(message), text_size(message)),
        None => (b"".as_slice(), 0),
    };
    Seen {
        messages: split.messages.len(),
        name,
        text,
        rest: split.rest,
        fault: split.fault,
    }
}

/// What is seen of a stream that comes in pieces of this size.
pub fn see(alloc: Global, size: usize, stream: &[u8]) -> Result<Seen, Memory> {
    let split = read(alloc, size, stream)?;
    let seen = seen_of(&split);
    Ok(without(split, seen))
}

/// What is seen of the stream of these parts, byte by byte.
pub fn see_parts(alloc: Global, parts: &[&[u8]]) -> Result<Seen, Memory> {
    let stream = joined(alloc, parts)?;
    let seen = see(alloc, 1, &stream);
    without(stream, seen)
}

/// A message's name.
pub fn name_of(message: &FrontendMessage) -> &'static [u8] {
    match message {
        FrontendMessage::Ssl => b"ssl",
        FrontendMessage::Gss => b"gss",
        FrontendMessage::Cancel(_, _) => b"cancel",
        FrontendMessage::Startup(_) => b"startup",
        FrontendMessage::Version(_) => b"version",
        FrontendMessage::Query(_) => b"query",
        FrontendMessage::Terminate => b"terminate",
        FrontendMessage::Sync => b"sync",
        FrontendMessage::Flush => b"flush",
        FrontendMessage::Extended(kind) => extended_name(*kind),
        FrontendMessage::FunctionCall => b"function",
        FrontendMessage::Copy(kind) => copy_name(*kind),
    }
}

fn extended_name(kind: Extended) -> &'static [u8] {
    match kind {
        Extended::Parse => b"parse",
        Extended::Bind => b"bind",
        Extended::Describe => b"describe",
        Extended::Execute => b"execute",
        Extended::Close => b"close",
    }
}

fn copy_name(kind: CopyMessage) -> &'static [u8] {
    match kind {
        CopyMessage::Data => b"copy data",
        CopyMessage::Done => b"copy done",
        CopyMessage::Fail => b"copy fail",
    }
}

// What a message holds, after its name.
fn append_parts(out: &mut Vec<u8>, message: &FrontendMessage) -> Result<(), Memory> {
    match message {
        FrontendMessage::Cancel(pid, secret) => {
            out.extend_from_slice(&pid.to_be_bytes())?;
            out.extend_from_slice(&secret.to_be_bytes())?;
        }
        FrontendMessage::Version(code) => out.extend_from_slice(&code.to_be_bytes())?,
        FrontendMessage::Query(text) => out.extend_from_slice(text.as_slice())?,
        FrontendMessage::Startup(pairs) => append_pairs(out, pairs.as_slice())?,
        _ => (),
    }
    Ok(())
}

fn append_pairs(out: &mut Vec<u8>, pairs: &[(Items<u8>, Items<u8>)]) -> Result<(), Memory> {
    for (name, value) in pairs {
        out.push(b'<')?;
        out.extend_from_slice(name.as_slice())?;
        out.push(b'=')?;
        out.extend_from_slice(value.as_slice())?;
        out.push(b'>')?;
    }
    Ok(())
}

fn push_told(out: &mut Vec<u8>, message: &FrontendMessage) -> Result<(), Memory> {
    out.extend_from_slice(name_of(message))?;
    out.push(b' ')?;
    append_parts(out, message)?;
    out.push(b';')?;
    Ok(())
}

fn push_all_told(out: &mut Vec<u8>, messages: &[FrontendMessage]) -> Result<(), Memory> {
    for message in messages {
        push_told(out, message)?;
    }
    Ok(())
}

/// The messages in words: of each its name, what it holds, and a semicolon.
pub fn told(alloc: Global, messages: &[FrontendMessage]) -> Result<Vec<u8>, Memory> {
    let mut out = Vec::new(alloc);
    let pushed = push_all_told(&mut out, messages);
    kept(out, pushed)
}
