// The messages of a client (PostgreSQL's protocol chapter, "Message Formats").
use crate::parts::{
    number, push_body, push_bytes, push_message, push_text, push_text_message, two_numbers,
};
use crate::unread::Unread;
use std::alloc::Global;

const STARTUP: u32 = 196_608;

const CANCEL: u32 = 80_877_102;

const SSL: u32 = 80_877_103;

const GSS: u32 = 80_877_104;

// The messages whose body is given as it is, with their type bytes.
const TYPES: &[(&str, u8)] = &[
    ("Bind", b'B'),
    ("Close", b'C'),
    ("CopyData", b'd'),
    ("CopyDone", b'c'),
    ("CopyFail", b'f'),
    ("Describe", b'D'),
    ("Execute", b'E'),
    ("Flush", b'H'),
    ("FunctionCall", b'F'),
    ("Parse", b'P'),
    ("Sync", b'S'),
    ("Terminate", b'X'),
];

fn type_byte(name: &str) -> Result<u8, Unread> {
    for (known, byte) in TYPES {
        if *known == name {
            return Ok(*byte);
        }
    }
    Err(Unread::Line)
}

// A message before the session: its code, and what stands after it.
fn push_opening(alloc: Global, out: &mut Vec<u8>, code: u32, rest: &[u8]) -> Result<(), Unread> {
    let mut body = Vec::from_slice(alloc, &code.to_be_bytes())?;
    body.extend_from_slice(rest)?;
    push_body(out, &body)
}

// Pairs such as `user=a`, which blanks part.
fn push_startup(alloc: Global, out: &mut Vec<u8>, pairs: &str) -> Result<(), Unread> {
    let mut body = Vec::new(alloc);
    for pair in pairs.split_whitespace() {
        let Some((name, value)) = pair.split_once('=') else {
            return Err(Unread::Line);
        };
        push_text(&mut body, name)?;
        push_text(&mut body, value)?;
    }
    body.push(0)?;
    push_opening(alloc, out, STARTUP, &body)
}

// How often a text stands in the query, and the text.
fn push_repeated(alloc: Global, out: &mut Vec<u8>, rest: &str) -> Result<(), Unread> {
    let Some((times, text)) = rest.split_once(' ') else {
        return Err(Unread::Line);
    };
    let mut body = Vec::new(alloc);
    for _ in 0..number(times)? {
        push_bytes(&mut body, text)?;
    }
    body.push(0)?;
    push_message(out, b'Q', &body)
}

fn push_typed(alloc: Global, out: &mut Vec<u8>, name: &str, rest: &str) -> Result<(), Unread> {
    let kind = type_byte(name)?;
    let mut body = Vec::new(alloc);
    push_bytes(&mut body, rest)?;
    push_message(out, kind, &body)
}

/// A message of the client: its name, a blank, and what it holds.
pub fn push_request(alloc: Global, out: &mut Vec<u8>, message: &str) -> Result<(), Unread> {
    let (name, rest) = message.split_once(' ').unwrap_or((message, ""));
    match name {
        "bytes" => push_bytes(out, rest),
        "StartupMessage" => push_startup(alloc, out, rest),
        "SSLRequest" => push_opening(alloc, out, SSL, &[]),
        "GSSENCRequest" => push_opening(alloc, out, GSS, &[]),
        "CancelRequest" => push_opening(alloc, out, CANCEL, &two_numbers(alloc, rest)?),
        "Query" => push_text_message(alloc, out, b'Q', rest),
        "RepeatedQuery" => push_repeated(alloc, out, rest),
        _ => push_typed(alloc, out, name, rest),
    }
}
