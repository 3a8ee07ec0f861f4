// Each length from 0 of each type of message, and of each code before the startup's end.
use crate::client::reading::{STARTUP, Seen, see_parts};
use crate::client::rows::right_at;
use cell_base::Memory;
use client_framing::FrameFault;
use std::alloc::Global;
use std::test::Fail;

// Whether nothing but this fault is read after so many messages, and so many bytes are left.
fn is_fault(seen: Seen, before: usize, fault: FrameFault, rest: usize) -> bool {
    seen.has(before, Some(fault)) && seen.rest == rest
}

// Whether no fault is read after so many messages, of which the last has this name, and so many bytes are left.
fn is_message(seen: Seen, number: usize, name: &[u8], rest: usize) -> bool {
    seen.has(number, None) && seen.name == name && seen.rest == rest
}

// A body of so many bytes less four.
fn body_of(len: u8) -> &'static [u8] {
    match len {
        5 => b"\x00",
        6 => b"c\x00",
        7 => b"bc\x00",
        8 => b"abc\x00",
        _ => b"",
    }
}

// Whether a message of this type byte and length is judged so after the startup: `l` for a bad length, `m` for a message
// of this name, which isn't one before its body is held.
fn type_is_judged(
    alloc: Global,
    kind: u8,
    name: &[u8],
    len: u8,
    wanted: u8,
) -> Result<bool, Memory> {
    let start = [kind, 0, 0, 0, len];
    let body = body_of(len);
    let head = see_parts(alloc, &[STARTUP, start.as_slice()])?;
    let whole = see_parts(alloc, &[STARTUP, start.as_slice(), body])?;
    if wanted == b'm' {
        let begun = body.is_empty() || is_message(head, 1, b"startup", 5);
        Ok(begun && is_message(whole, 2, name, 0))
    } else {
        let fault = FrameFault::BadLength(u32::from(len));
        Ok(is_fault(head, 1, fault, 5) && is_fault(whole, 1, fault, 5 + body.len()))
    }
}

// Whether lengths from 0 on are judged as in this row.
fn type_row_is_judged(alloc: Global, kind: u8, name: &[u8], row: &[u8]) -> Result<bool, Memory> {
    let mut len: u8 = 0;
    for wanted in row {
        if !type_is_judged(alloc, kind, name, len, *wanted)? {
            return Ok(false);
        }
        len = len.wrapping_add(1);
    }
    Ok(true)
}

// The type byte and the name of each message, and how its lengths are judged.
const TYPES: &[(u8, &[u8], &[u8])] = &[
    (b'Q', b"query", b"lllllmmmm"),
    (b'X', b"terminate", b"llllmllll"),
    (b'S', b"sync", b"llllmllll"),
    (b'H', b"flush", b"llllmllll"),
    (b'P', b"parse", b"llllmmmmm"),
    (b'B', b"bind", b"llllmmmmm"),
    (b'D', b"describe", b"llllmmmmm"),
    (b'E', b"execute", b"llllmmmmm"),
    (b'C', b"close", b"llllmmmmm"),
    (b'F', b"function", b"llllmmmmm"),
    (b'd', b"copy data", b"llllmmmmm"),
    (b'c', b"copy done", b"llllmmmmm"),
    (b'f', b"copy fail", b"llllmmmmm"),
];

fn types_are_judged(alloc: Global) -> Result<(), Fail> {
    for (place, row) in TYPES.iter().enumerate() {
        let (kind, name, lengths) = *row;
        right_at(place, type_row_is_judged(alloc, kind, name, lengths)?)?;
    }
    Ok(())
}

// Whether a length and this code are judged so before the startup: `l` for a bad length, `s` for a bad startup, `n` for
// nothing yet, `m` for a message of this name.
fn code_is_judged(
    alloc: Global,
    code: &[u8],
    name: &[u8],
    len: u8,
    wanted: u8,
) -> Result<bool, Memory> {
    let start = [0, 0, 0, len];
    let seen = see_parts(alloc, &[start.as_slice(), code])?;
    Ok(match wanted {
        b'l' => is_fault(seen, 0, FrameFault::BadLength(u32::from(len)), 8),
        b's' => is_fault(seen, 0, FrameFault::BadStartup, 8),
        b'm' => is_message(seen, 1, name, 0),
        _ => seen.has(0, None) && seen.rest == 8,
    })
}

fn code_row_is_judged(alloc: Global, code: &[u8], name: &[u8], row: &[u8]) -> Result<bool, Memory> {
    let mut len: u8 = 0;
    for wanted in row {
        if !code_is_judged(alloc, code, name, len, *wanted)? {
            return Ok(false);
        }
        len = len.wrapping_add(1);
    }
    Ok(true)
}

// Each code with the name of its message, and how lengths 0 to 17 are judged.
const CODES: &[(&[u8], &[u8], &[u8])] = &[
    (b"\x00\x03\x00\x00", b"startup", b"llllllllsnssnnnnnn"),
    (b"\x04\xd2\x16\x2e", b"cancel", b"llllllllssssssssns"),
    (b"\x04\xd2\x16\x2f", b"ssl", b"llllllllmsssssssss"),
    (b"\x04\xd2\x16\x30", b"gss", b"llllllllmsssssssss"),
    (b"\x00\x02\x00\x00", b"version", b"llllllllmnnnnnnnnn"),
    (b"\x04\xd2\x16\x31", b"version", b"llllllllmnnnnnnnnn"),
];

fn codes_are_judged(alloc: Global) -> Result<(), Fail> {
    for (place, row) in CODES.iter().enumerate() {
        let (code, name, lengths) = *row;
        right_at(place, code_row_is_judged(alloc, code, name, lengths)?)?;
    }
    Ok(())
}

#[test]
fn each_length_is_judged_for_each_type(rt: HostRuntime) -> Result<(), Fail> {
    types_are_judged(rt.alloc())?;
    codes_are_judged(rt.alloc())
}
