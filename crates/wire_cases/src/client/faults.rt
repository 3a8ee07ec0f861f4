// Each fault at the byte that shows it.
use crate::client::reading::{STARTUP, Seen, joined, see};
use crate::client::rows::right_at;
use cell_base::Memory;
use client_framing::FrameFault;
use held_values::without;
use std::alloc::Global;
use std::test::Fail;

// Streams with the fault that each shows at its last byte.
const OPENINGS: &[(&[u8], FrameFault)] = &[
    (b"\x00\x00\x00\x07", FrameFault::BadLength(7)),
    (b"\x00\x00\x27\x11", FrameFault::TooLong(10_001)),
    (b"\xff\xff\xff\xff", FrameFault::TooLong(4_294_967_295)),
    (b"Q\x00\x00\x00", FrameFault::TooLong(1_358_954_496)),
    (b"\x00\x00\x00\x08\x00\x03\x00\x00", FrameFault::BadStartup),
    (b"\x00\x00\x00\x0a\x00\x03\x00\x00", FrameFault::BadStartup),
    (b"\x00\x00\x00\x0b\x00\x03\x00\x00", FrameFault::BadStartup),
    // The end comes early.
    (
        b"\x00\x00\x00\x10\x00\x03\x00\x00\x00",
        FrameFault::BadStartup,
    ),
    // A name leaves no room for its value and the end.
    (
        b"\x00\x00\x00\x0c\x00\x03\x00\x00ab",
        FrameFault::BadStartup,
    ),
    // A value leaves no room for the end.
    (
        b"\x00\x00\x00\x0c\x00\x03\x00\x00a\x00b",
        FrameFault::BadStartup,
    ),
    // A name stands where the end has to.
    (
        b"\x00\x00\x00\x0d\x00\x03\x00\x00a\x00b\x00c",
        FrameFault::BadStartup,
    ),
    (b"\x00\x00\x00\x08\x04\xd2\x16\x2e", FrameFault::BadStartup),
    (b"\x00\x00\x00\x10\x04\xd2\x16\x2f", FrameFault::BadStartup),
    (b"\x00\x00\x00\x10\x04\xd2\x16\x30", FrameFault::BadStartup),
];

// What comes after the startup, with the fault that each shows at its last byte.
const MESSAGES: &[(&[u8], FrameFault)] = &[
    (b"A", FrameFault::UnknownType(65)),
    (b"q", FrameFault::UnknownType(113)),
    (b"\x00", FrameFault::UnknownType(0)),
    (b"\xff", FrameFault::UnknownType(255)),
    (b"Q\x00\x00\x00\x04", FrameFault::BadLength(4)),
    (b"P\x00\x00\x00\x03", FrameFault::BadLength(3)),
    (b"X\x00\x1e\x84\x80", FrameFault::BadLength(2_000_000)),
    (b"Q\x00\x10\x00\x01", FrameFault::TooLong(1_048_577)),
    (b"P\x00\x10\x00\x01", FrameFault::TooLong(1_048_577)),
    (b"F\x00\x10\x00\x01", FrameFault::TooLong(1_048_577)),
    (b"d\xff\xff\xff\xff", FrameFault::TooLong(4_294_967_295)),
    (b"Q\x00\x00\x00\x05a", FrameFault::NoTerminator),
    (b"Q\x00\x00\x00\x06ab", FrameFault::NoTerminator),
    (b"Q\x00\x00\x00\x07a\x00\x00", FrameFault::NoTerminator),
    (b"Q\x00\x00\x00\x07a\x00b", FrameFault::NoTerminator),
];

// Whether the last byte shows this fault after so many messages, and no byte before it, and further bytes change nothing.
fn is_shown(
    alloc: Global,
    stream: &[u8],
    before: usize,
    fault: FrameFault,
) -> Result<bool, Memory> {
    let Some((_, begun)) = stream.split_last() else {
        return Ok(false);
    };
    let early = see(alloc, 1, begun)?;
    let shown = see(alloc, 1, stream)?;
    let later = see_longer(alloc, stream)?;
    Ok(early.has(before, None) && shown.has(before, Some(fault)) && later.has(before, Some(fault)))
}

// What is seen where a startup comes after the stream.
fn see_longer(alloc: Global, stream: &[u8]) -> Result<Seen, Memory> {
    let longer = joined(alloc, &[stream, STARTUP])?;
    let seen = see(alloc, 7, &longer);
    without(longer, seen)
}

// The same after the startup of user `a`.
fn is_shown_after_startup(alloc: Global, bytes: &[u8], fault: FrameFault) -> Result<bool, Memory> {
    let stream = joined(alloc, &[STARTUP, bytes])?;
    let answer = is_shown(alloc, &stream, 1, fault);
    without(stream, answer)
}

fn openings_are_judged(alloc: Global) -> Result<(), Fail> {
    for (place, row) in OPENINGS.iter().enumerate() {
        let (stream, fault) = *row;
        right_at(place, is_shown(alloc, stream, 0, fault)?)?;
    }
    Ok(())
}

fn messages_are_judged(alloc: Global) -> Result<(), Fail> {
    for (place, row) in MESSAGES.iter().enumerate() {
        let (bytes, fault) = *row;
        right_at(place, is_shown_after_startup(alloc, bytes, fault)?)?;
    }
    Ok(())
}

#[test]
fn each_fault_is_told_at_its_first_byte(rt: HostRuntime) -> Result<(), Fail> {
    openings_are_judged(rt.alloc())?;
    messages_are_judged(rt.alloc())
}
