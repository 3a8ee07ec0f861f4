// Streams of many messages in any pieces, and messages at the limits.
use crate::client::reading::{STARTUP, name_of, read, see, told};
use crate::client::rows::right_at;
use cell_base::Memory;
use client_framing::{FrameFault, Frames, Split};
use held_values::{kept, without};
use std::alloc::Global;
use std::test::Fail;

// Every message, and three bytes of one more.
const ALL: &[u8] =
    b"\x00\x00\x00\x08\x04\xd2\x16\x2f\x00\x00\x00\x08\x04\xd2\x16\x30\x00\x00\x00\x10\x04\xd2\x16\x2e\x00\x00\x00\x07\x00\x00\x01\x09\x00\x00\x00\x0a\x00\x02\x00\x00uv\x00\x00\x00\x13\x00\x03\x00\x00user\x00a\x00x\x00\x00\x00Q\x00\x00\x00\x0dSELECT 1\x00Q\x00\x00\x00\x05\x00P\x00\x00\x00\x08\x00a\x00\x00B\x00\x00\x00\x05QD\x00\x00\x00\x06S\x00E\x00\x00\x00\x04C\x00\x00\x00\x04S\x00\x00\x00\x04H\x00\x00\x00\x04F\x00\x00\x00\x07XXXd\x00\x00\x00\x06\xff\xfec\x00\x00\x00\x04f\x00\x00\x00\x05\x00X\x00\x00\x00\x04Q\x00\x00";

// What it holds, in words.
const ALL_TOLD: &[u8] =
    b"ssl ;gss ;cancel \x00\x00\x00\x07\x00\x00\x01\x09;version \x00\x02\x00\x00;startup <user=a><x=>;query SELECT 1;query ;parse ;bind ;describe ;execute ;close ;sync ;flush ;function ;copy data ;copy done ;copy fail ;terminate ;";

// Whether what is read is this.
fn is_all(alloc: Global, split: &Split) -> Result<bool, Memory> {
    let words = told(alloc, split.messages.as_slice())?;
    let same = words.as_slice() == ALL_TOLD;
    Ok(without(words, same) && split.rest == 3 && split.fault == None)
}

// Whether all messages are read in pieces of this size.
fn all_are_read(alloc: Global, size: usize) -> Result<bool, Memory> {
    let split = read(alloc, size, ALL)?;
    let is_all = is_all(alloc, &split);
    without(split, is_all)
}

// A long stream: what stands before its last message, how that begins, how many times `a` comes then, and how it ends; how many messages the
// stream has, and how many bytes the text of the last.
type Long = (
    &'static [u8],
    &'static [u8],
    usize,
    &'static [u8],
    usize,
    usize,
);

// Messages of 10,000 bytes before the startup's end, and of 1,048,577 bytes with their type byte after it.
const LONGEST: &[Long] = &[
    (
        b"",
        b"\x00\x00\x27\x10\x00\x03\x00\x00u\x00",
        9_988,
        b"\x00\x00",
        1,
        9_988,
    ),
    (b"", b"\x00\x00\x27\x10\x00\x02\x00\x00", 9_992, b"", 1, 0),
    (
        STARTUP,
        b"Q\x00\x10\x00\x00",
        1_048_571,
        b"\x00",
        2,
        1_048_571,
    ),
    (STARTUP, b"P\x00\x10\x00\x00", 1_048_572, b"", 2, 0),
];

fn push_times(stream: &mut Vec<u8>, number: usize) -> Result<(), Memory> {
    for _ in 0..number {
        stream.push(b'a')?;
    }
    Ok(())
}

fn push_long(stream: &mut Vec<u8>, long: &Long) -> Result<(), Memory> {
    let (before, head, number, tail, _, _) = *long;
    stream.extend_from_slice(before)?;
    stream.extend_from_slice(head)?;
    push_times(stream, number)?;
    stream.extend_from_slice(tail)?;
    Ok(())
}

fn long_stream(alloc: Global, long: &Long) -> Result<Vec<u8>, Memory> {
    let mut stream = Vec::new(alloc);
    let pushed = push_long(&mut stream, long);
    kept(stream, pushed)
}

// Whether the last of so many messages has a text of this size, and nothing stands after it, in pieces of 100 bytes.
fn is_read_so(alloc: Global, stream: &[u8], long: &Long) -> Result<bool, Memory> {
    let (_, _, _, _, number, size) = *long;
    let seen = see(alloc, 100, stream)?;
    Ok(seen.has(number, None) && seen.text == size && seen.rest == 0)
}

fn is_read(alloc: Global, long: &Long) -> Result<bool, Memory> {
    let stream = long_stream(alloc, long)?;
    let is_read = is_read_so(alloc, &stream, long);
    without(stream, is_read)
}

fn longest_are_read(alloc: Global) -> Result<(), Fail> {
    for (place, long) in LONGEST.iter().enumerate() {
        right_at(place, is_read(alloc, long)?)?;
    }
    Ok(())
}

// The name of the next message.
fn next_name(frames: &mut Frames) -> Result<&'static [u8], FrameFault> {
    match frames.next()? {
        Some(message) => {
            let name = name_of(&message);
            Ok(without(message, name))
        }
        None => Ok(b"nothing"),
    }
}

// Whether a reader that is fed all at once gives message by message, and holds what is left.
fn is_taken(frames: &mut Frames) -> Result<bool, FrameFault> {
    frames.feed(STARTUP)?;
    frames.feed(b"S\x00\x00\x00\x04X\x00\x00\x00\x04?")?;
    let held = frames.rest();
    let startup = next_name(frames)? == b"startup".as_slice();
    let sync = next_name(frames)? == b"sync".as_slice();
    let terminate = next_name(frames)? == b"terminate".as_slice();
    let fault = Err(FrameFault::UnknownType(63));
    let told = next_name(frames) == fault;
    let told_again = next_name(frames) == fault;
    Ok(held == 27 && startup && sync && terminate && told && told_again && frames.rest() == 1)
}

fn one_piece_is_taken(alloc: Global) -> Result<bool, FrameFault> {
    let mut frames = Frames::new(alloc);
    let is_taken = is_taken(&mut frames);
    without(frames, is_taken)
}

fn any_pieces_are_read(alloc: Global) -> Result<(), Fail> {
    for size in 1..30 {
        right_at(size, all_are_read(alloc, size)?)?;
    }
    right_at(1_000, all_are_read(alloc, 1_000)?)
}

#[test]
fn a_stream_is_read_in_any_pieces(rt: HostRuntime) -> Result<(), Fail> {
    any_pieces_are_read(rt.alloc())?;
    longest_are_read(rt.alloc())?;
    right_at(0, one_piece_is_taken(rt.alloc())?)
}
