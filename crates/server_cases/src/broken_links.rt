// `pipe` over links whose input is cut short, or whose reads or writes fail: its status, and what was sent.
use crate::hosts::{Client, Done, served};
use session_text::{reply_bytes, request_bytes};
use std::alloc::Global;
use std::sync::Wait;
use std::test::Fail;
use std::thread::Threads;

// The client sends 16 and 11 bytes. It is sent 191, by one write, and then the tag, of 11, and ReadyForQuery, of 6, by one write each.
const BLOCK: &str = r"
# a block that begins
> StartupMessage user=a
+ started
> Query BEGIN
< CommandComplete BEGIN
< ReadyForQuery T
";

// How many bytes the client sends.
const LENGTH: usize = 27;

// How many bytes these are, where they are what the whole begins with.
fn front_of(whole: &[u8], sent: &Option<Vec<u8>>) -> Option<usize> {
    let bytes = sent.as_ref()?;
    if whole.starts_with(bytes.as_slice()) {
        Some(bytes.len())
    } else {
        None
    }
}

// What `pipe rc 0` came to, where the client's first so many bytes come, and the reads and writes of these numbers fail.
fn cut<'a, R: Threads + Wait + Eprint + Sync>(
    rt: &R,
    alloc: Global,
    length: usize,
    reads: &'a [u64],
    writes: &'a [u64],
) -> Result<Done, Fail> {
    let bytes = request_bytes(alloc, BLOCK)?;
    let client = Client {
        bytes: bytes.get(..length).unwrap_or(&[]),
        piece: 10_000,
        reads,
        writes,
    };
    Ok(served(rt, alloc, "pipe/rc/0", client)?)
}

// The same as a status, and with how many bytes of the whole what was sent ends; or nothing where other bytes were sent.
fn piped<'a, R: Threads + Wait + Eprint + Sync>(
    rt: &R,
    alloc: Global,
    length: usize,
    reads: &'a [u64],
    writes: &'a [u64],
) -> Result<(u8, Option<usize>), Fail> {
    let done = cut(rt, alloc, length, reads, writes)?;
    let whole = reply_bytes(alloc, BLOCK)?;
    Ok((done.code, front_of(&whole, &done.sent)))
}

// What comes of the first so many bytes of the client.
fn expected(length: usize) -> (u8, Option<usize>) {
    match length {
        0 => (0, Some(0)),
        1..=15 => (1, Some(0)),
        16 => (0, Some(191)),
        17..=26 => (1, Some(191)),
        _ => (0, Some(208)),
    }
}

#[test]
fn has_so_many_bytes(rt: HostRuntime) -> Result<(), Fail> {
    let alloc = rt.alloc();
    assert_eq!(rt; request_bytes(alloc, BLOCK)?.len(), LENGTH);
    assert_eq!(rt; reply_bytes(alloc, BLOCK)?.len(), 208);
    Ok(())
}

#[test]
fn tells_where_the_input_ended(rt: HostRuntime) -> Result<(), Fail> {
    let alloc = rt.alloc();
    for length in 0..28 {
        assert_eq!(rt; piped(&rt, alloc, length, &[], &[])?, expected(length));
    }
    Ok(())
}

// The numbers of the reads and of the writes that fail, and what comes of it.
const FAILURES: [(&[u64], &[u64], (u8, Option<usize>)); 5] = [
    (&[1], &[], (3, Some(0))),
    (&[2], &[], (3, Some(208))),
    (&[], &[1], (4, Some(0))),
    (&[], &[2], (4, Some(191))),
    (&[], &[3], (4, Some(202))),
];

#[test]
fn tells_what_failed(rt: HostRuntime) -> Result<(), Fail> {
    let alloc = rt.alloc();
    for (reads, writes, wanted) in FAILURES {
        assert_eq!(rt; piped(&rt, alloc, LENGTH, reads, writes)?, wanted);
    }
    Ok(())
}
