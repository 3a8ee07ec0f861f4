// What no clause says: that calls succeed where there is memory, and that the adapters pass the bytes on.
ghost use Rattle.std.specs.Prelude.{IsSome};
ghost use Rattle.link_traits.specs.Hosts.{mem_hosted};

use crate::server::compared::right;
use crate::server::files::{Call, Row, hold};
use crate::server::made::{host, link, sink, source};
use crate::server::steps::Step::{Read as Reads, Send, Write as Writes};
use crate::server::steps::{Step, reads, sends, take, writes};
use cell_base::Memory;
use held_values::without;
use link_traits::{
    FileSource, Host, HostFault, MemHost, MemLink, MemReturned, MemSink, MemSource, StdHost,
    StdLink, StdOut, words_of,
};
use std::alloc::Global;
use std::fs;
use std::io::{self, ErrorKind, Read, Write};
use std::test::Fail;

/// Up to where one byte is left.
const FIRST: &[Step<'static>] = &[
    Reads(Some(b"sta")),
    Writes(b"ready", Some(2)),
    Reads(Some(b"rtu")),
    Reads(None),
    Writes(b"ady", None),
];

/// At last there is no place for a fifth mark, and room for one more byte.
const LAST: &[Step<'static>] = &[
    Writes(b"ady", Some(2)),
    Reads(Some(b"p")),
    Reads(Some(b"")),
    Reads(None),
    Writes(b"yz", None),
    Writes(b"y", Some(1)),
];

fn has_ended(link: &MemLink) -> bool {
    let marks = [(0, 0), (3, 2), (6, 4), (7, 4)];
    link.written() == b"ready".as_slice() && link.marks() == marks.as_slice()
}

fn copy_has_ended(alloc: Global, link: &MemLink) -> Result<bool, Memory> {
    let copy = link.copy(alloc)?;
    let has_ended = has_ended(&copy);
    without(copy, Ok(has_ended))
}

fn goes_by_plan(alloc: Global, link: &mut MemLink) -> Result<(), Fail> {
    take(link, "first", FIRST)?;
    let is_left = link.left() == b"p".as_slice();
    take(link, "last", LAST)?;
    right("end", 0, is_left && copy_has_ended(alloc, link)?)
}

#[test]
fn reads_and_writes_by_plan(rt: HostRuntime) -> Result<(), Fail> {
    let mut link = link(rt.alloc())?;
    let goes = goes_by_plan(rt.alloc(), &mut link);
    without(link, goes)
}

/// A source with room for one byte reads no more.
fn reads_a_part(source: &mut MemSource) -> bool {
    reads(source, Some(b"a")) && reads(source, None) && source.left() == b"b".as_slice()
}

/// All is sent in pieces; where a write fails, a part was sent.
fn takes_a_part(sink: &mut MemSink) -> bool {
    sends(sink, b"hello")
        && sends(sink, b"")
        && !sends(sink, b"world")
        && sink.written() == b"hellowo".as_slice()
}

#[test]
fn sends_all_or_a_part(rt: HostRuntime) -> Result<(), Fail> {
    let mut source = source(rt.alloc())?;
    let reads = reads_a_part(&mut source);
    right("source", 0, without(source, reads))?;
    let mut sink = sink(rt.alloc())?;
    let takes = takes_a_part(&mut sink);
    right("sink", 0, without(sink, takes))
}

/// Whether the standard link fails.
fn hands_out_nothing<H: Host>(host: &mut H) -> bool
where
    H::Link: Drop,
{
    matches!(host.standard_link(), Err(HostFault::Failed))
}

/// Writes over the standard link, and hands it back.
fn writes_over_link<H: Host>(host: &mut H) -> bool {
    match host.standard_link() {
        Ok(mut link) => {
            let written = sends(&mut link, b"sent");
            host.link_back(link);
            written
        }
        Err(_) => false,
    }
}

/// Prints to the output, and hands it back.
fn prints<H: Host>(host: &mut H, bytes: &[u8]) -> bool
    requires { IsSome (H.hosted host.old).out }
{
    let mut out = host.take_out();
    let printed = sends(&mut out, bytes);
    host.out_back(out);
    printed
}

/// Whether the one object that came back is the link, with these bytes.
fn link_came_back(host: &MemHost, bytes: &[u8]) -> bool {
    matches!(host.back(), [MemReturned::Link(link)] if link.written() == bytes)
}

/// Whether the output has these bytes.
fn has_printed(host: &MemHost, bytes: &[u8]) -> bool {
    matches!(host.output(), Some(sink) if sink.written() == bytes)
}

/// The first call is to fail, the second hands the link out, and after it there is none.
fn lends(host: &mut MemHost) -> bool
    requires { IsSome (mem_hosted host.old).out }
{
    prints(host, b"line")
        && hands_out_nothing(host)
        && writes_over_link(host)
        && hands_out_nothing(host)
        && link_came_back(host, b"sent")
        && has_printed(host, b"line")
}

#[test]
fn hands_out_and_takes_back(rt: HostRuntime) -> Result<(), Fail> {
    let mut host = host(rt.alloc())?;
    let lends = lends(&mut host);
    right("host", 0, without(host, lends))
}

/// The first call is to fail; the second opens the file, the third finds none of its path, the fourth makes one, the fifth opens the file
/// again, and the sixth is to fail.
const BY_PLAN: &[Row] = &[
    (Call::Open, b"log", b"open", false),
    (Call::Open, b"log", b"open", true),
    (Call::Open, b"logs", b"open", false),
    (Call::Make, b"logs", b"new", true),
    (Call::Open, b"log", b"open", true),
    (Call::Make, b"logs", b"new", false),
];

/// Whether two files that were opened came back, with one between them that was made, of these bytes.
fn files_came_back(host: &MemHost, bytes: &[u8]) -> bool {
    matches!(host.back(), [MemReturned::File(_), MemReturned::NewFile(file), MemReturned::File(_)] if file.written() == bytes)
}

fn lends_files(alloc: Global, host: &mut MemHost) -> Result<(), Fail> {
    hold(alloc, host, "by plan", BY_PLAN)?;
    right("back", 0, files_came_back(host, b"new"))
}

#[test]
fn opens_and_makes_files(rt: HostRuntime) -> Result<(), Fail> {
    let mut host = host(rt.alloc())?;
    let lends = lends_files(rt.alloc(), &mut host);
    without(host, lends)
}

/// A stream whose reads fail, and whose writes take nothing.
#[derive(Clone, Copy)]
struct Broken;

impl Read for Broken {
    fn read(&mut self, _buf: &mut [u8]) -> io::Result<usize> {
        Err(io::Error::from(ErrorKind::Other))
    }
}

impl Write for Broken {
    fn write(&mut self, _buf: &[u8]) -> io::Result<usize> {
        Ok(0)
    }

    fn flush(&mut self) -> io::Result<()> {
        Ok(())
    }
}

const OVER_STREAMS: &[Step<'static>] = &[
    Reads(Some(b"star")),
    Reads(Some(b"tup")),
    Reads(Some(b"")),
    Send(b"ready"),
];

fn passes_on(writer: &mut Vec<u8>) -> Result<(), Fail> {
    let mut reader: &[u8] = b"startup";
    let mut link = StdLink::new(&mut reader, &mut *writer);
    take(&mut link, "over streams", OVER_STREAMS)?;
    right("written", 0, writer.as_slice() == b"ready".as_slice())
}

fn prints_on(writer: &mut Vec<u8>) -> bool {
    let sent = sends(&mut StdOut::new(&mut *writer), b"line");
    sent && writer.as_slice() == b"line".as_slice()
}

/// A read that fails, and a write that takes none, have failed.
fn fails_broken() -> bool {
    let mut link = StdLink::new(Broken, Broken);
    reads(&mut link, None)
        && writes(&mut link, b"x", None)
        && writes(&mut StdOut::new(Broken), b"x", None)
}

/// The adapters pass the bytes on.
#[test]
fn passes_bytes_on(rt: HostRuntime) -> Result<(), Fail> {
    let mut writer: Vec<u8> = Vec::new(rt.alloc());
    let passes = passes_on(&mut writer);
    without(writer, passes)?;
    let mut printed: Vec<u8> = Vec::new(rt.alloc());
    let prints = prints_on(&mut printed);
    right("printed", 0, without(printed, prints))?;
    right("broken", 0, fails_broken())
}

fn reads_file() -> bool {
    let mut reader: &[u8] = b"file";
    let mut file = FileSource::new(&mut reader);
    reads(&mut file, Some(b"file")) && reads(&mut file, Some(b""))
}

/// A file passes its bytes on, and a read that fails has failed.
#[test]
fn reads_files(_rt: HostRuntime) -> Result<(), Fail> {
    right("file", 0, reads_file())?;
    right("broken", 0, reads(&mut FileSource::new(Broken), None))
}

/// What is written to a file that is made is read from the file when it is opened. Where no file can be made none is opened.
const OF_SYSTEM: &[Row] = &[
    (Call::Make, b"host_log", b"bytes", true),
    (Call::Open, b"host_log", b"byte", true),
    (Call::Make, b"no_folder/log", b"bytes", false),
    (Call::Open, b"no_folder/log", b"byte", false),
];

/// Hands the standard link out and takes it back.
fn passes_the_link<H: Host>(host: &mut H) -> bool {
    match host.standard_link() {
        Ok(link) => {
            host.link_back(link);
            true
        }
        Err(_) => false,
    }
}

fn lends_of_system<H: Host>(host: &mut H) -> bool
    requires { IsSome (H.hosted host.old).out }
{
    prints(host, b"") && passes_the_link(host)
}

/// Whether the host has kept these words of the system, or none where these are empty.
fn says<H: Host>(alloc: Global, host: &H, words: &str) -> Result<bool, Memory> {
    match host.reason() {
        Some(reason) => Ok(words_of(alloc, &reason)?.as_str() == words),
        None => Ok(words.is_empty()),
    }
}

/// The real host hands out and takes back, and says why it last failed to.
#[test]
fn lends_streams_and_files(rt: HostRuntime) -> Result<(), Fail> {
    let alloc = rt.alloc();
    let mut host = StdHost::new(alloc, &rt, rt.stdin(), rt.stdout());
    let lends = lends_of_system(&mut host);
    let silent = says(alloc, &host, "");
    let holds = hold(alloc, &mut host, "of the system", OF_SYSTEM);
    let reason = says(alloc, &host, "No such file or directory");
    let holds = without(host, holds);
    let removed = fs::remove_file(&rt, "host_log");
    holds?;
    removed?;
    right("silent", 0, silent?)?;
    right("reason", 0, reason?)?;
    right("lent", 0, lends)
}
