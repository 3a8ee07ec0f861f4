// The program over a host in memory: the one call that all tests make.
ghost use Rattle.std.specs.Prelude.{◌≡◌, ◌<◌, IfOk};
ghost use Rattle.link_traits.specs.Host.{objects_out};
ghost use Rattle.link_traits.specs.Hosts.{mem_hosted};

use cell_base::{Items, Memory, Text};
use doors::{MemNetwork, Network};
use link_traits::{HostFile, MemHost, MemLink, MemPlan, MemReturned, MemSink};
use monkey_server::monkey_main;
use std::alloc::Global;
use std::sync::Wait;
use std::thread::Threads;

/// What a client sends over the standard link, and what fails.
#[derive(Clone, Copy)]
pub struct Client<'a> {
    pub bytes: &'a [u8],
    /// How many bytes a read gives at most. A write takes as many, and 64 where that is less.
    pub piece: u32,
    /// The numbers, from 1 on, of the reads that fail.
    pub reads: &'a [u64],
    /// The numbers, from 1 on, of the writes that fail.
    pub writes: &'a [u64],
}

/// What a host in memory has, and what fails in it.
#[derive(Clone, Copy)]
pub struct Setting<'a> {
    /// The client of its standard link.
    pub client: Client<'a>,
    /// The path of its one file, and what stands in it.
    pub path: &'a str,
    pub file: &'a str,
    /// The numbers, from 1 on, of the writes to each file that it makes that fail.
    pub failing: &'a [u64],
}

// A client that sends nothing.
const SILENT: Client<'static> = Client {
    bytes: b"",
    piece: 64,
    reads: &[],
    writes: &[],
};

/// A host whose one file has this path and this text, and in which nothing fails.
pub fn with_file<'a>(path: &'a str, file: &'a str) -> Setting<'a> {
    Setting {
        client: SILENT,
        path,
        file,
        failing: &[],
    }
}

/// What a command came to: its status, what it printed, what it sent over the standard link, or nothing where it took none, and what it wrote to
/// the one file that it made, or nothing where it made none.
#[derive(Drop)]
pub struct Done {
    pub code: u8,
    pub printed: Vec<u8>,
    pub sent: Option<Vec<u8>>,
    pub file: Option<Vec<u8>>,
}

/// A side whose calls move at most so many bytes, and at least one. The calls of these numbers, from 1 on, fail.
pub fn plan(alloc: Global, piece: u32, fails: &[u64]) -> Result<MemPlan, Memory>
    ensures { IfOk result (λ plan. 0 < plan.piece) }
{
    Ok(MemPlan {
        piece: piece.max(1),
        fails: Items::from_slice(alloc, fails)?,
        bytes: 10_000,
        reads: 10_000,
    })
}

fn link(alloc: Global, client: &Client<'_>) -> Result<MemLink, Memory> {
    MemLink::new(
        alloc,
        Vec::from_slice(alloc, client.bytes)?,
        plan(alloc, client.piece, client.reads)?,
        plan(alloc, client.piece.max(64), client.writes)?,
    )
}

fn text(alloc: Global, bytes: &[u8]) -> Result<Text, Memory> {
    match Text::from_bytes(alloc, bytes) {
        Ok(text) => Ok(text),
        Err(_) => Err(Memory),
    }
}

fn files(alloc: Global, path: &str, file: &str) -> Result<Items<HostFile>, Memory> {
    let mut files = Items::new(alloc);
    files.push(HostFile {
        path: text(alloc, path.as_bytes())?,
        bytes: Items::from_slice(alloc, file.as_bytes())?,
    })?;
    Ok(files)
}

// A host of this setting. Nothing is out.
fn host(alloc: Global, setting: &Setting<'_>) -> Result<MemHost, Memory>
    ensures { IfOk result (λ host. objects_out (mem_hosted host) ≡ 0) }
{
    let link = link(alloc, &setting.client)?;
    let files = files(alloc, setting.path, setting.file)?;
    let out = MemSink::new(alloc, plan(alloc, 64, &[])?)?;
    let (opened, made) = (plan(alloc, 64, &[])?, plan(alloc, 64, setting.failing)?);
    let calls = Items::new(alloc);
    Ok(MemHost::new(alloc, Some(link), files, out, calls, opened, made))
}

// The words of a line, between which a slash stands.
fn words_of(alloc: Global, line: &[u8]) -> Result<Vec<Text>, Memory> {
    let mut words = Vec::new(alloc);
    for word in line.split(|byte| *byte == b'/') {
        words.push(text(alloc, word)?)?;
    }
    Ok(words)
}

// What went over a link.
fn of_link(returned: &MemReturned) -> Option<&[u8]> {
    match returned {
        MemReturned::Link(link) => Some(link.written()),
        _ => None,
    }
}

// What was written to a file that was made.
fn of_file(returned: &MemReturned) -> Option<&[u8]> {
    match returned {
        MemReturned::NewFile(file) => Some(file.written()),
        _ => None,
    }
}

// The bytes, where there are any.
fn copied(alloc: Global, bytes: Option<&[u8]>) -> Result<Option<Vec<u8>>, Memory> {
    match bytes {
        Some(bytes) => Ok(Some(Vec::from_slice(alloc, bytes)?)),
        None => Ok(None),
    }
}

// What was sent over the one link that came back.
fn sent(alloc: Global, host: &MemHost) -> Result<Option<Vec<u8>>, Memory> {
    let mut links = host.back().iter().filter_map(of_link);
    match (links.next(), links.next()) {
        (bytes, None) => copied(alloc, bytes),
        _ => Ok(None),
    }
}

// What was written to the one file that was made and came back.
fn file(alloc: Global, host: &MemHost) -> Result<Option<Vec<u8>>, Memory> {
    let mut files = host.back().iter().filter_map(of_file);
    match (files.next(), files.next()) {
        (bytes, None) => copied(alloc, bytes),
        _ => Ok(None),
    }
}

fn done_in(alloc: Global, code: u8, host: &MemHost) -> Result<Done, Memory> {
    let (sent, file) = (sent(alloc, host)?, file(alloc, host)?);
    match host.output() {
        Some(out) => Ok(Done {
            code,
            printed: Vec::from_slice(alloc, out.written())?,
            sent,
            file,
        }),
        None => Err(Memory),
    }
}

// Runs the command of these words at any network.
fn obeyed<R: Threads + Wait + Eprint + Sync, N: Network>(
    rt: &R,
    alloc: Global,
    network: &mut N,
    words: &[Text],
    setting: &Setting<'_>,
) -> Result<Done, Memory> {
    let mut host = host(alloc, setting)?;
    let status = monkey_main(rt, alloc, &mut host, network, words);
    done_in(alloc, status.code, &host)
}

/// Runs the command of a line, between whose words a slash stands.
pub fn run_at<R: Threads + Wait + Eprint + Sync, N: Network>(
    rt: &R,
    alloc: Global,
    network: &mut N,
    line: &[u8],
    setting: &Setting<'_>,
) -> Result<Done, Memory> {
    let words = words_of(alloc, line)?;
    obeyed(rt, alloc, network, words.as_slice(), setting)
}

/// The same where the network has no doors.
pub fn run<R: Threads + Wait + Eprint + Sync>(
    rt: &R,
    alloc: Global,
    line: &str,
    setting: &Setting<'_>,
) -> Result<Done, Memory> {
    let mut network = MemNetwork::new(alloc, Vec::new(alloc), Vec::new(alloc));
    run_at(rt, alloc, &mut network, line.as_bytes(), setting)
}

/// Runs the program without a word.
pub fn run_wordless<R: Threads + Wait + Eprint + Sync>(
    rt: &R,
    alloc: Global,
) -> Result<Done, Memory> {
    let mut network = MemNetwork::new(alloc, Vec::new(alloc), Vec::new(alloc));
    obeyed(rt, alloc, &mut network, &[], &with_file("", ""))
}

/// Runs a command over this client's link.
pub fn served<R: Threads + Wait + Eprint + Sync>(
    rt: &R,
    alloc: Global,
    line: &str,
    client: Client<'_>,
) -> Result<Done, Memory> {
    let setting = Setting {
        client,
        ..with_file("", "")
    };
    run(rt, alloc, line, &setting)
}

// Whether a command ended with this status, printed nothing, and sent the client these bytes.
fn is_answered(done: &Done, code: u8, sent: &[u8]) -> bool {
    match &done.sent {
        Some(bytes) => done.code == code && done.printed.is_empty() && bytes.as_slice() == sent,
        None => false,
    }
}

/// Whether a command over the link of a client, of whom no read and no write fails, ends with this status, prints nothing, and has sent the
/// client these bytes.
pub fn answers<R: Threads + Wait + Eprint + Sync>(
    rt: &R,
    alloc: Global,
    line: &str,
    client: Client<'_>,
    code: u8,
    sent: &[u8],
) -> Result<bool, Memory> {
    let done = served(rt, alloc, line, client)?;
    Ok(is_answered(&done, code, sent))
}

/// A client of whom no read and no write fails.
pub fn client_of(bytes: &[u8], piece: u32) -> Client<'_> {
    Client {
        bytes,
        piece,
        ..SILENT
    }
}
