// The command `serve` at doors in memory.
use crate::entries::{Entry, came_back, network};
use crate::hosts::{Done, Setting, run_at, with_file};
use cell_base::Memory;
use doors::MemNetwork;
use std::alloc::Global;
use std::sync::Wait;
use std::thread::Threads;

/// A server: how it is started, what comes in, and what becomes of it.
#[derive(Clone, Copy)]
pub struct Server<'a> {
    pub name: &'a str,
    /// Its command, with a slash between each two words.
    pub line: &'a str,
    /// What stands in the host's one file, of the path `setup`.
    pub file: &'a str,
    /// The numbers, from 1 on, of the writes to the log's file that fail.
    pub failing: &'a [u64],
    pub entries: &'a [Entry<'a>],
    /// Whether it opens its doors.
    pub opens: bool,
    pub code: u8,
    pub printed: &'a str,
    /// What stands in the log's file in the end, or nothing where no file is made.
    pub log: Option<&'a str>,
}

/// One worker at Read Committed that accepts two links, without a log and a setup.
pub const ONE_WORKER: Server<'static> = Server {
    name: "",
    line: "serve/--quiet/--seed/7/--listen/here/--workers/1/--accept/2",
    file: "",
    failing: &[],
    entries: &[],
    opens: true,
    code: 0,
    printed: "",
    log: None,
};

// The host that a server has.
fn setting_of<'a>(server: &Server<'a>) -> Setting<'a> {
    Setting {
        failing: server.failing,
        ..with_file("setup", server.file)
    }
}

// Whether this was written to the file of a log, or none was made where nothing is wanted.
fn is_log(file: &Option<Vec<u8>>, log: Option<&str>) -> bool {
    match (file, log) {
        (Some(bytes), Some(text)) => bytes.as_slice() == text.as_bytes(),
        (None, None) => true,
        _ => false,
    }
}

// Whether a server came to its status, printed its line, and wrote its log.
fn is_told(done: &Done, server: &Server<'_>) -> bool {
    done.code == server.code
        && done.printed.as_slice() == server.printed.as_bytes()
        && is_log(&done.file, server.log)
}

// Whether the network was asked for doors where it was to be, and each link was sent what is told of it.
fn is_left(alloc: Global, network: &MemNetwork, server: &Server<'_>) -> Result<bool, Memory> {
    if server.opens {
        came_back(alloc, network, server.entries)
    } else {
        Ok(network.back().is_empty())
    }
}

// Whether a server comes to what is told of it.
fn serves<R: Threads + Wait + Eprint + Sync>(
    rt: &R,
    alloc: Global,
    server: &Server<'_>,
) -> Result<bool, Memory> {
    let mut network = network(alloc, server.entries)?;
    let line = server.line.as_bytes();
    let done = run_at(rt, alloc, &mut network, line, &setting_of(server))?;
    if is_told(&done, server) {
        is_left(alloc, &network, server)
    } else {
        Ok(false)
    }
}

/// The name of the first server that doesn't come to what is told of it, or an empty one.
pub fn first_wrong<'a, R: Threads + Wait + Eprint + Sync>(
    rt: &R,
    alloc: Global,
    servers: &[Server<'a>],
) -> Result<&'a str, Memory> {
    for server in servers {
        if !serves(rt, alloc, server)? {
            return Ok(server.name);
        }
    }
    Ok("")
}
