// The commands in a host in memory: what they print, and their statuses.
ghost use Rattle.std.specs.Prelude.{◌≡◌, ◌<◌, IfOk};
ghost use Rattle.link_traits.specs.Host.{objects_out};
ghost use Rattle.link_traits.specs.Hosts.{mem_hosted};

use cell_base::{Items, Memory, Text};
use check_command::{check_file, check_file_wide, judge_file};
use held_values::{both, kept, without};
use host_calls::Status;
use link_traits::{HostFile, MemHost, MemPlan, MemReturned, MemSink};
use std::alloc::Global;
use std::thread::Threads;

/// What is planned to fail.
#[derive(Clone, Copy, Debug, PartialEq, Eq)]
pub enum Fails {
    Nothing,
    /// The first read of the file.
    Reading,
    /// The first write of the output.
    Printing,
    /// The opening of the file.
    Opening,
}

// A plan by pieces of this length, whose first call fails where that is asked.
fn plan(alloc: Global, piece: u32, fails: bool) -> Result<MemPlan, Memory>
    ensures { IfOk result (λ plan. plan.piece ≡ piece) }
{
    let numbers: &[u64] = if fails { &[1] } else { &[] };
    Ok(MemPlan {
        piece,
        fails: Items::from_slice(alloc, numbers)?,
        bytes: 1_000_000,
        reads: 1_000_000,
    })
}

fn text(alloc: Global, bytes: &[u8]) -> Result<Text, Memory> {
    match Text::from_bytes(alloc, bytes) {
        Ok(text) => Ok(text),
        Err(_) => Err(Memory),
    }
}

// One file, of the path `log`.
fn files_of(alloc: Global, log: &[u8]) -> Result<Items<HostFile>, Memory> {
    let (path, bytes) = both(text(alloc, b"log"), Items::from_slice(alloc, log))?;
    let mut files = Items::new(alloc);
    let pushed = files.push(HostFile { path, bytes });
    kept(files, pushed)
}

// The numbers of the calls that are planned to fail.
fn calls_of(alloc: Global, fails: Fails) -> Result<Items<u64>, Memory> {
    let numbers: &[u64] = if fails == Fails::Opening { &[1] } else { &[] };
    Items::from_slice(alloc, numbers)
}

// A host that has one file, of the path `log`, and no link. Nothing is out.
fn host(alloc: Global, log: &[u8], fails: Fails) -> Result<MemHost, Memory>
    ensures { IfOk result (λ host. objects_out (mem_hosted host) ≡ 0) }
{
    let out = MemSink::new(alloc, plan(alloc, 64, fails == Fails::Printing)?)?;
    let opened = plan(alloc, 5, fails == Fails::Reading)?;
    let made = plan(alloc, 64, false)?;
    let (files, calls) = both(files_of(alloc, log), calls_of(alloc, fails))?;
    Ok(MemHost::new(alloc, None, files, out, calls, opened, made))
}

/// The command that looks at the log.
#[derive(Clone, Copy, Debug, PartialEq, Eq)]
enum Command {
    Check,
    WideCheck,
    Judge,
}

// What comes of a command.
fn done<R: Threads>(
    rt: &R,
    command: Command,
    alloc: Global,
    host: &mut MemHost,
    path: &Text,
) -> Status
    requires { objects_out (mem_hosted host.old) ≡ 0 }
{
    match command {
        Command::Check => check_file(alloc, host, path),
        Command::WideCheck => check_file_wide(rt, alloc, host, path),
        Command::Judge => judge_file(alloc, host, path),
    }
}

// Whether the command over the path ends with this status, and has printed these lines.
fn ends<R: Threads>(
    rt: &R,
    command: Command,
    host: &mut MemHost,
    alloc: Global,
    path: &[u8],
    code: u8,
    lines: &[u8],
) -> Result<bool, Memory>
    requires { objects_out (mem_hosted host.old) ≡ 0 }
{
    let path = text(alloc, path)?;
    let status = done(rt, command, alloc, host, &path);
    Ok(match host.output() {
        Some(out) => status.code == code && out.written() == lines,
        None => false,
    })
}

// Whether the command over the log prints these lines, and the file came back.
fn prints_lines<R: Threads>(
    rt: &R,
    command: Command,
    host: &mut MemHost,
    alloc: Global,
    code: u8,
    lines: &[u8],
) -> Result<bool, Memory>
    requires { objects_out (mem_hosted host.old) ≡ 0 }
{
    let right = ends(rt, command, host, alloc, b"log", code, lines)?;
    Ok(right && matches!(host.back(), [MemReturned::File(_)]))
}

// Whether the command over this log prints these lines, and the file came back.
fn prints_in<R: Threads>(
    rt: &R,
    command: Command,
    alloc: Global,
    log: &[u8],
    code: u8,
    lines: &[u8],
) -> Result<bool, Memory> {
    let mut host = host(alloc, log, Fails::Nothing)?;
    let right = prints_lines(rt, command, &mut host, alloc, code, lines);
    without(host, right)
}

/// Whether the check of this log prints this line, and the file came back: in one thread, and in several.
pub fn prints<R: Threads>(
    rt: &R,
    alloc: Global,
    log: &[u8],
    code: u8,
    lines: &[u8],
) -> Result<bool, Memory> {
    let right = prints_in(rt, Command::Check, alloc, log, code, lines)?;
    Ok(right && prints_in(rt, Command::WideCheck, alloc, log, code, lines)?)
}

/// Whether the judge of this log prints these lines, and the file came back.
pub fn judges<R: Threads>(
    rt: &R,
    alloc: Global,
    log: &[u8],
    code: u8,
    lines: &[u8],
) -> Result<bool, Memory> {
    prints_in(rt, Command::Judge, alloc, log, code, lines)
}

// Whether the command over a path ends with this status where this fails, and prints nothing.
fn ends_in<R: Threads>(
    rt: &R,
    command: Command,
    alloc: Global,
    path: &[u8],
    fails: Fails,
    code: u8,
) -> Result<bool, Memory> {
    let mut host = host(alloc, b"monkey-log 2 rc\norder 0\nend\n", fails)?;
    let right = ends(rt, command, &mut host, alloc, path, code, b"");
    without(host, right)
}

/// Whether the check of a path ends with this status where this fails, and prints nothing: in one thread, and in several; and the judge likewise.
pub fn ends_with<R: Threads>(
    rt: &R,
    alloc: Global,
    path: &[u8],
    fails: Fails,
    code: u8,
) -> Result<bool, Memory> {
    let right = ends_in(rt, Command::Check, alloc, path, fails, code)?;
    let wide = ends_in(rt, Command::WideCheck, alloc, path, fails, code)?;
    Ok(right && wide && ends_in(rt, Command::Judge, alloc, path, fails, code)?)
}
