// Objects in memory, as the tests begin with them.
ghost use Rattle.std.specs.Prelude.{◌≡◌, IfOk, IsSome};
ghost use Rattle.link_traits.specs.Hosts.{mem_hosted};

use case_lines::text_of;
use cell_base::{Items, Memory};
use held_values::{both, kept};
use link_traits::{HostFile, MemHost, MemLink, MemPlan, MemSink, MemSource};
use std::alloc::Global;

fn plan(
    alloc: Global,
    piece: u32,
    fails: &[u64],
    bytes: usize,
    reads: usize,
) -> Result<MemPlan, Memory>
    ensures { IfOk result (λ plan. plan.piece ≡ piece) }
{
    Ok(MemPlan {
        piece,
        fails: Items::from_slice(alloc, fails)?,
        bytes,
        reads,
    })
}

/// A link of pieces of three and two. The third read and the second write are to fail. There is room for seven bytes and
/// four reads, and for five bytes written.
pub fn link(alloc: Global) -> Result<MemLink, Memory> {
    let bytes = Vec::from_slice(alloc, b"startup")?;
    MemLink::new(
        alloc,
        bytes,
        plan(alloc, 3, &[3], 7, 4)?,
        plan(alloc, 2, &[2], 5, 0)?,
    )
}

/// A source of two bytes in pieces of one, with room for one byte.
pub fn source(alloc: Global) -> Result<MemSource, Memory> {
    let bytes = Vec::from_slice(alloc, b"ab")?;
    MemSource::new(alloc, bytes, plan(alloc, 1, &[], 1, 9)?)
}

/// A sink of pieces of two, whose fifth write is to fail.
pub fn sink(alloc: Global) -> Result<MemSink, Memory> {
    MemSink::new(alloc, plan(alloc, 2, &[5], 100, 0)?)
}

fn host_link(alloc: Global) -> Result<MemLink, Memory> {
    let bytes = Vec::from_slice(alloc, b"in")?;
    MemLink::new(
        alloc,
        bytes,
        plan(alloc, 9, &[], 9, 9)?,
        plan(alloc, 9, &[], 9, 9)?,
    )
}

fn host_sink(alloc: Global) -> Result<MemSink, Memory> {
    MemSink::new(alloc, plan(alloc, 9, &[], 9, 0)?)
}

fn host_files(alloc: Global) -> Result<Items<HostFile>, Memory> {
    let (path, bytes) = both(text_of(alloc, b"log"), Items::from_slice(alloc, b"open"))?;
    let mut files = Items::new(alloc);
    let pushed = files.push(HostFile { path, bytes });
    kept(files, pushed)
}

/// A host with a link, a file `log` of the bytes `open` and an output. Its first call is to fail, and so is its sixth.
pub fn host(alloc: Global) -> Result<MemHost, Memory>
    ensures { IfOk result (λ host. IsSome (mem_hosted host).out) }
{
    let opened = plan(alloc, 9, &[], 9, 9)?;
    let made = plan(alloc, 9, &[], 9, 0)?;
    let ends = both(host_link(alloc), host_sink(alloc));
    let lists = both(host_files(alloc), Items::from_slice(alloc, &[1, 6]));
    let (ends, lists) = both(ends, lists)?;
    let (link, sink) = ends;
    let (files, fails) = lists;
    Ok(MemHost::new(alloc, Some(link), files, sink, fails, opened, made))
}
