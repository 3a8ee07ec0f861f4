// Links in memory.
ghost use Rattle.std.specs.Prelude.{◌≡◌, ◌<◌, IfOk};

use cell_base::{Items, Memory};
use link_traits::{MemLink, MemPlan};
use std::alloc::Global;

// The calls of these numbers, from 1 on, fail.
fn plan(alloc: Global, piece: u32, fails: &[u64]) -> Result<MemPlan, Memory>
    ensures { IfOk result (λ plan. plan.piece ≡ piece) }
{
    Ok(MemPlan {
        piece,
        fails: Items::from_slice(alloc, fails)?,
        bytes: 10_000,
        reads: 10_000,
    })
}

/// A link whose reads give this input in pieces of this length, and whose writes take 64 bytes at most.
pub fn link(alloc: Global, input: &[u8], piece: u32) -> Result<MemLink, Memory>
    requires { 0 < piece }
{
    failing_link(alloc, input, piece, 64, &[], &[])
}

/// A link whose reads give this input in pieces of the first length, and whose writes take the second at most. The reads and the writes of
/// these numbers fail, each counted from 1 on.
pub fn failing_link(
    alloc: Global,
    input: &[u8],
    given: u32,
    taken: u32,
    reads: &[u64],
    writes: &[u64],
) -> Result<MemLink, Memory>
    requires given { 0 < given }
    requires taken { 0 < taken }
{
    MemLink::new(
        alloc,
        Vec::from_slice(alloc, input)?,
        plan(alloc, given, reads)?,
        plan(alloc, taken, writes)?,
    )
}
