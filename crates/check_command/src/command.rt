// The command `check [--wide] PATH`.
ghost use Rattle.std.specs.Prelude.{◌≡◌};
ghost use Rattle.link_traits.specs.Host.{objects_out};
ghost use Rattle.check_command.specs.Checks.{Checks};

use crate::verdict::{Verdict, verdict_of};
use cell_base::{Memory, Text};
use host_calls::{FileFault, Status, print, read_file};
use link_traits::Host;
use order_test::{EventWalk, InTurn};
use std::alloc::Global;
use std::thread::Threads;
use wide_check::InThreads;

/// The greatest number of bytes of a log.
pub const MOST_BYTES: usize = 268_435_456;

/// Reads the file of the path and prints what a check finds of it: `ok`, the first breach of its history, or why it is no log.
///
/// The status is 0 for `ok`, 1 for a breach or a fault of the text, 3 where a read failed, 4 where a write failed, 5 where memory ran out,
/// and 6 where the file couldn't be opened.
pub fn check_file<H: Host>(alloc: Global, host: &mut H, path: &Text) -> Status
    requires { objects_out (H.hosted host.old) ≡ 0 }
    ensures checks { Checks path.now (H.hosted host.old) result.code (H.hosted host.new) }
    ensures none_out { objects_out (H.hosted host.new) ≡ 0 }
{
    check_by(alloc, &InTurn, host, path)
}

/// Does the same, and judges the reads and scans of a history in several threads.
pub fn check_file_wide<R: Threads, H: Host>(
    rt: &R,
    alloc: Global,
    host: &mut H,
    path: &Text,
) -> Status
    requires { objects_out (H.hosted host.old) ≡ 0 }
    ensures checks { Checks path.now (H.hosted host.old) result.code (H.hosted host.new) }
    ensures none_out { objects_out (H.hosted host.new) ≡ 0 }
{
    check_by(alloc, &InThreads { rt }, host, path)
}

/// The same by a walk over the events.
fn check_by<W: EventWalk, H: Host>(alloc: Global, walk: &W, host: &mut H, path: &Text) -> Status
    requires { objects_out (H.hosted host.old) ≡ 0 }
    ensures checks { Checks path.now (H.hosted host.old) result.code (H.hosted host.new) }
    ensures none_out { objects_out (H.hosted host.new) ≡ 0 }
{
    let bytes = match read_file(alloc, host, path, MOST_BYTES) {
        Ok(bytes) => bytes,
        Err(FileFault::Open) => return Status { code: 6 },
        Err(FileFault::Read) => return Status { code: 3 },
        Err(FileFault::Memory) => return Status { code: 5 },
    };
    match verdict_of(alloc, walk, &bytes) {
        Ok(Verdict { line, status }) => print(host, &line, status),
        Err(Memory) => Status { code: 5 },
    }
}
