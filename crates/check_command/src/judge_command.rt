// The command `judge PATH`.
ghost use Rattle.std.specs.Prelude.{◌≡◌};
ghost use Rattle.link_traits.specs.Host.{objects_out};
ghost use Rattle.check_command.specs.Judges.{Judges};

use crate::command::MOST_BYTES;
use crate::judge_verdict::judge_verdict_of;
use crate::verdict::Verdict;
use cell_base::{Memory, Text};
use host_calls::{FileFault, Status, print, read_file};
use link_traits::Host;
use std::alloc::Global;

/// Reads the file of the path and prints the strongest level that its history meets, whatever levels it names: the level, the least commit order,
/// and a cycle of pairs that shows why it misses the next level; or the first breach of its events, or why it is no log.
///
/// The status is 0 where some level is met, 1 where none is, and for a breach or a fault of the text, 3 where a read failed, 4 where a write
/// failed, 5 where memory ran out, and 6 where the file couldn't be opened.
pub fn judge_file<H: Host>(alloc: Global, host: &mut H, path: &Text) -> Status
    requires { objects_out (H.hosted host.old) ≡ 0 }
    ensures judges { Judges path.now (H.hosted host.old) result.code (H.hosted host.new) }
    ensures none_out { objects_out (H.hosted host.new) ≡ 0 }
{
    let bytes = match read_file(alloc, host, path, MOST_BYTES) {
        Ok(bytes) => bytes,
        Err(FileFault::Open) => return Status { code: 6 },
        Err(FileFault::Read) => return Status { code: 3 },
        Err(FileFault::Memory) => return Status { code: 5 },
    };
    match judge_verdict_of(alloc, &bytes) {
        Ok(Verdict { line, status }) => print(host, &line, status),
        Err(Memory) => Status { code: 5 },
    }
}
