// What a command prints, and the status that it ends with.
ghost use Rattle.std.specs.Prelude.{◌≡◌};
ghost use Rattle.link_traits.specs.Host.{objects_out};
ghost use Rattle.host_calls.specs.Printing.{Printed};

use crate::status::Status;
use link_traits::{Host, send_all};

/// Prints a line to the host's output. The status is this one where the line was written whole, and 4 where a write failed: then a part of
/// the line was written, from its front on.
pub fn print<H: Host>(host: &mut H, line: &[u8], whole: Status) -> Status
    requires { objects_out (H.hosted host.old) ≡ 0 }
    ensures printed { Printed line.now whole.code (H.hosted host.old) result.code (H.hosted host.new) }
    ensures none_out { objects_out (H.hosted host.new) ≡ 0 }
{
    let mut out = host.take_out();
    let written = send_all(&mut out, line);
    host.out_back(out);
    match written {
        Ok(()) => whole,
        Err(_) => Status { code: 4 },
    }
}
