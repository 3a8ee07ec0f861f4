// Writes a file whole.
ghost use Rattle.std.specs.Prelude.{◌≡◌, IfErr, OnOk};
ghost use Rattle.link_traits.specs.Host.{objects_out};
ghost use Rattle.host_calls.specs.Writing.{FileWritten, Unwritten};

use cell_base::Text;
use link_traits::{Host, HostFault, send_all};
use thiserror::Error;

/// Why a file wasn't written whole.
#[derive(Clone, Copy, Debug, PartialEq, Eq, Error)]
pub enum WriteFault {
    /// It couldn't be made, and the host counted that.
    #[error("the file can't be made")]
    Make,
    /// A write failed, and the file counted that.
    #[error("writing the file failed")]
    Write,
    /// Out of memory.
    #[error("out of memory")]
    Memory,
}

/// Makes the file of a path anew and writes these bytes to it. The host's `make_file` is called once, and the file is handed back.
pub fn write_file<H: Host>(host: &mut H, path: &Text, bytes: &[u8]) -> Result<(), WriteFault>
    requires none_out { objects_out (H.hosted host.old) ≡ 0 }
    ensures ok { OnOk result (FileWritten path.now bytes.now (H.hosted host.old) (H.hosted host.new)) }
    ensures err { IfErr result (λ e. Unwritten path.now bytes.now e (H.hosted host.old) (H.hosted host.new)) }
    ensures none_out { objects_out (H.hosted host.new) ≡ 0 }
{
    let mut file = match host.make_file(path) {
        Ok(file) => file,
        Err(HostFault::Failed) => return Err(WriteFault::Make),
        Err(HostFault::Memory) => return Err(WriteFault::Memory),
    };
    let written = send_all(&mut file, bytes);
    host.new_file_back(file);
    match written {
        Ok(()) => Ok(()),
        Err(_) => Err(WriteFault::Write),
    }
}
