// Reads a file whole.
ghost use Rattle.std.specs.Prelude.{◌≡◌, ◌≤◌, ◌<◌, ◌+◌, [], length, IfOk, IfErr, OnOk};
ghost use Rattle.link_traits.specs.Traffic.{Both};
ghost use Rattle.link_traits.specs.Host.{objects_out};
ghost use Rattle.host_calls.specs.Reading.{AddsPiece, IsReadFault, ReadWhole, FileRead, Unread};

use cell_base::{Memory, Text};
use link_traits::{Failed, Host, HostFault, Source};
use std::alloc::{AllocError, Global};
use thiserror::Error;

/// How many bytes are read at once.
const ROOM: usize = 65_536;

/// Why a file wasn't read whole.
#[derive(Clone, Copy, Debug, PartialEq, Eq, Error)]
pub enum FileFault {
    /// It couldn't be opened, and the host counted that.
    #[error("the file can't be opened")]
    Open,
    /// A read failed, and the file counted that.
    #[error("reading the file failed")]
    Read,
    /// Out of memory.
    #[error("out of memory")]
    Memory,
}

impl From<Memory> for FileFault {
    ghost use Rattle.std.specs.Prelude.{◌≡◌};
    ghost use Rattle.host_calls.specs.declared.reading.FileFault.TheVariants as faults;

    ghost from_gives = { λ _ e. e ≡ faults.Memory };

    fn from(_: Memory) -> Self {
        FileFault::Memory
    }
}

impl From<AllocError> for FileFault {
    ghost use Rattle.std.specs.Prelude.{◌≡◌};
    ghost use Rattle.host_calls.specs.declared.reading.FileFault.TheVariants as faults;

    ghost from_gives = { λ _ e. e ≡ faults.Memory };

    fn from(_: AllocError) -> Self {
        FileFault::Memory
    }
}

impl From<Failed> for FileFault {
    ghost use Rattle.std.specs.Prelude.{◌≡◌};
    ghost use Rattle.host_calls.specs.declared.reading.FileFault.TheVariants as faults;

    ghost from_gives = { λ _ e. e ≡ faults.Read };

    fn from(_: Failed) -> Self {
        FileFault::Read
    }
}

// Reads the next piece after the bytes. Answers how many bytes came: 0 exactly at the end.
fn read_piece<S: Source>(
    source: &mut S,
    room: &mut [u8],
    bytes: &mut Vec<u8>,
) -> Result<usize, FileFault>
    requires room { 0 < length room.old }
    ensures read { IfOk result (λ n. AddsPiece n bytes.old.items bytes.new.items (S.traffic source.old) (S.traffic source.new)) }
    ensures within { IfOk result (λ n. n ≤ length room.old) }
    ensures count { IfOk result (λ n. length bytes.new.items ≡ length bytes.old.items + n) }
    ensures later { S.read_faults source.old ≤ S.read_faults source.new }
    ensures fault { IfErr result (λ e. IsReadFault e (S.read_faults source.old) (S.read_faults source.new)) }
{
    let n = source.read(room)?;
    bytes.extend_from_slice(&room[..n])?;
    Ok(n)
}

// Reads to the end, or until there are more than so many bytes.
fn read_on<S: Source>(
    source: &mut S,
    room: &mut [u8],
    most: usize,
    bytes: &mut Vec<u8>,
) -> Result<(), FileFault>
    requires room { 0 < length room.old }
    requires most { most < 18446744073709551615 }
    requires empty { bytes.old.items ≡ [] }
    ensures whole { OnOk result (Both (ReadWhole most bytes.new.items) (S.traffic source.old) (S.traffic source.new)) }
    ensures few { OnOk result (length bytes.new.items ≤ most + 1) }
    ensures later { S.read_faults source.old ≤ S.read_faults source.new }
    ensures fault { IfErr result (λ e. IsReadFault e (S.read_faults source.old) (S.read_faults source.new)) }
{
    while bytes.len() <= most {
        let size = room.len().min(most + 1 - bytes.len());
        let n = read_piece(source, &mut room[..size], bytes)?;
        if n == 0 {
            return Ok(());
        }
    }
    Ok(())
}

/// Reads the file of a path to its end, or until more than `most` bytes were read: at most one more. The host's `open_file` is called once,
/// and the file is handed back.
pub fn read_file<H: Host>(
    alloc: Global,
    host: &mut H,
    path: &Text,
    most: usize,
) -> Result<Vec<u8>, FileFault>
    requires none_out { objects_out (H.hosted host.old) ≡ 0 }
    requires most { most < 18446744073709551615 }
    ensures ok { IfOk result (λ bytes. FileRead path.now most bytes.items (H.hosted host.old) (H.hosted host.new)) }
    ensures err { IfErr result (λ e. Unread path.now e (H.hosted host.old) (H.hosted host.new)) }
    ensures none_out { objects_out (H.hosted host.new) ≡ 0 }
{
    let mut room = vec![in alloc; 0u8; ROOM]?;
    let mut bytes = Vec::new(alloc);
    let mut file = match host.open_file(path) {
        Ok(file) => file,
        Err(HostFault::Failed) => return Err(FileFault::Open),
        Err(HostFault::Memory) => return Err(FileFault::Memory),
    };
    let read = read_on(&mut file, &mut room, most, &mut bytes);
    host.file_back(file);
    read?;
    Ok(bytes)
}
