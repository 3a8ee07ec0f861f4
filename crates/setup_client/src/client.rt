// The client of a setup: its bytes, and the link on which it stands.
ghost use Rattle.std.specs.Prelude.{◌≡◌, ◌≤◌, ◌<◌, ◌++◌, length, IfOk, OnOk};
ghost use Rattle.std.specs.Int.{w32, to_be_bytes};
ghost use Rattle.link_traits.specs.Memory.{mem_sight};
ghost use Rattle.setup_client.specs.Client.{most_text, startup, query_message, terminate, setup_bytes, link_of as sight_of_client};

use byteorder::{BigEndian, ByteOrder};
use cell_base::{Items, Memory};
use link_traits::{MemLink, MemPlan};
use std::alloc::Global;

/// The greatest number of bytes of a setup: the most that the text of one query message has.
pub const MOST_TEXT: usize = 1_048_571;

// The startup message: its length, version 3.0, the user, and the end of the parameters.
const STARTUP: &[u8] = b"\x00\x00\x00\x14\x00\x03\x00\x00user\x00setup\x00\x00";

const TERMINATE: &[u8] = b"X\x00\x00\x00\x04";

// The room for what the client is sent, in bytes.
const ROOM: usize = 16_777_216;

// The room for reads: a piece of a link has at most 8,192 bytes.
const READS: usize = 256;

// Writes a number of four bytes, the highest first.
fn put_length(out: &mut Vec<u8>, number: u32) -> Result<(), Memory>
    ensures { OnOk result (out.new.items ≡ out.old.items ++ to_be_bytes w32 number) }
{
    let mut bytes = [0; 4];
    BigEndian::write_u32(&mut bytes, number);
    out.extend_from_slice(&bytes)?;
    Ok(())
}

// Writes a Query message.
fn put_query(out: &mut Vec<u8>, text: &[u8]) -> Result<(), Memory>
    requires { length text.now ≤ most_text }
    ensures { OnOk result (out.new.items ≡ out.old.items ++ query_message text.now) }
{
    out.extend_from_slice(b"Q")?;
    put_length(out, text.len() as u32 + 5)?;
    out.extend_from_slice(text)?;
    out.extend_from_slice(b"\0")?;
    Ok(())
}

// The bytes of the client of a text.
fn bytes_of(alloc: Global, text: &[u8]) -> Result<Vec<u8>, Memory>
    requires { length text.now ≤ most_text }
    ensures { IfOk result (λ bytes. bytes.items ≡ setup_bytes text.now) }
{
    let mut bytes = Vec::new(alloc);
    bytes.extend_from_slice(STARTUP)?;
    put_query(&mut bytes, text)?;
    bytes.extend_from_slice(TERMINATE)?;
    Ok(bytes)
}

// A side without planned faults.
fn plan(alloc: Global) -> MemPlan
    ensures { 0 < result.piece }
{
    MemPlan {
        piece: u32::MAX,
        fails: Items::new(alloc),
        bytes: ROOM,
        reads: READS,
    }
}

/// The link on which the client of a text stands.
pub fn link_of(alloc: Global, text: &[u8]) -> Result<MemLink, Memory>
    requires { length text.now ≤ most_text }
    ensures { IfOk result (λ link. mem_sight link ≡ sight_of_client text.now) }
{
    let bytes = bytes_of(alloc, text)?;
    MemLink::new(alloc, bytes, plan(alloc), plan(alloc))
}
