// The bytes of a simulated client.
ghost use Rattle.std.specs.Prelude.{◌≡◌, ◌≤◌, ◌+◌, ◌++◌, length, OnOk};
ghost use Rattle.std.specs.Int.{w32, to_be_bytes};
ghost use Rattle.sim_clients.specs.Queries.{text_of};
ghost use Rattle.setup_client.specs.Client.{query_message, terminate};
ghost use Rattle.sim_clients.specs.Streams.{startup, create_table};

use crate::query::{Query, put, put_query};
use byteorder::{BigEndian, ByteOrder};
use cell_base::Memory;
use std::alloc::Global;

// The startup message: its length, version 3.0, the user, and the end of the parameters.
const STARTUP: &[u8] = b"\x00\x00\x00\x12\x00\x03\x00\x00user\x00sim\x00\x00";

const TERMINATE: &[u8] = b"X\x00\x00\x00\x04";

const CREATE_TABLE: &[u8] = b"CREATE TABLE t (k bigint PRIMARY KEY, v bigint)";

// Writes a number of four bytes, the highest first.
fn put_length(out: &mut Vec<u8>, number: u32) -> Result<(), Memory>
    ensures { OnOk result (out.new.items ≡ out.old.items ++ to_be_bytes w32 number) }
{
    let mut bytes = [0; 4];
    BigEndian::write_u32(&mut bytes, number);
    put(out, &bytes)
}

// Writes a Query message.
fn put_message(out: &mut Vec<u8>, text: &[u8]) -> Result<(), Memory>
    requires { length text.now ≤ 60 }
    ensures bytes { OnOk result (out.new.items ≡ out.old.items ++ query_message text.now) }
    ensures few { OnOk result (length out.new.items ≤ length out.old.items + 66) }
{
    put(out, b"Q")?;
    put_length(out, text.len() as u32 + 5)?;
    put(out, text)?;
    put(out, b"\0")
}

/// Writes the startup message.
pub fn put_startup(out: &mut Vec<u8>) -> Result<(), Memory>
    ensures { OnOk result (out.new.items ≡ out.old.items ++ startup) }
{
    put(out, STARTUP)
}

/// Writes the Terminate message.
pub fn put_terminate(out: &mut Vec<u8>) -> Result<(), Memory>
    ensures { OnOk result (out.new.items ≡ out.old.items ++ terminate) }
{
    put(out, TERMINATE)
}

/// Writes the query that makes the table.
pub fn put_create_table(out: &mut Vec<u8>) -> Result<(), Memory>
    ensures { OnOk result (out.new.items ≡ out.old.items ++ query_message create_table) }
{
    put_message(out, CREATE_TABLE)
}

/// Writes the message of a query.
pub fn put_query_message(alloc: Global, out: &mut Vec<u8>, query: Query) -> Result<(), Memory>
    ensures bytes { OnOk result (out.new.items ≡ out.old.items ++ query_message (text_of query)) }
    ensures few { OnOk result (length out.new.items ≤ length out.old.items + 66) }
{
    let mut text = Vec::new(alloc);
    put_query(&mut text, query)?;
    put_message(out, &text)
}
