// A client in a thread of its own, and a server over a socket of the loopback.
use crate::hosts::{run_at, with_file};
use cell_base::Memory;
use doors::TcpNetwork;
use session_text::{reply_bytes, request_bytes};
use std::alloc::Global;
use std::io;
use std::io::{Read, Write};
use std::net::{Net, SocketAddr, TcpListener, TcpStream};
use std::sync::Wait;
use std::test::Fail;
use std::thread::{Threads, join};

// A client makes a table, puts a row in, and reads it. At Causal Consistency it finds its row, whatever the words are.
const SESSION: &str = r"
> StartupMessage user=a
+ started
+ table t
> Query INSERT INTO t VALUES (1, 10)
< CommandComplete INSERT 0 1
< ReadyForQuery I
> Query SELECT v FROM t WHERE k = 1
< RowDescription v bigint
< DataRow 10
< CommandComplete SELECT 1
< ReadyForQuery I
> Terminate
";

// Open and Define; Look, Begin, Read, two Writes and Commit; Look, Begin, two Reads and Commit; Close.
const LINE: &[u8] = b"served 1 sessions 2 transactions 14 events\n";

// How often the client tries to connect, until the server listens.
const TRIES: u32 = 1_000_000;

// An address of the loopback at which nobody listens.
pub(crate) fn free_address<R: Net<Listener = TcpListener, Stream = TcpStream>>(
    rt: &R,
) -> io::Result<SocketAddr> {
    TcpListener::bind(rt, "127.0.0.1:0")?.local_addr()
}

// Connects, once the server listens.
pub(crate) fn connect<R: Net<Listener = TcpListener, Stream = TcpStream>>(
    rt: &R,
    address: SocketAddr,
) -> Option<TcpStream> {
    for _ in 0..TRIES {
        if let Ok(stream) = TcpStream::connect(rt, address) {
            return Some(stream);
        }
    }
    None
}

// What a client of these bytes is sent.
fn ask<R: Net<Listener = TcpListener, Stream = TcpStream>>(
    rt: &R,
    alloc: Global,
    address: SocketAddr,
    client: &[u8],
) -> io::Result<Vec<u8>> {
    let mut sent = Vec::new(alloc);
    if let Some(mut stream) = connect(rt, address) {
        stream.write_all(client)?;
        stream.read_to_end(&mut sent)?;
    }
    Ok(sent)
}

// Whether a client of these bytes is sent the others.
pub(crate) fn is_sent<R: Net<Listener = TcpListener, Stream = TcpStream>>(
    rt: &R,
    alloc: Global,
    address: SocketAddr,
    client: &[u8],
    expected: &[u8],
) -> bool {
    match ask(rt, alloc, address, client) {
        Ok(sent) => sent.as_slice() == expected,
        Err(_) => false,
    }
}

// Whether the session's client is sent what it has to be.
fn asks<R: Net<Listener = TcpListener, Stream = TcpStream>>(
    rt: &R,
    alloc: Global,
    address: SocketAddr,
) -> bool {
    let Ok(client) = request_bytes(alloc, SESSION) else {
        return false;
    };
    let Ok(expected) = reply_bytes(alloc, SESSION) else {
        return false;
    };
    is_sent(rt, alloc, address, &client, &expected)
}

// Whether a server of this command ends well, and prints this line.
pub(crate) fn ends_well<R>(
    rt: &R,
    alloc: Global,
    command: &[u8],
    line: &[u8],
) -> Result<bool, Memory>
where
    R: Net<Listener = TcpListener, Stream = TcpStream> + Threads + Wait + Eprint + Sync,
{
    let mut network = TcpNetwork::new(rt, alloc);
    let done = run_at(rt, alloc, &mut network, command, &with_file("", ""))?;
    Ok(done.code == 0 && done.printed.as_slice() == line)
}

#[test]
fn serves_a_client_over_the_loopback(rt: HostRuntime) -> Result<(), Fail> {
    let alloc = rt.alloc();
    let address = free_address(&rt)?;
    let command = format!(in alloc;
        "serve/--quiet/--level/cc/--seed/7/--listen/{address}/--workers/1/--accept/1"
    )?;
    let command = command.as_bytes();
    let (ends, asks) = join(
        &rt,
        || ends_well(&rt, alloc, command, LINE),
        || asks(&rt, alloc, address),
    );
    assert!(rt; ends?);
    assert!(rt; asks);
    Ok(())
}
