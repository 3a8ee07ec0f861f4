// Two clients over the loopback, whose sessions overlap: the first one stays open until the second one has been served.
//
// A server that takes a link only when it has served the one before never serves the second client while the first one looks for it.
use crate::loopback::{connect, ends_well, free_address, is_sent};
use session_text::{reply_bytes, request_bytes};
use std::alloc::Global;
use std::hint::spin_loop;
use std::io;
use std::io::{Read, Write};
use std::net::{Net, SocketAddr, TcpListener, TcpStream};
use std::sync::atomic::{AtomicBool, Ordering};
use std::test::Fail;
use std::thread::join;

// What the first client sends before it looks for the second one, and what it sends after.
const FIRST: &str = r"
> StartupMessage user=a
+ started
";

const LAST: &str = r"
> Terminate
";

const SECOND: &str = r"
> StartupMessage user=a
+ started as session 2
+ table t
> Terminate
";

// Two Opens, Define, and two Closes.
const LINE: &[u8] = b"served 2 sessions 0 transactions 5 events\n";

// How often a client looks for the other one.
const LOOKS: u32 = 300_000_000;

// Looks at the flag until it is up. Answers whether it was seen.
fn is_up(flag: &AtomicBool) -> bool {
    for _ in 0..LOOKS {
        if flag.load(Ordering::SeqCst) {
            return true;
        }
        spin_loop();
    }
    false
}

// Whether the next bytes of the stream are these.
fn goes_on_with(stream: &mut TcpStream, expected: &[u8]) -> io::Result<bool> {
    let mut byte = [0];
    for next in expected {
        stream.read_exact(&mut byte)?;
        if byte != [*next] {
            return Ok(false);
        }
    }
    Ok(true)
}

// The first client's way on its stream: it starts its session, says so, looks for the second one, and ends. Answers whether it was seen.
fn stays_open(
    alloc: Global,
    stream: &mut TcpStream,
    started: &AtomicBool,
    served: &AtomicBool,
) -> io::Result<bool> {
    let (Ok(first), Ok(reply), Ok(last)) = (
        request_bytes(alloc, FIRST),
        reply_bytes(alloc, FIRST),
        request_bytes(alloc, LAST),
    ) else {
        return Ok(false);
    };
    stream.write_all(&first)?;
    let is_started = goes_on_with(stream, &reply)?;
    started.store(true, Ordering::SeqCst);
    let is_seen = is_up(served);
    stream.write_all(&last)?;
    Ok(is_started && is_seen)
}

// The second client, which comes when the first one has its session. Answers whether it was sent what it has to be.
fn comes_second<R: Net<Listener = TcpListener, Stream = TcpStream>>(
    rt: &R,
    alloc: Global,
    address: SocketAddr,
    started: &AtomicBool,
) -> bool {
    let (Ok(client), Ok(expected)) = (request_bytes(alloc, SECOND), reply_bytes(alloc, SECOND))
    else {
        return false;
    };
    is_up(started) && is_sent(rt, alloc, address, &client, &expected)
}

#[test]
fn serves_a_client_while_another_one_stays(rt: HostRuntime) -> Result<(), Fail> {
    let alloc = rt.alloc();
    let address = free_address(&rt)?;
    let command = format!(in alloc;
        "serve/--quiet/--level/cc/--seed/7/--listen/{address}/--workers/2/--accept/1"
    )?;
    let command = command.as_bytes();
    let (started, served) = (AtomicBool::new(false), AtomicBool::new(false));
    let (ends, (stays, comes)) = join(
        &rt,
        || ends_well(&rt, alloc, command, LINE),
        || {
            join(
                &rt,
                || match connect(&rt, address) {
                    Some(mut stream) => stays_open(alloc, &mut stream, &started, &served),
                    None => Ok(false),
                },
                || {
                    let comes = comes_second(&rt, alloc, address, &started);
                    served.store(true, Ordering::SeqCst);
                    comes
                },
            )
        },
    );
    assert!(rt; ends?);
    assert!(rt; stays?);
    assert!(rt; comes);
    Ok(())
}
