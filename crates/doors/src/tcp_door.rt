// A door over a listening socket.
ghost use Rattle.std.specs.Prelude.{◌≡◌, IfOk, IfSome};
ghost use Rattle.link_traits.specs.Hosts.{silent};
ghost use Rattle.doors.specs.TcpDoors.{TcpDoorState, new_tcp_door, tcp_passage};

use crate::counts::count_one;
use crate::door::Door;
use crate::link_faults::LinkFaults;
use crate::returned::Returned;
use crate::stop_sign::StopSign;
use crate::tcp_link::TcpLink;
use crate::wire::{HELD, Wire};
use link_traits::HostFault;
use std::alloc::Global;
use std::io;
use std::marker::Model;
use std::net::{SocketAddr, TcpListener, TcpStream};
use std::sync::Arc;
use std::time::Duration;

/// How many milliseconds a read waits before it looks at the stop sign.
const PAUSE: u64 = 250;

/// How many seconds a write waits for a peer that doesn't read.
const WRITE_LIMIT: u64 = 30;

/// A door over a listening socket, which it shares with the other doors that were opened with it. It tells no link beforehand. Once a link
/// that went back to one of them had begun by the request to stop, none of them gives a further link.
#[derive(Drop)]
pub struct TcpDoor {
    alloc: Global,
    listener: TcpListener,
    sign: Arc<StopSign, Global>,
    returned: Returned<LinkFaults>,
    entered: u64,
    failures: u64,
}

impl Model for TcpDoor {
    ghost use Rattle.std.specs.Prelude.{◌≡◌, ◌+◌, length};
    ghost use Rattle.doors.specs.TcpDoors.{TcpDoorState};

    ghost Value = { TcpDoorState };

    ghost view = { λ d. record { returned = d.returned; entered = d.entered; failures = d.failures } };

    ghost invariant = { λ d. d.entered ≡ length d.returned.list + d.returned.out };
}

impl TcpDoor {
    /// A door over this listening socket, by which no link came in. Takes no memory.
    pub fn new(alloc: Global, listener: TcpListener, sign: Arc<StopSign, Global>) -> TcpDoor
        ensures { result ≡ new_tcp_door }
    {
        TcpDoor {
            alloc,
            listener,
            sign,
            returned: Returned::new(alloc),
            entered: 0,
            failures: 0,
        }
    }

    /// The address at which it listens.
    pub fn local_addr(&self) -> io::Result<SocketAddr> {
        self.listener.local_addr()
    }

    /// Stops this door and those that share its socket: none of them gives a further link.
    pub fn stop(&self) {
        self.sign.raise();
    }
}

// The next stream, with its options set.
fn next_stream(listener: &TcpListener) -> io::Result<TcpStream> {
    let (stream, _) = listener.accept()?;
    // A peer that is gone already may make these fail. The session then ends by its own first read or write.
    let _ = stream.set_nodelay(true);
    let _ = stream.set_read_timeout(Some(Duration::from_millis(PAUSE)));
    let _ = stream.set_write_timeout(Some(Duration::from_secs(WRITE_LIMIT)));
    Ok(stream)
}

// The next link, or none once the sign is raised. Its memory is taken before a stream is accepted, so that none is lost for lack of it.
fn next_link(
    alloc: Global,
    listener: &TcpListener,
    sign: &Arc<StopSign, Global>,
) -> Result<Option<TcpLink>, HostFault>
    ensures { IfOk result (λ given. IfSome given (λ link. link ≡ silent)) }
{
    let held = Vec::with_capacity(alloc, HELD)?;
    let mine = Arc::try_clone(sign)?;
    match next_stream(listener) {
        _ if sign.is_raised() => Ok(None),
        Ok(stream) => Ok(Some(TcpLink::new(Wire::new(stream, mine, held)))),
        Err(_) => Err(HostFault::Failed),
    }
}

impl Door for TcpDoor {
    type Link = TcpLink;

    ghost passage = { tcp_passage };

    fn accept(&mut self) -> Result<Option<TcpLink>, HostFault> {
        if self.sign.is_raised() {
            return Ok(None);
        }
        if self.entered == u64::MAX {
            count_one(&mut self.failures);
            return Err(HostFault::Failed);
        }
        self.returned.lend()?;
        match next_link(self.alloc, &self.listener, &self.sign) {
            Ok(Some(link)) => {
                self.entered += 1;
                Ok(Some(link))
            }
            Ok(None) => {
                self.returned.keep();
                Ok(None)
            }
            Err(HostFault::Failed) => {
                self.returned.keep();
                count_one(&mut self.failures);
                Err(HostFault::Failed)
            }
            Err(HostFault::Memory) => {
                self.returned.keep();
                Err(HostFault::Memory)
            }
        }
    }

    fn done(&mut self, link: TcpLink) {
        let mut link = link;
        self.returned.take_back(link.close());
        if link.asks_to_stop() {
            self.sign.raise();
        }
    }
}
