// The sign that a server is to stop.
ghost use Rattle.std.specs.Prelude.{◌≡◌};
ghost use Rattle.doors.specs.TcpDoors.{stop_bytes};

use std::io;
use std::io::Write;
use std::net::{Net, Shutdown, TcpListener, TcpStream};
use std::os::fd::OwnedFd;
use std::sync::atomic::{AtomicBool, Ordering};

// A cancel request (its length, 16, and its code, 80877102) with the process id and the secret key of no session: both are 1398034256, and
// the secret key that sessions are told is 0.
const STOP_REQUEST: [u8; 16] = [0, 0, 0, 16, 4, 210, 22, 46, 83, 84, 79, 80, 83, 84, 79, 80];

/// The bytes that ask a server to stop: a cancel request with two fixed numbers. Whoever can reach the server's port can send it.
pub fn stop_request() -> [u8; 16]
    ensures { result ≡ stop_bytes }
{
    STOP_REQUEST
}

// Connects to the server at an address and asks it to stop.
pub(crate) fn send_stop_request<R>(rt: &R, address: &str) -> io::Result<()>
where
    R: Net<Stream = TcpStream>,
{
    let mut stream = TcpStream::connect(rt, address)?;
    stream.write_all(&stop_request())
}

/// What all doors and links of one listening socket look at: whether the request to stop has come.
#[derive(Drop)]
pub struct StopSign {
    raised: AtomicBool,
    // A second handle of the listening socket, as a stream, since only a stream has `shutdown`.
    socket: TcpStream,
}

impl StopSign {
    /// A sign for the doors of this socket, which isn't raised.
    pub fn new(listener: &TcpListener) -> io::Result<StopSign> {
        let socket = TcpStream::from(OwnedFd::from(listener.try_clone()?));
        Ok(StopSign {
            raised: AtomicBool::new(false),
            socket,
        })
    }

    /// Raises it for good. Whoever waits in `accept` at the socket is then answered an error at once.
    pub fn raise(&self) {
        if !self.raised.swap(true, Ordering::SeqCst) {
            let _ = self.socket.shutdown(Shutdown::Both);
        }
    }

    /// Whether it was raised.
    pub fn is_raised(&self) -> bool {
        self.raised.load(Ordering::SeqCst)
    }
}
