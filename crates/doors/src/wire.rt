// A stream of a socket, and what is held back before it is sent.
ghost use Rattle.std.specs.Prelude.{◌≡◌, ◌<◌, ◌≤◌, length, IfOk, OnOk, vec_len, vec_capacity};

use crate::stop_sign::StopSign;
use std::alloc::Global;
use std::io;
use std::io::{ErrorKind, Read, Write};
use std::net::TcpStream;
use std::sync::Arc;

/// How often a call that a signal cut short is tried again.
const RETRIES: u32 = 64;

/// How many pauses an idle peer has once the stop sign was raised, in all reads together.
const GRACE: u32 = 8;

/// How many bytes are held back before they are sent.
pub(crate) const HELD: usize = 16_384;

// A stream, what was written to it and isn't sent yet, and the pauses of its peer since the sign was raised.
#[derive(Drop)]
pub(crate) struct Wire {
    stream: TcpStream,
    sign: Arc<StopSign, Global>,
    pub(crate) held: Vec<u8>,
    pauses: u32,
}

impl Wire {
    // A stream of which nothing is held back, with room for what will be.
    pub(crate) fn new(stream: TcpStream, sign: Arc<StopSign, Global>, held: Vec<u8>) -> Wire
        ensures { result.held ≡ held }
    {
        Wire {
            stream,
            sign,
            held,
            pauses: 0,
        }
    }

    // Sends what is held. Where that fails it is let go, since a part of it may have been sent.
    pub(crate) fn send_held(&mut self) -> io::Result<()>
        ensures none { vec_len self.new.held ≡ 0 }
        ensures capacity { vec_capacity self.new.held ≡ vec_capacity self.old.held }
    {
        let sent = send_patiently(&mut self.stream, self.held.as_slice());
        self.held.clear();
        sent
    }

    // Sends what is held, and then reads.
    pub(crate) fn receive(&mut self, room: &mut [u8]) -> io::Result<usize>
        ensures within { IfOk result (λ n. n ≤ length room.new) }
        ensures none { vec_len self.new.held ≡ 0 }
        ensures capacity { vec_capacity self.new.held ≡ vec_capacity self.old.held }
    {
        self.send_held()?;
        read_patiently(&mut self.stream, &self.sign, &mut self.pauses, room)
    }

    // Sends what is held where no further byte can be.
    pub(crate) fn make_room(&mut self) -> io::Result<()>
        requires { vec_len self.old.held ≤ 16384 }
        ensures room { OnOk result (vec_len self.new.held < 16384) }
        ensures within { vec_len self.new.held ≤ 16384 }
        ensures capacity { vec_capacity self.new.held ≡ vec_capacity self.old.held }
    {
        if self.held.len() < HELD {
            return Ok(());
        }
        self.send_held()
    }

    // Holds as many of the bytes back as there is room for, and says how many.
    pub(crate) fn hold(&mut self, bytes: &[u8]) -> usize
        requires some { 0 < length bytes.now }
        requires room { vec_len self.old.held < 16384 }
        requires capacity { 16384 ≤ vec_capacity self.old.held }
        ensures some { 0 < result }
        ensures within { result ≤ length bytes.now }
        ensures held { vec_len self.new.held ≤ 16384 }
        ensures capacity { vec_capacity self.old.held ≤ vec_capacity self.new.held }
    {
        let n = bytes.len().min(HELD - self.held.len());
        match self.held.extend_from_slice(&bytes[..n]) {
            Ok(()) => n,
            Err(_) => unreachable!(),
        }
    }
}

// Reads, over pauses and signals. Once the sign is raised, a peer that says nothing for too long is cut off.
fn read_patiently(
    stream: &mut TcpStream,
    sign: &StopSign,
    pauses: &mut u32,
    room: &mut [u8],
) -> io::Result<usize>
    ensures { IfOk result (λ n. n ≤ length room.new) }
{
    let mut retries = 0u32;
    for _ in 0..u64::MAX {
        match stream.read(room) {
            Ok(n) => return Ok(n),
            Err(e) => match e.kind() {
                ErrorKind::Interrupted if retries < RETRIES => retries += 1,
                ErrorKind::WouldBlock if !sign.is_raised() => {}
                ErrorKind::WouldBlock if *pauses < GRACE => *pauses += 1,
                _ => return Err(e),
            },
        }
    }
    Err(io::Error::from(ErrorKind::TimedOut))
}

// Sends all bytes, over signals.
fn send_patiently(stream: &mut TcpStream, bytes: &[u8]) -> io::Result<()> {
    let mut sent = 0;
    let mut retries = 0u32;
    while sent < bytes.len() {
        match stream.write(&bytes[sent..]) {
            Ok(0) => return Err(io::Error::from(ErrorKind::WriteZero)),
            Ok(n) => sent += n,
            Err(e) => match e.kind() {
                ErrorKind::Interrupted if retries < RETRIES => retries += 1,
                _ => return Err(e),
            },
        }
    }
    Ok(())
}
