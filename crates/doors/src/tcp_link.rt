// A link over a stream of a socket.
ghost use Rattle.std.specs.Prelude.{◌≡◌, ◌≤◌, vec_len, vec_capacity};
ghost use Rattle.link_traits.specs.Hosts.{silent};
ghost use Rattle.doors.specs.TcpDoors.{link_told};

use crate::counts::count_one;
use crate::link_faults::LinkFaults;
use crate::stop_sign::stop_request;
use crate::wire::Wire;
use link_traits::{Failed, Link, Sides, Sink, Source};
use std::marker::Model;

/// A link over a stream of a socket. It tells no bytes.
///
/// Bytes that are written are held back, so that all replies to one message leave at once: they are sent before the next read, when 16,384
/// of them are held, and when the link goes back to its door. A read fails where they can't be sent then, by the count of the reading side;
/// where they can't be sent as the link goes back, that isn't counted. Once its door's sign was raised, a peer that says nothing for two
/// seconds in all is cut off by a read that fails.
#[derive(Drop)]
pub struct TcpLink {
    wire: Wire,
    // The first bytes that were read, and how many there are.
    first: [u8; 16],
    first_len: usize,
    read_faults: u64,
    write_faults: u64,
}

impl Model for TcpLink {
    ghost use Rattle.std.specs.Prelude.{◌≤◌, vec_len, vec_capacity};
    ghost use Rattle.link_traits.specs.Traffic.{Sight};
    ghost use Rattle.link_traits.specs.Hosts.{no_bytes};

    ghost Value = { Sight };

    ghost view = { λ l. no_bytes l.read_faults l.write_faults };

    ghost invariant = { λ l. (l.first_len ≤ 16) × (vec_len l.wire.held ≤ 16384) × (16384 ≤ vec_capacity l.wire.held) };
}

impl TcpLink {
    // A link over the stream, with room for the bytes that it holds back.
    pub(crate) fn new(wire: Wire) -> TcpLink
        requires held { vec_len wire.held ≤ 16384 }
        requires capacity { 16384 ≤ vec_capacity wire.held }
        ensures { result ≡ silent }
    {
        TcpLink {
            wire,
            first: [0; 16],
            first_len: 0,
            read_faults: 0,
            write_faults: 0,
        }
    }

    // Whether its first bytes ask to stop.
    pub(crate) fn asks_to_stop(&self) -> bool {
        self.first_len == 16 && self.first == stop_request()
    }

    // Sends what it still holds, as well as it can, and answers what is kept of it.
    pub(crate) fn close(&mut self) -> LinkFaults
        ensures { link_told result ≡ self.old }
    {
        let _ = self.wire.send_held();
        LinkFaults {
            read_faults: self.read_faults,
            write_faults: self.write_faults,
        }
    }

    // Keeps the first bytes that were read.
    fn note(&mut self, bytes: &[u8])
        ensures { self.new ≡ self.old }
    {
        let n = bytes.len().min(16 - self.first_len);
        self.first[self.first_len..self.first_len + n].copy_from_slice(&bytes[..n]);
        self.first_len += n;
    }
}

impl Sides for TcpLink {
    ghost traffic = { λ l. l.traffic };

    ghost read_faults = { λ l. l.read_faults };

    ghost write_faults = { λ l. l.write_faults };
}

impl Source for TcpLink {
    fn read(&mut self, room: &mut [u8]) -> Result<usize, Failed> {
        match self.wire.receive(room) {
            Ok(n) => {
                self.note(&room[..n]);
                Ok(n)
            }
            Err(_) => {
                count_one(&mut self.read_faults);
                Err(Failed)
            }
        }
    }
}

impl Sink for TcpLink {
    fn write(&mut self, bytes: &[u8]) -> Result<usize, Failed> {
        if self.wire.make_room().is_err() {
            count_one(&mut self.write_faults);
            return Err(Failed);
        }
        Ok(self.wire.hold(bytes))
    }
}

impl Link for TcpLink {}
