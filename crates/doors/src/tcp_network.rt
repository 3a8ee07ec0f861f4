// A network over sockets.
ghost use Rattle.std.specs.Prelude.{◌≡◌, ◌<◌, [], IfOk, IsErrOf, OnOk, map, replicate, true};
ghost use Rattle.doors.specs.Network.{doors_returned};
ghost use Rattle.doors.specs.TcpDoors.{TcpDoorState, TcpNetworkState, new_tcp_door, tcp_passage, tcp_networked, tcp_doors_opened, tcp_open_failed, tcp_stop_told, tcp_stop_failed};

use crate::counts::count_one;
use crate::network::Network;
use crate::returned::Returned;
use crate::stop_call::StopCall;
use crate::stop_sign::{StopSign, send_stop_request};
use crate::tcp_call::{Opening, TcpDoorsCall};
use crate::tcp_door::TcpDoor;
use cell_base::{Items, Text};
use link_traits::{HostFault, words_of};
use std::alloc::Global;
use std::io;
use std::marker::Model;
use std::net::{Net, TcpListener, TcpStream};
use std::sync::Arc;

/// The network of the real program: doors over sockets of the system. It tells no doors beforehand.
#[derive(Drop)]
pub struct TcpNetwork<R: Net<Listener = TcpListener, Stream = TcpStream> + Eprint + Copy> {
    rt: R,
    alloc: Global,
    told: Vec<TcpDoorsCall>,
    returned: Returned<Items<TcpDoor>>,
    stops: Vec<StopCall>,
    failures: u64,
}

impl<R: Net<Listener = TcpListener, Stream = TcpStream> + Eprint + Copy> Model for TcpNetwork<R> {
    ghost use Rattle.doors.specs.TcpDoors.{TcpNetworkState};

    ghost Value = { TcpNetworkState };

    ghost view = { λ n. record {
      told = n.told.items;
      returned = n.returned;
      stops = n.stops.items;
      failures = n.failures;
    } };
}

// Tells in one line that the command which asks this of the network met a fault at the address, in the system's words.
fn tell<E: Eprint>(rt: &E, alloc: Global, command: &str, address: &Text, fault: &io::Error) {
    let address = address.as_str();
    let _ = match words_of(alloc, fault) {
        Ok(words) => eprintln!(rt; "{command}: {address}: {}", words.as_str()),
        Err(_) => eprintln!(rt; "{command}: {address}: {fault}"),
    };
}

// So many doors over one listening socket at this address.
fn open_doors<R>(rt: &R, alloc: Global, address: &str, number: usize) -> io::Result<Vec<TcpDoor>>
where
    R: Net<Listener = TcpListener, Stream = TcpStream>,
    ensures { IfOk result (λ doors. doors.items ≡ replicate number new_tcp_door) }
{
    let listener = TcpListener::bind(rt, address)?;
    share_doors(alloc, &listener, number)
}

// So many doors over this listening socket.
fn share_doors(alloc: Global, listener: &TcpListener, number: usize) -> io::Result<Vec<TcpDoor>>
    ensures { IfOk result (λ doors. doors.items ≡ replicate number new_tcp_door) }
{
    let sign = Arc::new(alloc, StopSign::new(listener)?)?;
    let mut doors = Vec::with_capacity(alloc, number)?;
    for _ in 0..number {
        let door = one_door(alloc, listener, &sign)?;
        doors.push(door)?;
    }
    Ok(doors)
}

// A door over this listening socket, with a handle of its own.
fn one_door(
    alloc: Global,
    listener: &TcpListener,
    sign: &Arc<StopSign, Global>,
) -> io::Result<TcpDoor>
    ensures { IfOk result (λ door. door ≡ new_tcp_door) }
{
    let mine = listener.try_clone()?;
    Ok(TcpDoor::new(alloc, mine, Arc::try_clone(sign)?))
}

impl<R: Net<Listener = TcpListener, Stream = TcpStream> + Eprint + Copy> TcpNetwork<R> {
    /// The network of this system, of which nobody asked anything. Takes no memory.
    pub fn new(rt: R, alloc: Global) -> Self
        ensures { result ≡ record { told = []; returned = record { list = []; out = 0 }; stops = []; failures = 0 } }
    {
        TcpNetwork {
            rt,
            alloc,
            told: Vec::new(alloc),
            returned: Returned::new(alloc),
            stops: Vec::new(alloc),
            failures: 0,
        }
    }

    // Opens doors, and tells the call. Nothing changes where memory runs out.
    fn open(&mut self, address: &Text, number: u32) -> Result<Vec<TcpDoor>, HostFault>
        ensures doors { IfOk result (λ doors. doors.items ≡ replicate number new_tcp_door) }
        ensures ok { OnOk result (self.new ≡ tcp_doors_opened address.now number self.old) }
        ensures failed { IsErrOf result HostFault.Failed → self.new ≡ tcp_open_failed address.now number self.old }
        ensures memory { IsErrOf result HostFault.Memory → self.new ≡ self.old }
    {
        let told = address.copy(self.alloc)?;
        self.told.reserve(1)?;
        self.returned.lend()?;
        match open_doors(&self.rt, self.alloc, address.as_str(), number as usize) {
            Ok(doors) => {
                self.told.push_reserved(TcpDoorsCall {
                    address: told,
                    number,
                    opening: Opening::Opened,
                });
                Ok(doors)
            }
            Err(fault) if fault.kind() == io::ErrorKind::OutOfMemory => {
                self.returned.keep();
                Err(HostFault::Memory)
            }
            Err(fault) => {
                tell(&self.rt, self.alloc, "serve", address, &fault);
                self.returned.keep();
                self.told.push_reserved(TcpDoorsCall {
                    address: told,
                    number,
                    opening: Opening::Failed,
                });
                count_one(&mut self.failures);
                Err(HostFault::Failed)
            }
        }
    }

    // Sends the request to stop, and tells the call. Nothing changes where memory runs out.
    fn send_stop(&mut self, address: &Text) -> Result<(), HostFault>
        ensures ok { OnOk result (self.new ≡ tcp_stop_told address.now true self.old) }
        ensures failed { IsErrOf result HostFault.Failed → self.new ≡ tcp_stop_failed address.now self.old }
        ensures memory { IsErrOf result HostFault.Memory → self.new ≡ self.old }
    {
        let told = address.copy(self.alloc)?;
        self.stops.reserve(1)?;
        match send_stop_request(&self.rt, address.as_str()) {
            Ok(()) => {
                self.stops.push_reserved(StopCall {
                    address: told,
                    sent: true,
                });
                Ok(())
            }
            Err(fault) if fault.kind() == io::ErrorKind::OutOfMemory => Err(HostFault::Memory),
            Err(fault) => {
                tell(&self.rt, self.alloc, "stop", address, &fault);
                self.stops.push_reserved(StopCall {
                    address: told,
                    sent: false,
                });
                count_one(&mut self.failures);
                Err(HostFault::Failed)
            }
        }
    }
}

impl<R: Net<Listener = TcpListener, Stream = TcpStream> + Eprint + Copy> Network for TcpNetwork<R> {
    type Door = TcpDoor;

    ghost networked = { tcp_networked };

    /// Opens doors over one socket that listens at the address. Where the system refuses, one line on standard error gives its reason.
    fn doors(&mut self, address: &Text, number: u32) -> Result<Vec<TcpDoor>, HostFault> {
        let doors = self.open(address, number)?;
        Ok(doors)
    }

    /// Connects to the address and sends the request. Where the system refuses, one line on standard error gives its reason.
    fn ask_to_stop(&mut self, address: &Text) -> Result<(), HostFault> {
        self.send_stop(address)
    }

    /// Takes the doors of a call back, and stops them, so that nobody waits at their socket.
    fn doors_back(&mut self, doors: Vec<TcpDoor>)
        requires { 0 < (tcp_networked self.old).lent }
        ensures { tcp_networked self.new ≡ doors_returned (map tcp_passage doors.items) (tcp_networked self.old) }
    {
        for door in doors.iter() {
            door.stop();
        }
        self.returned.take_back(Items::from_vec(doors));
    }
}
