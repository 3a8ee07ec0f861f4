// A network in memory.
ghost use Rattle.std.specs.Prelude.{◌≡◌, ◌<◌, ◌≤◌, ◌↔◌, ◌⊎◌, ◌++◌, ◌∷◌, Some, None, length, map, take, drop, All, IfOk, IfSome, IsErr, IsErrOf, IsTrue, OnOk, OnErr, true};
ghost use Rattle.link_traits.specs.Memory.{FailsNext};
ghost use Rattle.doors.specs.Passage.{IsUnused};
ghost use Rattle.doors.specs.Network.{doors_opened, open_failed, stop_sent, stop_failed, doors_returned};
ghost use Rattle.doors.specs.MemDoors.{MemDoorState, mem_passage};
ghost use Rattle.doors.specs.MemNetworks.{MemNetworkState, mem_network, mem_networked, mem_network_asked, mem_doors_out, mem_doors_told, mem_doors_opened, mem_open_failed, mem_doors_returned, mem_stop_told, mem_stop_failed, DoorsFail};

use crate::counts::{count_one, is_planned};
use crate::mem_door::MemDoor;
use crate::mem_doors_call::MemDoorsCall;
use crate::network::Network;
use crate::returned::Returned;
use crate::stop_call::StopCall;
use cell_base::{Items, Memory, Text};
use link_traits::HostFault;
use std::alloc::Global;
use std::marker::Model;
use std::mem;

/// A network in memory. It tells its doors beforehand, and keeps a copy of each as it was handed out, since the door itself changes outside.
#[derive(Drop)]
pub struct MemNetwork {
    alloc: Global,
    doors: Vec<MemDoor>,
    fails: Vec<u64>,
    asked: u64,
    told: Vec<MemDoorsCall>,
    returned: Returned<Items<MemDoor>>,
    stops: Vec<StopCall>,
    failures: u64,
}

impl Model for MemNetwork {
    ghost use Rattle.std.specs.Prelude.{All};
    ghost use Rattle.doors.specs.Passage.{IsUnused};
    ghost use Rattle.doors.specs.MemDoors.{mem_passage};
    ghost use Rattle.doors.specs.MemNetworks.{MemNetworkState};

    ghost Value = { MemNetworkState };

    ghost view = { λ n. record {
      doors = n.doors.items;
      fails = n.fails.items;
      asked = n.asked;
      told = n.told.items;
      returned = n.returned;
      stops = n.stops.items;
      failures = n.failures;
    } };

    ghost invariant = { λ n. All (λ door. IsUnused (mem_passage door)) n.doors.items };
}

// Copies of the doors.
fn copy_doors(alloc: Global, doors: &[MemDoor]) -> Result<Items<MemDoor>, Memory>
    ensures { IfOk result (λ copies. copies ≡ doors.now) }
{
    let mut copies = Vec::with_capacity(alloc, doors.len())?;
    for door in doors {
        let copy = door.copy(alloc)?;
        copies.push(copy)?;
    }
    Ok(Items::from_vec(copies))
}

impl MemNetwork {
    /// A network that has these doors, by which no link came in yet. The calls of `doors` and `ask_to_stop` are numbered together, from 1, and
    /// those whose numbers stand in `fails` are to fail. Takes no memory.
    pub fn new(alloc: Global, doors: Vec<MemDoor>, fails: Vec<u64>) -> MemNetwork
        requires { All (λ door. IsUnused (mem_passage door)) doors.items }
        ensures { result ≡ mem_network doors.items fails.items }
    {
        MemNetwork {
            alloc,
            doors,
            fails,
            asked: 0,
            told: Vec::new(alloc),
            returned: Returned::new(alloc),
            stops: Vec::new(alloc),
            failures: 0,
        }
    }

    /// The doors that came back, those of each call by themselves, in order.
    pub fn back(&self) -> &[Items<MemDoor>]
        ensures { result.now ≡ self.now.returned.list }
    {
        self.returned.list()
    }

    /// The calls that asked a server to stop, in order.
    pub fn stops(&self) -> &[StopCall]
        ensures { result.now ≡ self.now.stops }
    {
        self.stops.as_slice()
    }

    // Counts a call. Answers whether it is to fail.
    fn begin(&mut self) -> bool
        ensures fails { IsTrue result ↔ FailsNext self.old.fails self.old.asked }
        ensures same { self.new ≡ mem_network_asked self.old }
    {
        count_one(&mut self.asked);
        is_planned(self.fails.as_slice(), self.asked)
    }

    // Counts a call for so many doors. Answers whether it fails.
    fn begin_doors(&mut self, number: usize) -> bool
        ensures fails { IsTrue result ↔ DoorsFail self.old number }
        ensures same { self.new ≡ mem_network_asked self.old }
    {
        self.begin() || self.doors.len() < number
    }

    // Hands the first so many doors out, with room for them to come back, and tells this call. Nothing changes where memory runs out.
    fn hand_out(&mut self, call: MemDoorsCall, number: usize) -> Result<Vec<MemDoor>, Memory>
        requires { number ≤ length self.old.doors }
        ensures doors { IfOk result (λ doors. doors.items ≡ take number self.old.doors) }
        ensures unused { IfOk result (λ doors. All (λ door. IsUnused (mem_passage door)) doors.items) }
        ensures ok { OnOk result (self.new ≡ mem_doors_told call (mem_doors_out number self.old)) }
        ensures err { OnErr result (self.new ≡ self.old) }
    {
        self.told.reserve(1)?;
        self.returned.lend()?;
        match self.doors.split_off(number) {
            Ok(rest) => {
                self.told.push_reserved(call);
                Ok(mem::replace(&mut self.doors, rest))
            }
            Err(_) => {
                self.returned.keep();
                Err(Memory)
            }
        }
    }

    // Hands the first so many doors out, and tells it. Nothing changes where memory runs out.
    fn open(&mut self, address: &Text, number: u32) -> Result<Vec<MemDoor>, Memory>
        requires { number ≤ length self.old.doors }
        ensures doors { IfOk result (λ doors. doors.items ≡ take number self.old.doors) }
        ensures unused { IfOk result (λ doors. All (λ door. IsUnused (mem_passage door)) doors.items) }
        ensures ok { OnOk result (self.new ≡ mem_doors_opened address.now number self.old) }
        ensures err { OnErr result (self.new ≡ self.old) }
    {
        let call = self.call_of(address, number)?;
        self.hand_out(call, number as usize)
    }

    // The call that hands the first so many doors out.
    fn call_of(&self, address: &Text, number: u32) -> Result<MemDoorsCall, Memory>
        requires { number ≤ length self.now.doors }
        ensures { IfOk result (λ call. call ≡ record { address = address.now; number = number; doors = Some (take number self.now.doors) }) }
    {
        let doors = copy_doors(self.alloc, &self.doors[..number as usize])?;
        Ok(MemDoorsCall {
            address: address.copy(self.alloc)?,
            number,
            doors: Some(doors),
        })
    }

    // Tells a call that failed, and counts it. Nothing changes where memory runs out.
    fn refuse(&mut self, address: &Text, number: u32) -> Result<(), Memory>
        ensures ok { OnOk result (self.new ≡ mem_open_failed address.now number self.old) }
        ensures err { OnErr result (self.new ≡ self.old) }
    {
        let address = address.copy(self.alloc)?;
        self.told.reserve(1)?;
        self.told.push_reserved(MemDoorsCall {
            address,
            number,
            doors: None,
        });
        count_one(&mut self.failures);
        Ok(())
    }

    // Tells a call that asked a server to stop. Nothing changes where memory runs out.
    fn tell_stop(&mut self, address: &Text, sent: bool) -> Result<(), Memory>
        ensures ok { OnOk result (self.new ≡ mem_stop_told address.now sent self.old) }
        ensures err { OnErr result (self.new ≡ self.old) }
    {
        let address = address.copy(self.alloc)?;
        self.stops.reserve(1)?;
        self.stops.push_reserved(StopCall { address, sent });
        Ok(())
    }
}

impl Network for MemNetwork {
    type Door = MemDoor;

    ghost networked = { mem_networked };

    /// Hands the first so many of its doors out. It fails only where this call is to fail or there are fewer doors, and hands none out
    /// there.
    fn doors(&mut self, address: &Text, number: u32) -> Result<Vec<MemDoor>, HostFault>
        ensures ok { IfOk result (λ doors. mem_networked self.new ≡ doors_opened address.now (map mem_passage doors.items) (mem_networked self.new).to_open (mem_networked self.old)) }
        ensures number { IfOk result (λ doors. length doors.items ≡ number) }
        ensures unused { IfOk result (λ doors. All (λ door. IsUnused (mem_passage door)) doors.items) }
        ensures told { IfOk result (λ doors. IfSome (mem_networked self.old).to_open (λ next. map mem_passage doors.items ≡ take number next)) }
        ensures failed { IsErrOf result HostFault.Failed → mem_networked self.new ≡ open_failed address.now number (mem_networked self.old) }
        ensures memory { IsErrOf result HostFault.Memory → mem_networked self.new ≡ mem_networked self.old }
        ensures doors { IfOk result (λ doors. doors.items ≡ take number self.old.doors) }
        ensures fails { IsErrOf result HostFault.Failed → DoorsFail self.old number }
        ensures refused { DoorsFail self.old number → IsErr result }
        ensures new_ok { OnOk result (self.new ≡ mem_doors_opened address.now number (mem_network_asked self.old)) }
        ensures new_failed { IsErrOf result HostFault.Failed → self.new ≡ mem_open_failed address.now number (mem_network_asked self.old) }
        ensures new_memory { IsErrOf result HostFault.Memory → self.new ≡ mem_network_asked self.old }
    {
        if self.begin_doors(number as usize) {
            self.refuse(address, number)?;
            return Err(HostFault::Failed);
        }
        let doors = self.open(address, number)?;
        Ok(doors)
    }

    /// Sends nothing. It fails only where this call is to fail.
    fn ask_to_stop(&mut self, address: &Text) -> Result<(), HostFault>
        ensures ok { OnOk result (mem_networked self.new ≡ stop_sent address.now (mem_networked self.old)) }
        ensures failed { IsErrOf result HostFault.Failed → mem_networked self.new ≡ stop_failed address.now (mem_networked self.old) }
        ensures memory { IsErrOf result HostFault.Memory → mem_networked self.new ≡ mem_networked self.old }
        ensures fails { IsErrOf result HostFault.Failed → FailsNext self.old.fails self.old.asked }
        ensures refused { FailsNext self.old.fails self.old.asked → IsErr result }
        ensures new_ok { OnOk result (self.new ≡ mem_stop_told address.now true (mem_network_asked self.old)) }
        ensures new_failed { IsErrOf result HostFault.Failed → self.new ≡ mem_stop_failed address.now (mem_network_asked self.old) }
        ensures new_memory { IsErrOf result HostFault.Memory → self.new ≡ mem_network_asked self.old }
    {
        if self.begin() {
            self.tell_stop(address, false)?;
            count_one(&mut self.failures);
            return Err(HostFault::Failed);
        }
        self.tell_stop(address, true)?;
        Ok(())
    }

    /// Takes the doors of a call back.
    fn doors_back(&mut self, doors: Vec<MemDoor>)
        requires { 0 < (mem_networked self.old).lent }
        ensures back { mem_networked self.new ≡ doors_returned (map mem_passage doors.items) (mem_networked self.old) }
        ensures new { self.new ≡ mem_doors_returned doors.items self.old }
    {
        self.returned.take_back(Items::from_vec(doors));
    }
}
