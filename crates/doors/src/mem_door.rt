// A door in memory.
ghost use Rattle.std.specs.Prelude.{◌≡◌, ◌<◌, ◌≤◌, ◌+◌, ◌↔◌, ◌∷◌, ◌++◌, [], Some, None, length, map, IfOk, IfSome, IsErr, IsErrOf, IsTrue, MatchOption, OnOk, vec_capacity};
ghost use Rattle.link_traits.specs.Memory.{FailsNext, mem_sight};
ghost use Rattle.doors.specs.Passage.{CameIn, given_back, accept_failed};
ghost use Rattle.doors.specs.MemDoors.{MemDoorState, mem_door, mem_passage, mem_door_asked, mem_door_entered, mem_door_failed, mem_door_returned};

use crate::counts::{count_one, is_planned};
use crate::door::Door;
use cell_base::Memory;
use link_traits::{HostFault, MemLink};
use std::alloc::Global;
use std::collections::VecDeque;
use std::marker::Model;

/// A door in memory. It tells its links beforehand, and has room for each of them to come back.
#[derive(Debug, Drop)]
pub struct MemDoor {
    links: VecDeque<MemLink>,
    returned: Vec<MemLink>,
    entered: usize,
    fails: Vec<u64>,
    asked: u64,
    failures: u64,
}

impl Model for MemDoor {
    ghost use Rattle.std.specs.Prelude.{◌+◌, ◌≤◌, vec_capacity};
    ghost use Rattle.std.specs.VecDeque.{deque_len};
    ghost use Rattle.doors.specs.MemDoors.{MemDoorState};

    ghost Value = { MemDoorState };

    ghost view = { λ d. record {
      links = d.links.items;
      returned = d.returned.items;
      entered = d.entered;
      fails = d.fails.items;
      asked = d.asked;
      failures = d.failures;
    } };

    ghost invariant = { λ d. d.entered + deque_len d.links ≤ vec_capacity d.returned };
}

// Puts copies of these links after the others.
fn add_copies(alloc: Global, copies: &mut Vec<MemLink>, links: &[MemLink]) -> Result<(), Memory>
    ensures items { OnOk result (copies.new.items ≡ copies.old.items ++ links.now) }
    ensures room { vec_capacity copies.old ≤ vec_capacity copies.new }
{
    for link in links {
        let copy = link.copy(alloc)?;
        copies.push(copy)?;
    }
    Ok(())
}

impl MemDoor {
    /// A door of these links, which come in one after another. The calls of `accept` whose numbers, from 1, stand in `fails` are to fail.
    pub fn new(alloc: Global, links: Vec<MemLink>, fails: Vec<u64>) -> Result<MemDoor, Memory>
        ensures { IfOk result (λ door. door ≡ mem_door links.items fails.items) }
    {
        Ok(MemDoor {
            returned: Vec::with_capacity(alloc, links.len())?,
            links: VecDeque::from(links),
            entered: 0,
            fails,
            asked: 0,
            failures: 0,
        })
    }

    /// The links that were given back, in order.
    pub fn back(&self) -> &[MemLink]
        ensures { result.now ≡ self.now.returned }
    {
        self.returned.as_slice()
    }

    // Copies of the links that are still to come.
    fn copy_links(&self, alloc: Global) -> Result<VecDeque<MemLink>, Memory>
        ensures items { IfOk result (λ links. links.items ≡ self.now.links) }
    {
        let (front, rest) = self.links.as_slices();
        let mut copies = Vec::with_capacity(alloc, self.links.len())?;
        add_copies(alloc, &mut copies, front)?;
        add_copies(alloc, &mut copies, rest)?;
        Ok(VecDeque::from(copies))
    }

    // Copies of the links that were given back, with the room of their list.
    fn copy_returned(&self, alloc: Global) -> Result<Vec<MemLink>, Memory>
        ensures items { IfOk result (λ links. links.items ≡ self.now.returned) }
        ensures room { IfOk result (λ links. self.now.entered + length self.now.links ≤ vec_capacity links) }
    {
        let mut copies = Vec::with_capacity(alloc, self.returned.capacity())?;
        add_copies(alloc, &mut copies, self.returned.as_slice())?;
        Ok(copies)
    }

    /// The same door once more.
    pub fn copy(&self, alloc: Global) -> Result<MemDoor, Memory>
        ensures { IfOk result (λ door. door ≡ self.now) }
    {
        let links = self.copy_links(alloc)?;
        let returned = self.copy_returned(alloc)?;
        Ok(MemDoor {
            links,
            returned,
            entered: self.entered,
            fails: Vec::from_slice(alloc, self.fails.as_slice())?,
            asked: self.asked,
            failures: self.failures,
        })
    }

    // Counts a call. Answers whether it is to fail.
    fn begin(&mut self) -> bool
        ensures fails { IsTrue result ↔ FailsNext self.old.fails self.old.asked }
        ensures same { self.new ≡ mem_door_asked self.old }
    {
        count_one(&mut self.asked);
        is_planned(self.fails.as_slice(), self.asked)
    }
}

impl Door for MemDoor {
    type Link = MemLink;

    ghost passage = { mem_passage };

    /// Gives the next link. It fails exactly where this call is to fail, and answers none exactly where no link is left. Takes no memory.
    fn accept(&mut self) -> Result<Option<MemLink>, HostFault>
        ensures came { IfOk result (λ given. IfSome given (λ link. CameIn (mem_sight link) (mem_passage self.old) (mem_passage self.new))) }
        ensures none { IfOk result (λ given. given ≡ None → mem_passage self.new ≡ mem_passage self.old) }
        ensures none_left { IfOk result (λ given. given ≡ None → IfSome (mem_passage self.old).to_come (λ links. links ≡ [])) }
        ensures failed { IsErrOf result HostFault.Failed → mem_passage self.new ≡ accept_failed (mem_passage self.old) }
        ensures memory { IsErrOf result HostFault.Memory → mem_passage self.new ≡ mem_passage self.old }
        ensures fails { IsErr result ↔ FailsNext self.old.fails self.old.asked }
        ensures fault { IsErr result → IsErrOf result HostFault.Failed }
        ensures first { IfOk result (λ given. MatchOption given (self.old.links ≡ []) (λ link. self.old.links ≡ link ∷ self.new.links)) }
        ensures new_some { IfOk result (λ given. IfSome given (λ _. self.new ≡ mem_door_entered self.new.links self.old)) }
        ensures new_none { IfOk result (λ given. given ≡ None → self.new ≡ mem_door_asked self.old) }
        ensures new_failed { IsErr result → self.new ≡ mem_door_failed self.old }
    {
        if self.begin() {
            count_one(&mut self.failures);
            return Err(HostFault::Failed);
        }
        match self.links.pop_front() {
            Some(link) => {
                self.entered += 1;
                Ok(Some(link))
            }
            None => Ok(None),
        }
    }

    /// Takes a link back.
    fn done(&mut self, link: MemLink)
        requires { length (mem_passage self.old).back < (mem_passage self.old).accepted }
        ensures back { mem_passage self.new ≡ given_back (mem_sight link) (mem_passage self.old) }
        ensures new { self.new ≡ mem_door_returned link self.old }
    {
        self.returned.push_reserved(link);
    }
}
