// Doors and a network in memory.
ghost use Rattle.std.specs.Prelude.{◌<◌, All, IfOk};
ghost use Rattle.doors.specs.Passage.{IsUnused};
ghost use Rattle.doors.specs.MemDoors.{mem_passage};

use crate::echo::{refuses, serve_next};
use cell_base::{Items, Memory, Text};
use doors::{Door, MemDoor, MemNetwork, Network};
use link_traits::{HostFault, MemLink, MemPlan};
use std::alloc::Global;
use std::test::Fail;

// A plan without a fault, with room for 100 bytes and 100 reads.
fn plan(alloc: Global) -> MemPlan
    ensures { 0 < result.piece }
{
    MemPlan {
        piece: 64,
        fails: Items::new(alloc),
        bytes: 100,
        reads: 100,
    }
}

// A link with these bytes to be read.
fn link(alloc: Global, bytes: &[u8]) -> Result<MemLink, Memory> {
    let bytes = Vec::from_slice(alloc, bytes)?;
    MemLink::new(alloc, bytes, plan(alloc), plan(alloc))
}

// A door of two links, whose call of this number fails.
fn door(alloc: Global, first: &[u8], second: &[u8], fails: u64) -> Result<MemDoor, Memory>
    ensures { IfOk result (λ door. IsUnused (mem_passage door)) }
{
    let links = links(alloc, first, second)?;
    let fails = Vec::from_slice(alloc, &[fails])?;
    MemDoor::new(alloc, links, fails)
}

fn links(alloc: Global, first: &[u8], second: &[u8]) -> Result<Vec<MemLink>, Memory> {
    let mut links = Vec::with_capacity(alloc, 2)?;
    let one = link(alloc, first)?;
    links.push(one)?;
    let other = link(alloc, second)?;
    links.push(other)?;
    Ok(links)
}

// Whether the link that came back as this one was sent these bytes.
fn was_sent(door: &MemDoor, index: usize, bytes: &[u8]) -> bool {
    match door.back().get(index) {
        Some(link) => link.written() == bytes && link.left().is_empty(),
        None => false,
    }
}

#[test]
fn gives_its_links_in_order(rt: HostRuntime) -> Result<(), Fail> {
    let mut door = door(rt.alloc(), &[1, 2, 3], &[9], 2)?;
    assert!(rt; serve_next(&mut door) == Ok(true));
    assert!(rt; serve_next(&mut door) == Err(HostFault::Failed));
    assert!(rt; was_sent(&door, 0, &[1, 2, 3]));
    assert!(rt; !was_sent(&door, 1, &[9]));
    assert!(rt; serve_next(&mut door) == Ok(true));
    assert!(rt; was_sent(&door, 1, &[9]));
    assert!(rt; serve_next(&mut door) == Ok(false));
    assert_eq!(rt; door.back().len(), 2);
    Ok(())
}

// A network of two doors, whose second call fails.
fn network(alloc: Global) -> Result<MemNetwork, Memory> {
    let first = door(alloc, &[1], &[2], 9)?;
    let second = door(alloc, &[3], &[4], 1)?;
    network_of(alloc, first, second)
}

fn network_of(alloc: Global, first: MemDoor, second: MemDoor) -> Result<MemNetwork, Memory>
    requires first { IsUnused (mem_passage first) }
    requires second { IsUnused (mem_passage second) }
{
    let fails = Vec::from_slice(alloc, &[2u64])?;
    let doors = two_doors(alloc, first, second)?;
    Ok(MemNetwork::new(alloc, doors, fails))
}

fn two_doors(alloc: Global, first: MemDoor, second: MemDoor) -> Result<Vec<MemDoor>, Memory>
    requires first { IsUnused (mem_passage first) }
    requires second { IsUnused (mem_passage second) }
    ensures { IfOk result (λ doors. All (λ door. IsUnused (mem_passage door)) doors.items) }
{
    let mut doors = Vec::with_capacity(alloc, 2)?;
    doors.push(first)?;
    doors.push(second)?;
    Ok(doors)
}

// Opens one door, serves its next link and gives the door back.
fn serve_one(network: &mut MemNetwork, address: &Text) -> Result<bool, HostFault> {
    let mut doors = network.doors(address, 1)?;
    let served = serve_next(&mut doors[0]);
    network.doors_back(doors);
    served
}

// How many doors came back by this call, and how many links by the first of them.
fn came_back(network: &MemNetwork, call: usize) -> (usize, usize) {
    let Some(doors) = network.back().get(call) else {
        return (0, 0);
    };
    match doors.as_slice().first() {
        Some(door) => (doors.len(), door.back().len()),
        None => (0, 0),
    }
}

#[test]
fn hands_out_its_doors_in_order(rt: HostRuntime) -> Result<(), Fail> {
    let mut network = network(rt.alloc())?;
    let address = Text::from_bytes(rt.alloc(), b"a")?;
    assert!(rt; refuses(&mut network, &address, 3));
    assert!(rt; serve_one(&mut network, &address) == Err(HostFault::Failed));
    assert!(rt; network.back().is_empty());
    assert!(rt; serve_one(&mut network, &address) == Ok(true));
    assert!(rt; serve_one(&mut network, &address) == Err(HostFault::Failed));
    assert!(rt; came_back(&network, 0) == (1, 1));
    assert!(rt; came_back(&network, 1) == (1, 0));
    assert!(rt; serve_one(&mut network, &address) == Err(HostFault::Failed));
    assert_eq!(rt; network.back().len(), 2);
    Ok(())
}

// What became of each request to stop: 1 where one was sent to `a`, 0 where one to `a` wasn't, and 9 for others.
fn stops(alloc: Global, network: &MemNetwork) -> Result<Vec<u8>, Memory> {
    let mut told = Vec::new(alloc);
    for call in network.stops() {
        let code = match call.address.as_str() {
            "a" => u8::from(call.sent),
            _ => 9,
        };
        told.push(code)?;
    }
    Ok(told)
}

#[test]
fn tells_the_requests_to_stop(rt: HostRuntime) -> Result<(), Fail> {
    let mut network = network(rt.alloc())?;
    let address = Text::from_bytes(rt.alloc(), b"a")?;
    assert!(rt; network.ask_to_stop(&address) == Ok(()));
    assert!(rt; network.ask_to_stop(&address) == Err(HostFault::Failed));
    assert!(rt; network.ask_to_stop(&address) == Ok(()));
    assert!(rt; stops(rt.alloc(), &network)?.as_slice() == [1, 0, 1].as_slice());
    assert!(rt; serve_one(&mut network, &address) == Ok(true));
    Ok(())
}
