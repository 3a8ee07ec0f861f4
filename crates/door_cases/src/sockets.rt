// Doors over sockets of the loopback.
ghost use Rattle.std.specs.Prelude.{◌≤◌, length};
ghost use Rattle.doors.specs.TcpDoors.{tcp_passage};

use crate::echo::{refuses, serve_all, serve_next};
use cell_base::{Text, TextFault};
use doors::{Door, Network, TcpDoor, TcpNetwork, stop_request};
use link_traits::{HostFault, Source, send_all};
use std::alloc::Global;
use std::io;
use std::io::{Read, Write};
use std::net::{Net, SocketAddr, TcpListener, TcpStream};
use std::test::Fail;
use std::thread::join;

// What a client is told for these three bytes.
fn ask<R: Net<Listener = TcpListener, Stream = TcpStream>>(
    rt: &R,
    address: SocketAddr,
) -> io::Result<[u8; 3]> {
    let mut stream = TcpStream::connect(rt, address)?;
    stream.write_all(&[7, 8, 9])?;
    let mut room = [0u8; 3];
    stream.read_exact(&mut room)?;
    Ok(room)
}

// The same, and then another network asks the server to stop. Answers also whether it could.
fn ask_and_stop<R>(
    rt: &R,
    alloc: Global,
    address: SocketAddr,
    text: &Text,
) -> io::Result<([u8; 3], bool)>
where
    R: Net<Listener = TcpListener, Stream = TcpStream> + Eprint,
{
    let told = ask(rt, address)?;
    let stopped = TcpNetwork::new(rt, alloc).ask_to_stop(text).is_ok();
    Ok((told, stopped))
}

// The text of an address.
fn text_of(alloc: Global, address: SocketAddr) -> Result<Text, TextFault> {
    match format!(in alloc; "{address}") {
        Ok(text) => Text::from_bytes(alloc, text.as_bytes()),
        Err(_) => Err(TextFault::Memory),
    }
}

// Whether the next link takes these bytes. It is given back at once.
fn sends(door: &mut TcpDoor, bytes: &[u8]) -> Result<bool, HostFault>
    requires { length (tcp_passage door.old).back ≤ (tcp_passage door.old).accepted }
{
    let Some(mut link) = door.accept()? else {
        return Ok(false);
    };
    let sent = send_all(&mut link, bytes).is_ok();
    door.done(link);
    Ok(sent)
}

// Whether a read of the next link, whose peer says nothing, fails once the door is stopped.
fn cuts_off(door: &mut TcpDoor) -> Result<bool, HostFault>
    requires { length (tcp_passage door.old).back ≤ (tcp_passage door.old).accepted }
{
    let Some(mut link) = door.accept()? else {
        return Ok(false);
    };
    door.stop();
    let mut room = [0u8; 4];
    let failed = link.read(&mut room).is_err();
    door.done(link);
    Ok(failed)
}

#[test]
fn asks_to_stop_by_a_cancel_request(_rt: HostRuntime) -> Result<(), Fail> {
    assert!(_rt; stop_request() == [0, 0, 0, 16, 4, 210, 22, 46, 83, 84, 79, 80, 83, 84, 79, 80]);
    Ok(())
}

#[test]
fn serves_until_it_is_asked_to_stop(rt: HostRuntime) -> Result<(), Fail> {
    let mut network = TcpNetwork::new(&rt, rt.alloc());
    let anywhere = Text::from_bytes(rt.alloc(), b"127.0.0.1:0")?;
    let mut doors = network.doors(&anywhere, 1)?;
    let address = doors[0].local_addr()?;
    let text = text_of(rt.alloc(), address)?;
    let (served, answer) = join(
        &rt,
        || serve_all(&mut doors[0]),
        || ask_and_stop(&rt, rt.alloc(), address, &text),
    );
    assert!(rt; answer? == ([7, 8, 9], true));
    assert!(rt; served == Some(2));
    assert!(rt; TcpStream::connect(&rt, address).is_err());
    network.doors_back(doors);
    Ok(())
}

#[test]
fn fails_at_an_address_that_is_none(rt: HostRuntime) -> Result<(), Fail> {
    let mut network = TcpNetwork::new(&rt, rt.alloc());
    let address = Text::from_bytes(rt.alloc(), b"127.0.0.1:port")?;
    assert!(rt; refuses(&mut network, &address, 1));
    Ok(())
}

#[test]
fn ends_a_door_that_waits(rt: HostRuntime) -> Result<(), Fail> {
    let mut network = TcpNetwork::new(&rt, rt.alloc());
    let anywhere = Text::from_bytes(rt.alloc(), b"127.0.0.1:0")?;
    let mut doors = network.doors(&anywhere, 1)?;
    let text = text_of(rt.alloc(), doors[0].local_addr()?)?;
    assert!(rt; network.ask_to_stop(&text) == Ok(()));
    assert!(rt; serve_next(&mut doors[0]) == Ok(true));
    assert!(rt; serve_next(&mut doors[0]) == Ok(false));
    network.doors_back(doors);
    // Nothing listens there any more.
    assert!(rt; network.ask_to_stop(&text) == Err(HostFault::Failed));
    Ok(())
}

#[test]
fn stops_the_other_doors_of_its_socket(rt: HostRuntime) -> Result<(), Fail> {
    let mut network = TcpNetwork::new(&rt, rt.alloc());
    let anywhere = Text::from_bytes(rt.alloc(), b"127.0.0.1:0")?;
    let mut doors = network.doors(&anywhere, 2)?;
    doors[1].stop();
    assert!(rt; serve_next(&mut doors[0]) == Ok(false));
    network.doors_back(doors);
    Ok(())
}

#[test]
fn sends_all_that_was_held_back(rt: HostRuntime) -> Result<(), Fail> {
    let mut network = TcpNetwork::new(&rt, rt.alloc());
    let anywhere = Text::from_bytes(rt.alloc(), b"127.0.0.1:0")?;
    let mut doors = network.doors(&anywhere, 1)?;
    let mut client = TcpStream::connect(&rt, doors[0].local_addr()?)?;
    let bytes = vec![in rt.alloc(); 7u8; 40_000]?;
    assert!(rt; sends(&mut doors[0], &bytes) == Ok(true));
    let mut got = Vec::new(rt.alloc());
    client.read_to_end(&mut got)?;
    assert!(rt; got == bytes);
    network.doors_back(doors);
    Ok(())
}

#[test]
fn cuts_an_idle_peer_off(rt: HostRuntime) -> Result<(), Fail> {
    let mut network = TcpNetwork::new(&rt, rt.alloc());
    let anywhere = Text::from_bytes(rt.alloc(), b"127.0.0.1:0")?;
    let mut doors = network.doors(&anywhere, 1)?;
    let client = TcpStream::connect(&rt, doors[0].local_addr()?)?;
    assert!(rt; cuts_off(&mut doors[0]) == Ok(true));
    drop(client);
    network.doors_back(doors);
    Ok(())
}
