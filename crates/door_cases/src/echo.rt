// A server that sends each byte back.
ghost use Rattle.std.specs.Prelude.{◌≤◌, length};

use cell_base::Text;
use doors::{Door, Network};
use link_traits::{HostFault, Link, send_all};

// Sends what it reads back in two writes, until the peer has no more.
fn answer<L: Link>(link: &mut L) {
    let mut room = [0u8; 16];
    for _ in 0..100u32 {
        let Ok(n) = link.read(&mut room) else {
            return;
        };
        if n == 0 || send_all(link, &room[..1]).is_err() || send_all(link, &room[1..n]).is_err() {
            return;
        }
    }
}

/// Serves the next link. Answers whether one came.
pub fn serve_next<D: Door>(door: &mut D) -> Result<bool, HostFault>
    requires { length (D.passage door.old).back ≤ (D.passage door.old).accepted }
    ensures { length (D.passage door.new).back ≤ (D.passage door.new).accepted }
{
    let Some(mut link) = door.accept()? else {
        return Ok(false);
    };
    answer(&mut link);
    door.done(link);
    Ok(true)
}

/// Serves all links, and answers how many there were, or nothing where there were more than ten or accepting failed.
pub fn serve_all<D: Door>(door: &mut D) -> Option<u32>
    requires { length (D.passage door.old).back ≤ (D.passage door.old).accepted }
    ensures { length (D.passage door.new).back ≤ (D.passage door.new).accepted }
{
    for served in 0..11u32 {
        match serve_next(door) {
            Ok(true) => {}
            Ok(false) => return Some(served),
            Err(_) => return None,
        }
    }
    None
}

/// Whether a network refuses so many doors at an address.
pub fn refuses<N: Network>(network: &mut N, address: &Text, number: u32) -> bool {
    match network.doors(address, number) {
        Ok(doors) => {
            network.doors_back(doors);
            false
        }
        Err(fault) => fault == HostFault::Failed,
    }
}
