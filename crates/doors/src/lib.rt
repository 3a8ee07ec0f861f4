//! What sessions come in by.
//!
//! A [`Door`] answers links one after another and takes them back; a [`Network`] opens doors at an address, and asks the server at an address
//! to stop. Contracts see of both what came in, what went back, what was asked and how often the outside failed (`specs/Passage`, `specs/Network`). Both have a form in memory, which tells its
//! links and doors beforehand, and one over sockets, which tells none of them and is the trusted edge. A request to stop, over a link of
//! one of its doors, ends the doors of a socket.
#![tactic(auto)]

mod counts;
mod door;
mod link_faults;
mod mem_door;
mod mem_doors_call;
mod mem_network;
mod network;
mod returned;
mod stop_call;
mod stop_sign;
mod tcp_call;
mod tcp_door;
mod tcp_link;
mod tcp_network;
mod wire;

pub use door::Door;
pub use link_faults::LinkFaults;
pub use mem_door::MemDoor;
pub use mem_network::MemNetwork;
pub use network::Network;
pub use stop_call::StopCall;
pub use stop_sign::{StopSign, stop_request};
pub use tcp_door::TcpDoor;
pub use tcp_link::TcpLink;
pub use tcp_network::TcpNetwork;
