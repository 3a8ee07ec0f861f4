//! Many sessions over one history, one call at a time: every interleaving of sessions as a pure machine.
//!
//! A [`Hall`] has one store and a session for each client, whose bytes come from its stream and whose choice words from its list. A step
//! lets one client go on until its session has made one call of its book, or has ended. After any steps the hall stands for one legal
//! history and an account of each client (`specs/Halls`): what it was sent is told of the bytes that it said and of its record, and the
//! events of its record are exactly those of its session in the history (`specs/Clients`).
#![tactic(auto)]

mod asking;
mod client;
mod hall;
mod seat;
mod telling;

pub use client::{Client, Stepped};
pub use hall::Hall;
