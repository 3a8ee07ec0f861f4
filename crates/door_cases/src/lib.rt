//! Tests of doors and networks, in memory and over the loopback. The crate has nothing but tests.
#![tactic(auto)]

#[cfg(test)]
mod echo;
#[cfg(test)]
mod memory;
#[cfg(test)]
mod sockets;
