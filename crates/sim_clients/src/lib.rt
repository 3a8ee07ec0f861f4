//! The clients of a simulation, made from a seed.
//!
//! One client makes the table `t`; the others send queries on eight of its keys, drawn from one stream of the seed. The choice words of each
//! are drawn from a stream of its own (`specs/Clients`).
#![tactic(auto)]

mod clients;
mod query;
mod streams;

pub use clients::sim_clients;
