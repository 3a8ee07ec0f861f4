//! Tests of what goes over a link: what the server writes (`server`), and what a client sends (`client`). The crate has nothing but
//! tests.
#![tactic(auto)]

#[cfg(test)]
mod client;
#[cfg(test)]
mod server;
