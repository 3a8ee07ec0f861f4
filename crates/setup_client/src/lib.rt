//! The client of a setup: what it sends, the first error that it is told, and whether it is told of a block.
//!
//! [`link_of`] gives the link of a client in memory that starts, sends a text as one query and terminates (`specs/Client`). That these bytes spell
//! its messages is [`client_is_spelled`]. [`first_error`] reads the messages of a server up to the first ErrorResponse, and counts the statements
//! that were done before it (`specs/Errors`). [`tells_block`] answers whether one of its messages says that the session stands inside a block
//! (`specs/Blocks`).
#![tactic(auto)]

mod blocks;
mod client;
mod errors;
mod laws;

pub use blocks::tells_block;
pub use client::{MOST_TEXT, link_of};
pub use errors::{StatementFault, first_error};
pub use laws::client_is_spelled;
