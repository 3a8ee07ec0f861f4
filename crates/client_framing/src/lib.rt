//! The messages of a client of PostgreSQL's protocol 3.0, read from a stream that comes in any pieces.
//!
//! However a stream is cut into pieces, the messages that are read from it, what is left after them and the fault that
//! stands there are those of the stream as a whole, and it has no others (`split_stream`). Bodies that nobody reads, those
//! of the extended query, of a function call and of a copy, are passed over and not copied.
//!
//! It stands on `cell_base` for `Items` and `Memory`, on `byteorder` for the numbers of a message, and on `thiserror` for
//! the texts of its faults.
#![tactic(auto)]

mod frames;
mod frontend_message;
mod main_phase;
mod message_type;
mod opening;
mod opening_type;
mod pairs;
mod parts;
mod split;

pub use frames::Frames;
pub use frontend_message::{CopyMessage, Extended, FrameFault, FrontendMessage};
pub use split::{Split, split_stream};
