//! The text of a history: what is printed of it, and what is read back.
#![tactic(auto)]

mod cells;
mod compact;
mod digits;
mod draft;
mod event_lines;
mod events;
mod fields;
mod keyword;
mod laws;
mod leading;
mod line_event;
mod lines;
mod log_fault;
mod misread;
mod order_line;
mod parts;
mod printing;
mod puts;
mod reading;
mod rows;
mod shapes;
mod trace;
mod version;
mod words;

pub use compact::{CompactAccess, CompactCell, CompactRead, CompactValue};
pub use laws::{one_trace, one_word};
pub use leading::{leading_begin, leading_commit, leading_own, leading_read, leading_write};
pub use line_event::read_event;
pub use log_fault::LogFault;
pub use misread::Misread;
pub use order_line::read_order;
pub use parts::first_part;
pub use printing::print;
pub use puts::{put, put_cell, put_number};
pub use reading::{head_of, read};
pub use trace::Trace;
pub use version::Version;
