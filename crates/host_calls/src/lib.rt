//! What a command does with its host beside serving: it reads a file whole, or writes one, prints a line, and tells on standard error why it
//! didn't.
#![tactic(auto)]

mod printing;
mod reading;
mod status;
mod telling;
mod writing;

pub use printing::print;
pub use reading::{FileFault, read_file};
pub use status::Status;
pub use telling::{Object, Objects, tell_fault, tell_memory, tell_status};
pub use writing::{WriteFault, write_file};
