//! The log of a history, written to a file: its text (`specs/Text`), and what became of the file (`specs/Logging`).
#![tactic(auto)]

mod file;
mod text;

pub use file::log_and_print;
