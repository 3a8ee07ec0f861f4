//! The words that the program is started with, read as a command.
//!
//! The first word names the command. `clap` reads the words after it, by a simple command of its own for each name, and takes each value
//! as text. Numbers and levels are read here: decimal digits without a sign, inside their range.
#![tactic(auto)]

mod arguments;
mod check;
mod given;
mod number_lists;
mod numbers;
mod pipe;
mod question;
mod reading;
mod said;
mod serve;
mod sim;
mod stop;

pub use arguments::{Name, name_of};
pub use number_lists::words_of;
pub use numbers::{level_of, number, up_to};
pub use pipe::PipeCommand;
pub use question::Topic;
pub use reading::{CommandLine, one_command, plain_words, read_command};
pub use serve::{Progress, ServeOptions};
pub use sim::SimPlan;
