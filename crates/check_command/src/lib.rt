//! The commands that look at the file of a log: `check` checks its history and its order, in one thread or in several, and `judge` tells the
//! strongest level that its history meets.
#![tactic(auto)]

mod command;
mod judge_command;
mod judge_lines;
mod judge_verdict;
mod lines;
mod verdict;

pub use command::{check_file, check_file_wide};
pub use judge_command::judge_file;
