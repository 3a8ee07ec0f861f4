//! Tests of the command line: what words say, and words that are no command.
//!
//! The contracts of `command_line` say what words are by the definitions of `clap`. These tests compare what is read with values found by
//! hand, and so the one line that `command_help` says of words that are no command. The crate has nothing but tests.
#![tactic(auto)]

#[cfg(test)]
mod telling;
#[cfg(test)]
mod tests;
