//! The commands of the program.
//!
//! [`monkey_main`] does all that the program does in a host and at a network (`specs/Program`): `pipe LEVEL WORDS` serves one session over the
//! standard link, `serve` serves the links that come in at an address, `check [--wide] PATH` checks the log of a file, `judge PATH` tells the
//! strongest level that its history meets, `sim LEVEL SEED SESSIONS QUERIES` simulates sessions, `stop` asks a server to stop, `--help` and
//! `--version` tell of the program, other words print the usage line.
#![tactic(auto)]

mod run;
mod telling;

pub use host_calls::Status;
pub use run::monkey_main;
