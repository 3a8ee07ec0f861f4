//! Measures how fast `statements` reads SQL, in processor time of this thread.
//!
//! The text is one of about a million bytes: 128 times an INSERT of 190 rows and a SELECT with a join. With a number it reads
//! the text so many times, prints how many millions of bytes it read in a second, and then the same for as many bytes in
//! messages of one statement each. Without one it reads the text once and prints how many statements it has: its stored run.
#![tactic(auto)]

use anyhow::Result;
use std::env;
use std::rt::Env;
use std::time::CpuClock;

mod reading;
mod texts;

fn run(rt: &(impl Env + Print + CpuClock + AllocGlobal)) -> Result<()> {
    let mut words = env::args(rt)?;
    let _program = words.next();
    match words.next() {
        Some(rounds) => reading::measure(rt, rounds.parse::<u32>().unwrap_or(1)),
        None => reading::show(rt),
    }
}

fn main(rt: HostRuntime) -> Result<()> {
    run(&rt)
}
