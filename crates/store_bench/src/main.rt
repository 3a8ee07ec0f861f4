//! Measures the reads of a store, in processor time of this thread.
//!
//! Without arguments it says how it is used, and ends. `reads LEVEL SIZE` times a thousand transactions of one point read each at the end of a
//! history of so many transactions. `hot LEVEL WRITERS` times the offer of a cell that so many committed transactions of the reader's own
//! session wrote. Both print nanoseconds, and the process' memory is what the system says of it.
#![tactic(auto)]

use anyhow::Result;
use cell_base::Level;
use std::env;
use std::rt::Env;
use std::time::CpuClock;

mod book;
mod hot;
mod meter;
mod reads;

/// The level of this name, and Read Committed for others.
fn level_of(name: &str) -> Level {
    match name {
        "cc" => Level::Cc,
        "ra" => Level::Ra,
        _ => Level::Rc,
    }
}

/// Whether offers are to be timed, where there is a word.
fn is_hot(word: Option<String>) -> Option<bool> {
    match word {
        Some(name) => Some(name.as_str() == "hot"),
        None => None,
    }
}

/// The level that the word names, where there is one.
fn level_in(word: Option<String>) -> Option<Level> {
    match word {
        Some(name) => Some(level_of(name.as_str())),
        None => None,
    }
}

/// The number that the word spells, and a thousand for others, where there is one.
fn number_in(word: Option<String>) -> Option<u32> {
    match word {
        Some(text) => Some(text.as_str().parse::<u32>().unwrap_or(1_000)),
        None => None,
    }
}

/// What the words ask for: whether offers are to be timed, the level and the number. None where there are too few words.
fn asked(rt: &(impl Env + AllocGlobal)) -> Result<Option<(bool, Level, u32)>> {
    let mut words = env::args(rt)?;
    let _program = words.next();
    let (what, level) = (is_hot(words.next()), level_in(words.next()));
    match (what, level, number_in(words.next())) {
        (Some(is_hot), Some(level), Some(number)) => Ok(Some((is_hot, level, number))),
        _ => Ok(None),
    }
}

fn run(rt: &(impl Env + Print + CpuClock + AllocGlobal)) -> Result<()> {
    match asked(rt)? {
        Some((true, level, number)) => hot::measure(rt, level, number),
        Some((false, level, number)) => reads::measure(rt, level, number),
        None => {
            rt.println("usage: store_bench reads LEVEL SIZE | hot LEVEL WRITERS")?;
            Ok(())
        }
    }
}

fn main(rt: HostRuntime) -> Result<()> {
    run(&rt)
}
