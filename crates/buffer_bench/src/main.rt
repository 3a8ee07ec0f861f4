//! Measures the buffer of a transaction's writes beside a list that is walked, in processor time of this thread.
//!
//! The cells are those of an INSERT of so many rows into a table of 32 columns. With a number of rows it prints nanoseconds
//! for one put of a new cell, one put of a cell that is there, and one get, and the same of the list. Without one it puts
//! 100 rows and prints how many writes there are: its stored run.
#![tactic(auto)]

use anyhow::Result;
use std::env;
use std::rt::Env;
use std::time::CpuClock;

mod buffered;
mod cells;
mod measured;
mod meter;
mod walked;

fn run(rt: &(impl Env + Print + CpuClock + AllocGlobal)) -> Result<()> {
    let mut words = env::args(rt)?;
    let _program = words.next();
    match words.next() {
        Some(rows) => {
            let rows = rows.parse::<u32>().unwrap_or(100);
            buffered::measure_buffer(rt, rows)?;
            walked::measure_list(rt, rows)
        }
        None => buffered::show(rt, 100),
    }
}

fn main(rt: HostRuntime) -> Result<()> {
    run(&rt)
}
