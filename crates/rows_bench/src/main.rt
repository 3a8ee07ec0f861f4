//! Measures rows of bits and kept reachability, in processor time of this thread.
//!
//! Without arguments it says how it is used, and ends. `kernels ROUNDS` times each kernel over
//! pools of rows beside a plain loop over the same words, and `reach SIZE` times the calls of a
//! `Reach` of so many numbers. Both print nanoseconds for one call.
#![tactic(auto)]

use anyhow::Result;
use std::env;
use std::rt::Env;
use std::time::CpuClock;

mod grown;
mod kernels;
mod lanes;
mod meter;
mod plain;
mod pool;
mod reaching;

fn run(rt: &(impl Env + Print + CpuClock + AllocGlobal)) -> Result<()> {
    let mut words = env::args(rt)?;
    let _program = words.next();
    let Some(what) = words.next() else {
        rt.println("usage: rows_bench kernels ROUNDS | reach SIZE")?;
        return Ok(());
    };
    let number = match words.next() {
        Some(text) => text.parse::<u32>().unwrap_or(1000),
        None => 1000,
    };
    if what.as_str() == "reach" {
        reaching::measure(rt, number)
    } else {
        kernels::measure(rt, number)
    }
}

fn main(rt: HostRuntime) -> Result<()> {
    run(&rt)
}
