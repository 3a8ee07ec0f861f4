//! Measures the turn lock beside the mutex of std: 1, 2, 4, 16 and 64 threads make an almost empty call again and again.
//!
//! `lock_bench TURNS` prints how many turns all threads together made in a second, where each made TURNS of them.
//! Without an argument each makes a thousand, and what is printed is how many were counted.
#![tactic(auto)]

mod locks;
mod turns;

use locks::count_locks;
use std::alloc::{AllocError, Global};
use std::sync::Wait;
use std::thread::Threads;
use std::time::{Clock, Duration, Instant};
use std::{env, io};
use turns::count_turns;

// How many threads there are.
const CROWDS: [u32; 5] = [1, 2, 4, 16, 64];

// So many of all threads together in a second.
fn rate(threads: u32, each: u32, elapsed: Duration) -> u128 {
    let all = u128::from(each) * u128::from(threads);
    all * 1_000_000 / elapsed.as_micros().max(1)
}

fn measure<R: Threads + Wait + Clock + Sync>(
    rt: &R,
    alloc: Global,
    threads: u32,
    each: u32,
) -> io::Result<(u128, u128)> {
    let start = Instant::now(rt)?;
    count_turns(rt, alloc, threads, each).ok_or(AllocError)?;
    let turns = rate(threads, each, start.elapsed(rt)?);
    let start = Instant::now(rt)?;
    count_locks(rt, threads, each);
    Ok((turns, rate(threads, each, start.elapsed(rt)?)))
}

fn say_rates(rt: &impl Print, threads: u32, (turns, locks): (u128, u128)) -> io::Result<()> {
    println!(rt; "{threads} threads: {turns} turns, {locks} locks of a mutex in a second")?;
    Ok(())
}

fn say_counts(rt: &impl Print, threads: u32, turns: Option<u64>, locks: u64) -> io::Result<()> {
    let turns = turns.ok_or(AllocError)?;
    println!(rt; "{threads} threads: {turns} turns, {locks} locks of a mutex")?;
    Ok(())
}

fn main(rt: HostRuntime) -> io::Result<()> {
    let mut words = env::args(&rt)?;
    let _program = words.next();
    let each = words
        .next()
        .and_then(|word| word.as_str().parse::<u32>().ok());
    for threads in CROWDS {
        match each {
            Some(each) => {
                let rates = measure(&rt, rt.alloc(), threads, each)?;
                say_rates(&rt, threads, rates)?;
            }
            None => {
                let turns = count_turns(&rt, rt.alloc(), threads, 1_000);
                let locks = count_locks(&rt, threads, 1_000);
                say_counts(&rt, threads, turns, locks)?;
            }
        }
    }
    Ok(())
}
