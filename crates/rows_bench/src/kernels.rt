//! Each kernel over a pool of rows, by lanes and by a plain loop.

use crate::meter;
use crate::plain::Words;
use crate::pool::{Bits, Kernel, Pool, count_joined, pass, pool_of};
use anyhow::Result;
use bit_rows::Row;
use held_values::{both, without};
use std::io;
use std::time::CpuClock;

/// How many rows the pools have: 16 KiB of words, which the nearest cache holds, and 128 KiB.
const POOLS: [u32; 2] = [2, 16];

/// The kernels, by their names.
const KERNELS: [(&str, Kernel); 4] = [
    ("or_into", Kernel::Join),
    ("meets", Kernel::Meet),
    ("and_any", Kernel::MeetThree),
    ("count", Kernel::Count),
];

/// Takes the kernel over the pool so many times: nanoseconds for each of all calls, and what all of
/// them found.
fn time_passes<R: CpuClock, T: Bits>(
    rt: &R,
    pool: &mut Pool<T>,
    kernel: Kernel,
    rounds: u32,
    calls: u64,
) -> io::Result<(u64, u32)> {
    let mut found = 0u32;
    let start = rt.thread_cpu_time()?;
    for _ in 0..rounds {
        found = found.wrapping_add(pass(pool, kernel));
    }
    let nanos = meter::each(rt, start, calls)?;
    Ok((nanos, found))
}

/// One kernel's two times and whether both found the same.
fn measure_kernel(
    rt: &(impl CpuClock + Print),
    rows: &mut Pool<Row>,
    words: &mut Pool<Words>,
    name: &str,
    kernel: Kernel,
    rounds: u32,
    calls: u64,
) -> Result<()> {
    let (lanes, in_lanes) = time_passes(rt, rows, kernel, rounds, calls)?;
    let (loops, in_loops) = time_passes(rt, words, kernel, rounds, calls)?;
    let same = in_lanes == in_loops && count_joined(rows) == count_joined(words);
    println!(rt; "{name}: lanes {lanes} ns, plain loop {loops} ns, same answers {same}")?;
    Ok(())
}

fn measure_kernels(
    rt: &(impl CpuClock + Print),
    rows: &mut Pool<Row>,
    words: &mut Pool<Words>,
    rounds: u32,
    calls: u64,
) -> Result<()> {
    for (name, kernel) in KERNELS {
        measure_kernel(rt, rows, words, name, kernel, rounds, calls)?;
    }
    Ok(())
}

fn measure_pool(rt: &(impl CpuClock + Print + AllocGlobal), size: u32, rounds: u32) -> Result<()> {
    println!(rt; "{size} rows:")?;
    let calls = u64::from(rounds).saturating_mul(u64::from(size));
    let (mut rows, mut words) = both(
        pool_of::<Row>(rt.alloc(), size),
        pool_of::<Words>(rt.alloc(), size),
    )?;
    let measured = measure_kernels(rt, &mut rows, &mut words, rounds, calls);
    without((rows, words), measured)
}

/// Times each kernel, over each pool so many times.
pub(crate) fn measure(rt: &(impl CpuClock + Print + AllocGlobal), rounds: u32) -> Result<()> {
    for size in POOLS {
        measure_pool(rt, size, rounds)?;
    }
    Ok(())
}
