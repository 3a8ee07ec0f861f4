//! The offer of a cell that many committed transactions wrote.
use crate::book::{count_offered, written};
use crate::meter;
use anyhow::Result;
use cell_base::{Cell, Level};
use held_values::without;
use std::time::CpuClock;
use table_samples::presence;
use valid_writes::Store;

/// How many times the offer is made.
const OFFERS: u32 = 200;

/// Times the offer to a further transaction of the writers' own session, all of which are in its past.
pub(crate) fn measure(
    rt: &(impl CpuClock + Print + AllocGlobal),
    level: Level,
    writers: u32,
) -> Result<()> {
    let store = written(rt.alloc(), level, writers)?;
    let cell = presence();
    let measured = measure_offers(rt, &store, &cell, writers);
    without((store, cell), measured)
}

fn measure_offers(
    rt: &(impl CpuClock + Print + AllocGlobal),
    store: &Store,
    cell: &Cell,
    writers: u32,
) -> Result<()> {
    let mut offered = 0usize;
    let start = rt.thread_cpu_time()?;
    for _ in 0..OFFERS {
        offered = count_offered(store, cell)?;
    }
    let nanos = meter::each(rt, start, u64::from(OFFERS))?;
    println!(rt; "{writers} writers, {offered} offered: {nanos} ns")?;
    Ok(())
}
