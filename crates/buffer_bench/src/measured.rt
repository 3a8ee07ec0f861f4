//! Times of what keeps the writes.

use crate::cells::COLUMNS;
use crate::meter;
use anyhow::Result;
use cell_base::Memory;
use std::time::CpuClock;

/// What keeps the writes.
pub(crate) trait Writes {
    /// Puts a value at each of so many cells.
    fn fill(&mut self, count: u32, value: i64) -> Result<(), Memory>;

    /// How many of so many cells are found with a value.
    fn found(&self, count: u32) -> u32;
}

/// Nanoseconds for each put of a value at so many cells.
fn time_puts<R: CpuClock, W: Writes>(
    rt: &R,
    writes: &mut W,
    count: u32,
    value: i64,
) -> Result<u64> {
    let start = rt.thread_cpu_time()?;
    writes.fill(count, value)?;
    let nanos = meter::each(rt, start, count)?;
    Ok(nanos)
}

/// Nanoseconds for each get of so many cells, and how many are found.
fn time_gets<R: CpuClock, W: Writes>(rt: &R, writes: &W, count: u32) -> Result<(u64, u32)> {
    let start = rt.thread_cpu_time()?;
    let there = writes.found(count);
    let nanos = meter::each(rt, start, count)?;
    Ok((nanos, there))
}

/// Times puts of new cells, puts of cells that are there, and gets, of so many rows.
pub(crate) fn measure<R: CpuClock + Print, W: Writes>(
    rt: &R,
    name: &str,
    writes: &mut W,
    rows: u32,
) -> Result<()> {
    let count = rows.saturating_mul(COLUMNS);
    let new = time_puts(rt, writes, count, 1)?;
    let again = time_puts(rt, writes, count, 2)?;
    let (got, there) = time_gets(rt, writes, count)?;
    println!(rt;
        "{name}: put of a new cell {new} ns, of one that is there {again} ns, get {got} ns, {there} found"
    )?;
    Ok(())
}
