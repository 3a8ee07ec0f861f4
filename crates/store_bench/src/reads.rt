//! Point reads at the end of a history, each in a transaction of its own.
ghost use Rattle.seat_samples.specs.SessionStates.{IsReady};

use crate::book::{fill, read_cell, start};
use crate::meter;
use anyhow::Result;
use cell_base::Level;
use held_values::without;
use std::time::CpuClock;
use valid_writes::SeatBook;

/// How many transactions are timed.
const TIMED: u32 = 1_000;

/// Times the last transactions of a history of so many, of which the first one writes the cell that the others read.
pub(crate) fn measure(
    rt: &(impl CpuClock + Print + AllocGlobal),
    level: Level,
    size: u32,
) -> Result<()> {
    let mut book = start(rt.alloc())?;
    let measured = measure_last(rt, &mut book, level, size);
    without(book, measured)
}

fn measure_last(
    rt: &(impl CpuClock + Print + AllocGlobal),
    book: &mut SeatBook,
    level: Level,
    size: u32,
) -> Result<()>
    requires { IsReady book.old }
{
    fill(book, level, size.saturating_sub(TIMED))?;
    let start = rt.thread_cpu_time()?;
    read_cell(book, level, TIMED)?;
    let nanos = meter::each(rt, start, u64::from(TIMED))?;
    let begun = book.history().begun();
    println!(rt; "{begun} transactions, begin, read and commit: {nanos} ns")?;
    Ok(())
}
