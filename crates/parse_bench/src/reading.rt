//! Reads the texts, and says how fast.

ghost use Rattle.std.specs.Prelude.{◌<◌, ◌^◌, length};

use crate::texts;
use anyhow::Result;
use cell_base::Text;
use held_values::without;
use sql_statements::statements;
use std::alloc::{AllocError, Global};
use std::io;
use std::time::{CpuClock, Duration};

/// The spelled text.
fn text_of(alloc: Global, spelled: &str) -> Result<Text, AllocError> {
    match Text::from_bytes(alloc, spelled.as_bytes()) {
        Ok(text) => Ok(text),
        Err(_) => Err(AllocError),
    }
}

/// How many statements the text has; 0 where it isn't read.
fn count(alloc: Global, text: &Text) -> usize
    requires { length text.now < 2 ^ 32 }
{
    match statements(alloc, text) {
        Ok(found) => {
            let number = found.len();
            without(found, number)
        }
        Err(_) => 0,
    }
}

/// How many statements are read in all, where the text is read so often. A text of more than 10,000,000 bytes isn't read.
fn count_often(alloc: Global, text: &Text, times: u32) -> usize {
    let mut all = 0usize;
    if text.bytes().len() <= 10_000_000 {
        for _ in 0..times {
            all = all.wrapping_add(count(alloc, text));
        }
    }
    all
}

/// Millions of bytes in a second, where so many bytes were read since `start`.
fn speed(rt: &impl CpuClock, start: Duration, bytes: u64) -> io::Result<u64> {
    let spent = rt.thread_cpu_time()?.saturating_sub(start);
    let micros = u64::try_from(spent.as_micros()).unwrap_or(u64::MAX);
    Ok(bytes / micros.max(1))
}

/// How many statements the spelled text has, read once.
fn count_once(alloc: Global, spelled: &str) -> Result<usize, AllocError> {
    let text = text_of(alloc, spelled)?;
    let found = count_often(alloc, &text, 1);
    Ok(without(text, found))
}

/// The long text, read once.
pub(crate) fn show(rt: &(impl Print + AllocGlobal)) -> Result<()> {
    let long = texts::long(rt.alloc())?;
    let bytes = long.len();
    let counted = count_once(rt.alloc(), long.as_str());
    let found = without(long, counted)?;
    println!(rt; "{found} statements in {bytes} bytes")?;
    Ok(())
}

/// How many statements are read of a text of so many bytes, read so many times, and how fast.
fn time_text<R: CpuClock + AllocGlobal>(
    rt: &R,
    text: &Text,
    bytes: u64,
    times: u32,
) -> Result<(usize, u64)> {
    let start = rt.thread_cpu_time()?;
    let found = count_often(rt.alloc(), text, times);
    let each = speed(rt, start, bytes.saturating_mul(u64::from(times)))?;
    Ok((found, each))
}

/// The same of a spelled text.
fn time_spelled<R: CpuClock + AllocGlobal>(
    rt: &R,
    spelled: &str,
    times: u32,
) -> Result<(usize, u64)> {
    let text = text_of(rt.alloc(), spelled)?;
    let timed = time_text(rt, &text, spelled.len() as u64, times);
    without(text, timed)
}

/// The long text, read so many times.
fn measure_long(rt: &(impl CpuClock + Print + AllocGlobal), rounds: u32) -> Result<()> {
    let long = texts::long(rt.alloc())?;
    let timed = time_spelled(rt, long.as_str(), rounds);
    let (found, whole) = without(long, timed)?;
    println!(rt; "one text: {found} statements read, {whole} MB/s")?;
    Ok(())
}

/// The text of one statement, read 5,000 times as often.
fn measure_statement(
    rt: &(impl CpuClock + Print + AllocGlobal),
    one: String,
    rounds: u32,
) -> Result<()> {
    let bytes = one.len();
    let timed = time_spelled(rt, one.as_str(), rounds.saturating_mul(5_000));
    let (found, each) = without(one, timed)?;
    println!(rt; "texts of {bytes} bytes: {found} statements read, {each} MB/s")?;
    Ok(())
}

/// The long text and those of one statement, read so many times.
pub(crate) fn measure(rt: &(impl CpuClock + Print + AllocGlobal), rounds: u32) -> Result<()> {
    measure_long(rt, rounds)?;
    measure_statement(rt, texts::insert(rt.alloc())?, rounds)?;
    measure_statement(rt, texts::select(rt.alloc())?, rounds)
}
