//! The parts of a check, each measured by itself.
ghost use Rattle.std.specs.Prelude.{◌≡◌};
ghost use Rattle.link_traits.specs.Host.{objects_out};

use anyhow::Result;
use cell_base::Text;
use held_values::without;
use history_check::check;
use history_log::read;
use host_calls::read_file;
use link_traits::Host;
use right_logs::{Glimpse, glimpse_of};
use std::alloc::Global;
use std::io;
use std::time::{CpuClock, Duration};

/// The greatest number of bytes of a log.
const MOST_BYTES: usize = 268_435_456;

/// How many lines the bytes are split into.
fn count_lines(bytes: &[u8]) -> usize {
    bytes.split(|byte| *byte == b'\n').count()
}

/// The word of what one pass over a text says of it.
fn word_of(glimpse: &Glimpse) -> &'static str {
    match glimpse {
        Glimpse::Right => "right",
        Glimpse::Judged(_cells) => "judged",
        Glimpse::Unclear => "unclear",
    }
}

/// What one pass over the bytes says of them. `None` where memory ran out.
fn glimpse_word(alloc: Global, bytes: &[u8]) -> Option<&'static str> {
    match glimpse_of(alloc, bytes) {
        Ok(glimpse) => {
            let word = word_of(&glimpse);
            Some(without(glimpse, word))
        }
        Err(_memory) => None,
    }
}

/// Microseconds since `start`.
fn micros(rt: &impl CpuClock, start: Duration) -> io::Result<u64> {
    let spent = rt.thread_cpu_time()?.saturating_sub(start);
    Ok(u64::try_from(spent.as_micros()).unwrap_or(u64::MAX))
}

/// Prints what each part takes.
pub(crate) fn measure<H: Host>(
    rt: &(impl CpuClock + Print + AllocGlobal),
    host: &mut H,
    path: &Text,
) -> Result<()>
    requires { objects_out (H.hosted host.old) ≡ 0 }
{
    let start = rt.thread_cpu_time()?;
    let Ok(bytes) = read_file(rt.alloc(), host, path, MOST_BYTES) else {
        println!(rt; "the file wasn't read")?;
        return Ok(());
    };
    println!(rt; "file: {} us", micros(rt, start)?)?;
    let start = rt.thread_cpu_time()?;
    let lines = count_lines(&bytes);
    println!(rt; "{lines} lines: {} us", micros(rt, start)?)?;
    let start = rt.thread_cpu_time()?;
    let Some(word) = glimpse_word(rt.alloc(), &bytes) else {
        println!(rt; "memory ran out")?;
        return Ok(());
    };
    println!(rt; "one pass, {word}: {} us", micros(rt, start)?)?;
    let start = rt.thread_cpu_time()?;
    let Ok(trace) = read(rt.alloc(), &bytes) else {
        println!(rt; "it is no log")?;
        return Ok(());
    };
    println!(rt; "history: {} us", micros(rt, start)?)?;
    if trace.events.len() >= 4_294_967_296 {
        return Ok(());
    }
    let start = rt.thread_cpu_time()?;
    let right = check(rt.alloc(), &trace).is_ok();
    println!(rt; "check {right}: {} us", micros(rt, start)?)?;
    Ok(())
}
