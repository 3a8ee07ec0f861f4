//! Processor time of this thread, for one of many calls.

use std::io;
use std::time::{CpuClock, Duration};

/// Nanoseconds for each of `count` calls since `start`.
pub(crate) fn each(rt: &impl CpuClock, start: Duration, count: u64) -> io::Result<u64> {
    let spent = rt.thread_cpu_time()?.saturating_sub(start);
    let nanos = u64::try_from(spent.as_nanos()).unwrap_or(u64::MAX);
    Ok(nanos / count.max(1))
}
