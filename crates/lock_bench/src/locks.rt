//! Threads that lock a mutex of std.
use std::sync::{Mutex, Wait};
use std::thread::{Threads, join};

fn in_one<R: Wait>(rt: &R, tally: &Mutex<u64>, locks: u32) {
    for _ in 0..locks {
        let mut count = tally.lock(rt);
        *count = count.wrapping_add(1);
    }
}

// So many further threads, and this one.
#[cycle(locking)]
fn in_many<R: Threads + Wait + Sync>(rt: &R, tally: &Mutex<u64>, further: u32, locks: u32) {
    if further == 0 {
        in_one(rt, tally, locks);
        return;
    }
    let rest = further - 1;
    join(
        rt,
        || in_one(rt, tally, locks),
        || in_many(rt, tally, rest, locks),
    );
}

/// Each thread locks the mutex that many times, and the answer is how many were counted.
pub fn count_locks<R: Threads + Wait + Sync>(rt: &R, threads: u32, locks: u32) -> u64 {
    let tally = Mutex::new(0u64);
    in_many(rt, &tally, threads.saturating_sub(1), locks);
    tally.into_inner()
}
