// Long histories: thousands of transactions of which each reads, and what precedes what in the end.
use crate::start::stage;
use cell_base::Level;
use held_values::{kept, without};
use history_core::{Event, History};
use seat_samples::{Stop, idle_seat, read_many, unlike, write_alone};
use std::alloc::Global;
use valid_writes::Store;

/// How many transactions read.
const READERS: u32 = 4_000;

/// How many reads are from the source that is expected, of so many offered; how many transactions there are with the initial one; and whether
/// each commit order has the first before the last reader, and the other way round.
#[derive(Clone, Copy)]
struct Reads {
    reads: usize,
    size: u32,
    reaches_last: bool,
    reaches_first: bool,
}

/// The session that reads, its level, the source of which its reads are counted, how many each of them is offered, and what is to come of 4,000
/// reads.
type Case = (u32, Level, u32, u32, Reads);

const MISSED: Case = (
    1,
    Level::Rc,
    0,
    2,
    Reads {
        reads: 4_000,
        size: 4_002,
        reaches_last: true,
        reaches_first: false,
    },
);

/// Read Committed, one session: its first transaction writes the presence of row 1, and each of 4,000 more reads it by the word 0, and so
/// misses it.
#[test]
fn misses_its_own_row_4000_times(rt: HostRuntime) -> Result<(), Stop> {
    hold(rt.alloc(), MISSED)
}

const SEEN: Case = (
    1,
    Level::Cc,
    1,
    1,
    Reads {
        reads: 4_000,
        size: 4_002,
        reaches_last: true,
        reaches_first: false,
    },
);

/// Causal Consistency, one session: each of the 4,000 is offered the row alone.
#[test]
fn sees_its_own_row_4000_times(rt: HostRuntime) -> Result<(), Stop> {
    hold(rt.alloc(), SEEN)
}

const MISSED_BY_ANOTHER: Case = (
    2,
    Level::Cc,
    0,
    2,
    Reads {
        reads: 4_000,
        size: 4_002,
        reaches_last: false,
        reaches_first: false,
    },
);

/// Causal Consistency, a second session: each of the 4,000 misses the first session's row, so that none stands before or after it.
#[test]
fn misses_another_row_4000_times(rt: HostRuntime) -> Result<(), Stop> {
    hold(rt.alloc(), MISSED_BY_ANOTHER)
}

/// Reads 4,000 times in the session, and compares what comes of it.
fn hold(alloc: Global, case: Case) -> Result<(), Stop> {
    let store = read_4000_times(alloc, case.0, case.1)?;
    let compared = compare(&store, case);
    without(store, compared)
}

fn compare(store: &Store, (_, _, source, count, want): Case) -> Result<(), Stop> {
    if are_same(reads_in(store, source, count), want) {
        Ok(())
    } else {
        Err(unlike(store.history()))
    }
}

fn are_same(given: Reads, want: Reads) -> bool {
    given.reads == want.reads
        && given.size == want.size
        && given.reaches_last == want.reaches_last
        && given.reaches_first == want.reaches_first
}

/// What came of the reads, of which those are counted that are from the source, of so many offered.
fn reads_in(store: &Store, source: u32, count: u32) -> Reads {
    Reads {
        reads: count_reads(store.history(), source, count),
        size: store.reach().size(),
        reaches_last: reaches(store, 1, 4_001),
        reaches_first: reaches(store, 4_001, 1),
    }
}

/// A store in which session 1 has written the presence of row 1, and then the session has read it 4,000 times.
fn read_4000_times(alloc: Global, session: u32, level: Level) -> Result<Store, Stop> {
    let store = write_in(stage(alloc, 2)?, 1)?;
    read_in(store, session, level)
}

fn write_in(store: Store, session: u32) -> Result<Store, Stop> {
    let mut book = idle_seat(store, session)?;
    let came = write_alone(&mut book, Level::Rc);
    kept(book.into_store(), came)
}

fn read_in(store: Store, session: u32, level: Level) -> Result<Store, Stop> {
    let mut book = idle_seat(store, session)?;
    let came = read_many(&mut book, level, 0, READERS);
    kept(book.into_store(), came)
}

/// How many reads of the history are from the source, of so many offered.
fn count_reads(history: &History, source: u32, count: u32) -> usize {
    let mut reads = 0usize;
    for event in history.events() {
        if is_read(event, source, count) {
            reads = reads.saturating_add(1);
        }
    }
    reads
}

fn is_read(event: &Event, source: u32, count: u32) -> bool {
    match event {
        Event::Read {
            source: from,
            count: of,
            ..
        } => *from == source && *of == count,
        _ => false,
    }
}

/// Whether each commit order has the first before the second; no where one hasn't begun.
fn reaches(store: &Store, first: u32, second: u32) -> bool {
    let reach = store.reach();
    let size = reach.size();
    first < size && second < size && reach.reaches(first, second)
}
