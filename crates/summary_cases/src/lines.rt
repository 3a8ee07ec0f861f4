// The lines of two histories.
use crate::play::play;
use crate::steps::Step;
use crate::steps::Step::{Begin, Commit, Find, Make, Open, OpenFirst, Read, RollBack, Write};
use cell_base::Level;
use held_values::without;
use history_summary::summary;
use seat_samples::Stop;
use std::alloc::Global;

/// The line of a level and a seed, for what sessions do one after another.
fn line_of(alloc: Global, level: Level, seed: u64, steps: &[(u32, Step)]) -> Result<Vec<u8>, Stop> {
    let store = play(alloc, level, steps)?;
    let line = summary(alloc, level, seed, store.history());
    Ok(without(store, line)?)
}

/// Nothing has happened, and the seed is the greatest one.
#[test]
fn a_history_without_events(rt: HostRuntime) -> Result<(), Stop> {
    assert_eq!(&rt;
        line_of(rt.alloc(), Level::Cc, u64::MAX, &[])?.as_slice(),
        b"sim cc 18446744073709551615 sessions 0 transactions 0 events 0 reads 0 offered 0 weak 0\n".as_slice()
    );
    Ok(())
}

/// All transactions run at Read Committed. In brackets stand the numbers of the events, and after a read what it was offered.
///
/// Session 1 opens (1) and defines the table (2). Transaction 1 begins (3), reads the presence (4: 0), writes the row (5, 6) and commits (7).
/// Session 2 opens (8). Transaction 2 begins (9), reads the field from 0, a weak read (10: 0 1), and from 1 (11: 0 1), writes it (12) and is
/// rolled back (13). Transaction 3 begins (14), reads the field from 1 (15: 0 1) and commits (16).
/// Transaction 4 of session 1 begins (17) and writes the field (18). Transaction 5 of session 2 begins (19), writes the field (20) and commits
/// (21), and then 4 commits (22). Transaction 6 of session 2 begins (23), reads the field from 5, a weak read since 4 committed last
/// (24: 0 1 4 5), then from 4 (25: 4 5), and commits (26).
const TWO_SESSIONS: [(u32, Step); 25] = [
    (1, OpenFirst),
    (1, Begin),
    (1, Find(0)),
    (1, Make),
    (1, Write(10)),
    (1, Commit),
    (2, Open),
    (2, Begin),
    (2, Read(0)),
    (2, Read(1)),
    (2, Write(20)),
    (2, RollBack),
    (2, Begin),
    (2, Read(1)),
    (2, Commit),
    (1, Begin),
    (1, Write(40)),
    (2, Begin),
    (2, Write(50)),
    (2, Commit),
    (1, Commit),
    (2, Begin),
    (2, Read(3)),
    (2, Read(0)),
    (2, Commit),
];

#[test]
fn a_history_of_two_sessions(rt: HostRuntime) -> Result<(), Stop> {
    assert_eq!(&rt;
        line_of(rt.alloc(), Level::Rc, 42, &TWO_SESSIONS)?.as_slice(),
        b"sim rc 42 sessions 2 transactions 6 events 26 reads 6 offered 13 weak 2\n".as_slice()
    );
    Ok(())
}
