// What reads see and force, found by hand. Transactions are numbered from 1 in the order of their begins. The answers at a level are the same
// whatever the level that the transactions run at.
use crate::answers::{forces, sees};
use crate::histories::{CHAINED, LISTED, LOST, ROLLED_BACK, SCANNED, U1, UPDATED};
use crate::play::Spot::{Field, Presence};
use crate::play::{Spot, Step, play};
use crate::worked::Case::{Further, Made};
use cell_base::Level;
use cell_base::Level::{Cc, Ra, Rc};
use held_values::without;
use history_core::History;
use seat_samples::Stop;
use std::alloc::Global;

/// What is so of a history, by a level.
#[derive(Clone, Copy)]
enum Case<'a> {
    /// What a further read of the session forces: the level, the cell, the source, and the pairs in order.
    Further(Level, Spot, u32, &'a [(u32, u32)]),
    /// What a read sees: the level, its reader, how many events the history has after it, and the transactions.
    Made(Level, u32, u32, &'a [u32]),
}

/// The column v of the row of key 1 in the first table.
const F1: Spot = Field(0, 1);

/// Whether the row of key 1 is there in the first table.
const P1: Spot = Presence(0, 1);

/// Whether the row of key 2 is there in the first table.
const P2: Spot = Presence(0, 2);

/// The number, from 1 on, of the first of these cases that isn't so, whatever the level that the transactions run at, or 0. Further reads are
/// those of the session.
fn first_other(
    alloc: Global,
    steps: &[(u32, Step)],
    session: u32,
    cases: &[Case],
) -> Result<u32, Stop> {
    for level in [Rc, Ra, Cc] {
        let number = first_other_at(alloc, level, steps, session, cases)?;
        if number > 0 {
            return Ok(number);
        }
    }
    Ok(0)
}

fn first_other_at(
    alloc: Global,
    level: Level,
    steps: &[(u32, Step)],
    session: u32,
    cases: &[Case],
) -> Result<u32, Stop> {
    let store = play(alloc, level, steps)?;
    let number = first_other_in(alloc, store.history(), session, cases);
    without(store, number)
}

fn first_other_in(
    alloc: Global,
    history: &History,
    session: u32,
    cases: &[Case],
) -> Result<u32, Stop> {
    let mut number = 0u32;
    for case in cases {
        number = number.saturating_add(1);
        if !is_so(alloc, history, session, *case)? {
            return Ok(number);
        }
    }
    Ok(0)
}

fn is_so(alloc: Global, history: &History, session: u32, case: Case) -> Result<bool, Stop> {
    match case {
        Further(level, spot, source, want) => {
            forces(alloc, history, level, session, spot, source, want)
        }
        Made(level, reader, back, want) => sees(alloc, history, level, reader, back, want),
    }
}

/// At Read Committed the last read before sees nothing, and from its source on the first write counts; at the other levels both writes of the own
/// session count from the start.
const OF_UPDATED: [Case<'static>; 11] = [
    Further(Rc, F1, 0, &[(0, 3), (1, 0)]),
    Further(Rc, F1, 1, &[(1, 3)]),
    Further(Rc, F1, 2, &[(1, 2), (2, 3)]),
    Further(Ra, F1, 0, &[(0, 3), (1, 0), (2, 0)]),
    Further(Ra, F1, 1, &[(1, 3), (2, 1)]),
    Further(Ra, F1, 2, &[(0, 2), (1, 2), (2, 3)]),
    Further(Cc, F1, 1, &[(1, 3), (2, 1)]),
    Further(Cc, F1, 2, &[(0, 2), (1, 2), (2, 3)]),
    Made(Rc, 3, 0, &[]),
    Made(Ra, 3, 0, &[0, 1, 2]),
    Made(Cc, 3, 0, &[0, 1, 2]),
];

#[test]
fn an_update_in_the_own_session(rt: HostRuntime) -> Result<(), Stop> {
    assert_eq!(&rt; first_other(rt.alloc(), &UPDATED, 1, &OF_UPDATED)?, 0);
    Ok(())
}

/// A source seen only now brings the initial row that was read earlier into question, but at Read Committed.
const OF_LOST: [Case<'static>; 6] = [
    Further(Rc, P2, 0, &[(0, 1)]),
    Further(Rc, P2, 2, &[(0, 2), (2, 1)]),
    Further(Ra, P2, 0, &[(0, 1)]),
    Further(Ra, P2, 2, &[(0, 2), (2, 0), (2, 1)]),
    Further(Cc, P2, 0, &[(0, 1)]),
    Further(Cc, P2, 2, &[(0, 2), (2, 0), (2, 1)]),
];

#[test]
fn half_of_a_transaction(rt: HostRuntime) -> Result<(), Stop> {
    assert_eq!(&rt; first_other(rt.alloc(), &LOST, 1, &OF_LOST)?, 0);
    Ok(())
}

/// What the source of an earlier read has read from counts at Causal Consistency alone.
const OF_CHAINED: [Case<'static>; 14] = [
    Further(Rc, P1, 0, &[(0, 3)]),
    Further(Rc, P1, 1, &[(1, 3)]),
    Further(Ra, P1, 0, &[(0, 3)]),
    Further(Ra, P1, 1, &[(0, 1), (1, 3)]),
    Further(Cc, P1, 0, &[(0, 3), (1, 0)]),
    Further(Cc, P1, 1, &[(0, 1), (1, 3)]),
    Made(Rc, 3, 0, &[2]),
    Made(Rc, 3, 1, &[]),
    Made(Ra, 3, 0, &[0, 2]),
    Made(Ra, 3, 1, &[0, 2]),
    Made(Cc, 3, 0, &[0, 1, 2]),
    Made(Rc, 2, 6, &[1]),
    Made(Ra, 2, 6, &[0, 1]),
    Made(Cc, 2, 6, &[0, 1]),
];

#[test]
fn a_source_of_a_source(rt: HostRuntime) -> Result<(), Stop> {
    assert_eq!(&rt; first_other(rt.alloc(), &CHAINED, 3, &OF_CHAINED)?, 0);
    Ok(())
}

/// A scan reads the presence of each key that it doesn't list from the initial transaction: a later read sees that one at Read Committed, and a
/// source seen only now must not have written such a key.
const OF_SCANNED: [Case<'static>; 6] = [
    Further(Rc, U1, 0, &[(0, 1)]),
    Further(Rc, U1, 2, &[(0, 2), (2, 1)]),
    Further(Ra, U1, 0, &[(0, 1)]),
    Further(Ra, U1, 2, &[(0, 2), (2, 0), (2, 1)]),
    Further(Cc, U1, 0, &[(0, 1)]),
    Further(Cc, U1, 2, &[(0, 2), (2, 0), (2, 1)]),
];

#[test]
fn a_scan_without_rows(rt: HostRuntime) -> Result<(), Stop> {
    assert_eq!(&rt; first_other(rt.alloc(), &SCANNED, 1, &OF_SCANNED)?, 0);
    Ok(())
}

/// A key that the scan lists is nothing that it reads.
const OF_LISTED: [Case<'static>; 6] = [
    Further(Rc, U1, 2, &[(0, 2), (2, 3)]),
    Further(Ra, U1, 2, &[(0, 2), (2, 3)]),
    Further(Cc, U1, 2, &[(0, 2), (2, 3)]),
    Made(Rc, 3, 0, &[]),
    Made(Ra, 3, 0, &[0]),
    Made(Cc, 3, 0, &[0]),
];

#[test]
fn a_scan_with_a_row(rt: HostRuntime) -> Result<(), Stop> {
    assert_eq!(&rt; first_other(rt.alloc(), &LISTED, 3, &OF_LISTED)?, 0);
    Ok(())
}

/// A transaction that was rolled back writes nothing, and what it read counts.
const OF_ROLLED_BACK: [Case<'static>; 6] = [
    Further(Rc, P1, 0, &[(0, 3)]),
    Further(Ra, P1, 0, &[(0, 3)]),
    Further(Ra, P1, 1, &[(0, 1), (1, 3)]),
    Further(Cc, P1, 0, &[(0, 3), (1, 0)]),
    Further(Cc, P1, 1, &[(0, 1), (1, 3)]),
    Further(Cc, F1, 1, &[(0, 1), (1, 3)]),
];

#[test]
fn a_rollback(rt: HostRuntime) -> Result<(), Stop> {
    assert_eq!(&rt;
        first_other(rt.alloc(), &ROLLED_BACK, 2, &OF_ROLLED_BACK)?,
        0
    );
    Ok(())
}
