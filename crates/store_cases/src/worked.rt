// The cases, each by what it shows.
use crate::cases::{
    A_PART, AFTER_A_SCAN, CAUSE_SEEN, CAUSE_UNSEEN, COMMITTED_AND_OWN, FIRST_ROW_UPDATED,
    FIRST_ROWS, FIRST_ROWS_LISTED, FREE, INTEGERS, LAST_WRITE, LONE_SESSION, LOST_UPDATE, MISSED,
    NEVER_BACK, NEW_VALUE, NEW_VALUE_ALONE, NEWER_LATER, NO_PART, NO_ROLLED_BACK_ROW, NULLS,
    OLD_VALUE, ONE_ORDER, OWN_LEVEL, OWN_ROW, PRESENCES, ROLLED_BACK_FREE, ROLLED_BACK_READ,
    SCAN_KEPT, SCAN_OVERTAKEN, SECOND_SESSION, SEEN, TAKEN, THIRD_WRITER,
};
use crate::play::{Case, hold, play};
use cell_base::Level;
use graph_base::Graph;
use held_values::without;
use saturation::forced;
use seat_samples::Stop;
use std::alloc::Global;
use std::test::Fail;
use valid_writes::Store;

const MISSED_OR_SEEN: &[Case] = &[MISSED, SEEN];

#[test]
fn a_session_misses_or_sees_its_own_row(rt: HostRuntime) -> Result<(), Stop> {
    hold(rt.alloc(), MISSED_OR_SEEN)
}

const OLD_OR_NEW: &[Case] = &[OLD_VALUE, NEW_VALUE, NEW_VALUE_ALONE];

#[test]
fn an_old_value_is_read_at_read_committed_without(rt: HostRuntime) -> Result<(), Stop> {
    hold(rt.alloc(), OLD_OR_NEW)
}

const OWN_WRITES: &[Case] = &[OWN_ROW, LAST_WRITE];

#[test]
fn a_transaction_reads_its_own_writes(rt: HostRuntime) -> Result<(), Stop> {
    hold(rt.alloc(), OWN_WRITES)
}

const TAKEN_OR_FREE: &[Case] = &[TAKEN, FREE];

#[test]
fn a_key_is_found_taken_or_free(rt: HostRuntime) -> Result<(), Stop> {
    hold(rt.alloc(), TAKEN_OR_FREE)
}

const LOST: &[Case] = &[LOST_UPDATE];

#[test]
fn an_update_is_lost(rt: HostRuntime) -> Result<(), Stop> {
    hold(rt.alloc(), LOST)
}

const FRACTURED: &[Case] = &[NO_PART, A_PART];

#[test]
fn a_read_is_fractured_at_read_committed_without(rt: HostRuntime) -> Result<(), Stop> {
    hold(rt.alloc(), FRACTURED)
}

const FORWARD: &[Case] = &[NEVER_BACK, NEWER_LATER, THIRD_WRITER];

#[test]
fn a_transaction_goes_forward_without(rt: HostRuntime) -> Result<(), Stop> {
    hold(rt.alloc(), FORWARD)
}

const CAUSES: &[Case] = &[CAUSE_UNSEEN, CAUSE_SEEN, OWN_LEVEL];

#[test]
fn a_cause_is_seen_by_the_level_of_the_reader(rt: HostRuntime) -> Result<(), Stop> {
    hold(rt.alloc(), CAUSES)
}

const SCANS: &[Case] = &[SCAN_KEPT, SCAN_OVERTAKEN, AFTER_A_SCAN];

#[test]
fn a_scan_counts_as_reads(rt: HostRuntime) -> Result<(), Stop> {
    hold(rt.alloc(), SCANS)
}

const ROLLED_BACK: &[Case] = &[ROLLED_BACK_READ, ROLLED_BACK_FREE, NO_ROLLED_BACK_ROW];

#[test]
fn what_was_rolled_back_is_no_write_but_a_read(rt: HostRuntime) -> Result<(), Stop> {
    hold(rt.alloc(), ROLLED_BACK)
}

const LISTED: &[Case] = &[COMMITTED_AND_OWN, PRESENCES, INTEGERS, NULLS];

#[test]
fn a_scan_lists_rows_in_order(rt: HostRuntime) -> Result<(), Stop> {
    hold(rt.alloc(), LISTED)
}

const FROM_THE_START: &[Case] = &[FIRST_ROWS, FIRST_ROWS_LISTED, FIRST_ROW_UPDATED];

#[test]
fn rows_are_there_from_the_start(rt: HostRuntime) -> Result<(), Stop> {
    hold(rt.alloc(), FROM_THE_START)
}

const MIXED: &[Case] = &[LONE_SESSION, SECOND_SESSION];

#[test]
fn levels_mix(rt: HostRuntime) -> Result<(), Stop> {
    hold(rt.alloc(), MIXED)
}

/// The least order has the writer that was read from before the reader.
#[test]
fn a_fractured_read_has_an_order(rt: HostRuntime) -> Result<(), Fail> {
    let order = order_after(rt.alloc(), &A_PART)?;
    assert_eq!(&rt; order.as_slice(), [0, 2, 1].as_slice());
    Ok(())
}

/// The order of the store after the case at Read Committed.
fn order_after(alloc: Global, case: &Case) -> Result<Vec<u32>, Stop> {
    let store = play(alloc, Level::Rc, case)?;
    let order = order_of(&store);
    without(store, order)
}

fn order_of(store: &Store) -> Result<Vec<u32>, Stop> {
    Ok(store.order()?)
}

/// All sessions agree on an order of two writers, once one has read from both.
#[test]
fn two_writers_have_one_order(rt: HostRuntime) -> Result<(), Fail> {
    assert_eq!(&rt; forces_after(rt.alloc(), &ONE_ORDER, 2, 3)?, true);
    Ok(())
}

/// Whether the history after the case at Read Committed forces the pair.
fn forces_after(alloc: Global, case: &Case, before: u32, after: u32) -> Result<bool, Stop> {
    let store = play(alloc, Level::Rc, case)?;
    let is_forced = forces(alloc, &store, before, after);
    without(store, is_forced)
}

/// Whether the history forces the pair.
fn forces(alloc: Global, store: &Store, before: u32, after: u32) -> Result<bool, Stop> {
    let graph = forced(alloc, store.history())?;
    let is_forced = has_pair(&graph, before, after);
    Ok(without(graph, is_forced))
}

fn has_pair(graph: &Graph, before: u32, after: u32) -> bool {
    graph
        .edges
        .iter()
        .any(|edge| edge.before == before && edge.after == after)
}
