// Trials beside the pairs that saturation finds, and beside the offers of a store.
ghost use Rattle.std.specs.Prelude.{◌↔◌, IsTrue, IfOk};
ghost use Rattle.graph_base.specs.Walk.{IsInRange};

use crate::answers::trial_at;
use crate::histories::{CHAINED, LISTED, LOST, ROLLED_BACK, SCANNED, U1, UPDATED};
use crate::play::Spot::{Field, Presence};
use crate::play::{Spot, Step, make, offer, play};
use cell_base::Level;
use cell_base::Level::{Cc, Ra, Rc};
use graph_base::{Edge, Graph};
use held_values::{beside, kept, without};
use history_core::History;
use saturation::{forced, holds_cycle, is_writer};
use seat_samples::Stop;
use std::alloc::Global;
use valid_writes::Store;

/// What is forced after a read was forced before, or is in the read's trial, and the other way round; and the writes that are offered are those
/// whose trial closes no cycle with what was forced before. At each level over six histories.
#[test]
fn trials_are_what_reads_add(rt: HostRuntime) -> Result<(), Stop> {
    assert_eq!(&rt; first_other(rt.alloc(), &AGREEING)?, "");
    Ok(())
}

/// A history, and the next read of a session: the history's name, its steps, the session, and the cell.
type Next<'a> = (&'a str, &'a [(u32, Step)], u32, Spot);

const AGREEING: [Next<'static>; 6] = [
    ("UPDATED", &UPDATED, 1, Field(0, 1)),
    ("LOST", &LOST, 1, Presence(0, 2)),
    ("CHAINED", &CHAINED, 3, Presence(0, 1)),
    ("SCANNED", &SCANNED, 1, U1),
    ("LISTED", &LISTED, 3, U1),
    ("ROLLED_BACK", &ROLLED_BACK, 2, Presence(0, 1)),
];

/// The name of the first history of which it isn't so, or an empty one.
fn first_other<'a>(alloc: Global, rows: &[Next<'a>]) -> Result<&'a str, Stop> {
    for (name, steps, session, spot) in rows {
        if !agree(alloc, steps, *session, *spot)? {
            return Ok(*name);
        }
    }
    Ok("")
}

/// Whether all of this is so at each level.
fn agree(alloc: Global, steps: &[(u32, Step)], session: u32, spot: Spot) -> Result<bool, Stop> {
    for level in [Rc, Ra, Cc] {
        if !agree_at(alloc, level, steps, session, spot)? {
            return Ok(false);
        }
    }
    Ok(true)
}

/// Whether it is so of each source that the cell has.
fn agree_at(
    alloc: Global,
    level: Level,
    steps: &[(u32, Step)],
    session: u32,
    spot: Spot,
) -> Result<bool, Stop> {
    for source in 0..3 {
        if is_source(alloc, level, steps, spot, source)?
            && !agrees(alloc, level, steps, session, spot, source)?
        {
            return Ok(false);
        }
    }
    Ok(true)
}

/// Whether the transaction writes the cell.
fn is_source(
    alloc: Global,
    level: Level,
    steps: &[(u32, Step)],
    spot: Spot,
    source: u32,
) -> Result<bool, Stop> {
    let store = play(alloc, level, steps)?;
    let so = is_source_in(store.history(), spot, source);
    Ok(without(store, so))
}

fn is_source_in(history: &History, spot: Spot, source: u32) -> bool {
    let cell = spot.cell();
    let so = is_writer(history, source, &cell);
    without(cell, so)
}

/// Whether it is so of the read.
fn agrees(
    alloc: Global,
    level: Level,
    steps: &[(u32, Step)],
    session: u32,
    spot: Spot,
    source: u32,
) -> Result<bool, Stop> {
    let store = play(alloc, level, steps)?;
    let both = forced_with_trial(alloc, store.history(), level, session, spot, source);
    let (store, both) = beside(store, both)?;
    let read = Step::Read(spot, source);
    let is_offered = is_offered(&store, session, spot, source);
    let so = agrees_with(alloc, store, level, session, read, is_offered, &both);
    without(both, so)
}

/// Whether it is so of the read, for what was forced before and what is in the trial.
fn agrees_with(
    alloc: Global,
    store: Store,
    level: Level,
    session: u32,
    read: Step,
    is_offered: Result<bool, Stop>,
    both: &Graph,
) -> Result<bool, Stop> {
    let (store, is_offered) = beside(store, is_offered)?;
    let (store, closes) = beside(store, closes_cycle(alloc, both))?;
    if closes == is_offered {
        return Ok(without(store, false));
    }
    if !is_offered {
        return Ok(without(store, true));
    }
    adds(alloc, store, level, session, read, both)
}

/// Whether the read is offered.
fn is_offered(store: &Store, session: u32, spot: Spot, source: u32) -> Result<bool, Stop> {
    let cell = spot.cell();
    let sources = offer(store, session, &cell);
    let sources = without(cell, sources)?;
    let so = sources.as_slice().contains(&source);
    Ok(without(sources, so))
}

/// What the history forces, and the trial of the read.
fn forced_with_trial(
    alloc: Global,
    history: &History,
    level: Level,
    session: u32,
    spot: Spot,
    source: u32,
) -> Result<Graph, Stop> {
    let mut graph = forced(alloc, history)?;
    let added = add_trial(
        alloc,
        &mut graph.edges,
        history,
        level,
        session,
        spot,
        source,
    );
    kept(graph, added)
}

/// Adds the trial of the read.
fn add_trial(
    alloc: Global,
    edges: &mut Vec<Edge>,
    history: &History,
    level: Level,
    session: u32,
    spot: Spot,
    source: u32,
) -> Result<(), Stop> {
    let pairs = trial_at(alloc, history, level, session, spot, source)?;
    let added = add_all(edges, pairs.as_slice());
    without(pairs, added)
}

fn add_all(edges: &mut Vec<Edge>, more: &[Edge]) -> Result<(), Stop> {
    for edge in more {
        edges.push(*edge)?;
    }
    Ok(())
}

/// Whether just these pairs are forced after the step.
fn adds(
    alloc: Global,
    store: Store,
    level: Level,
    session: u32,
    step: Step,
    want: &Graph,
) -> Result<bool, Stop> {
    let store = make(store, level, session, step)?;
    let so = is_forced(alloc, store.history(), want);
    without(store, so)
}

/// Whether just these pairs are forced.
fn is_forced(alloc: Global, history: &History, want: &Graph) -> Result<bool, Stop> {
    let found = forced(alloc, history)?;
    let so = are_same(found.edges.as_slice(), want.edges.as_slice());
    Ok(without(found, so))
}

/// Whether all numbers of the graph's edges are below its size.
fn is_in_range(graph: &Graph) -> bool
    ensures { IsTrue result ↔ IsInRange graph.now.size graph.now.edges.items }
{
    graph
        .edges
        .iter()
        .all(|edge| edge.before < graph.size && edge.after < graph.size)
}

/// Whether the graph has a cycle.
fn closes_cycle(alloc: Global, graph: &Graph) -> Result<bool, Stop> {
    if !is_in_range(graph) {
        return Err(Stop::Unlike(0));
    }
    Ok(holds_cycle(alloc, graph)?)
}

/// Whether the lists have the same edges.
fn are_same(first: &[Edge], second: &[Edge]) -> bool {
    first.iter().all(|edge| second.contains(edge)) && second.iter().all(|edge| first.contains(edge))
}
