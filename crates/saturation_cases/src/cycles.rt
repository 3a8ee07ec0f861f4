// A history at Read Atomic that no commit order meets: a transaction finds one row of another, and misses the other row.
ghost use Rattle.std.specs.Prelude.{◌≡◌, ◌↔◌, pos, [], codes, OnOk, IsTrue};
ghost use Rattle.graph_base.specs.Walk.{IsInRange};
ghost use Rattle.saturation_cases.specs.Fractured.{missed};

use cell_base::{Cell, Key, Level, Memory, Value};
use graph_base::{Edge, Graph};
use held_values::{kept, without};
use history_core::{BookFault, Event, History, InitialState};
use order_witness::{Verdict, order_or_cycle};
use saturation::forced;
use std::alloc::Global;
use std::test::Fail;
use table_samples::{presence, table};

/// Whether the row of key 2 is there.
fn second_row() -> Cell
    ensures { result ≡ Cell.Presence 0 (Key.Int (pos 2)) }
{
    Cell::Presence(0, Key::Int(2))
}

/// Two sessions and a table, and transaction 1 of the first session, which misses the first row.
fn miss(alloc: Global, history: &mut History) -> Result<(), BookFault>
    requires events { history.old.events ≡ [] }
    requires initial { history.old.initial ≡ [] }
    ensures events { OnOk result (history.new.events ≡ missed (codes "t") (Key.Int (pos 1))) }
    ensures initial { OnOk result (history.new.initial ≡ []) }
{
    history.push(Event::Open { session: 1 })?;
    history.push(Event::Open { session: 2 })?;
    history.push_define(1, table(alloc)?)?;
    history.push(Event::Begin {
        session: 1,
        level: Level::Ra,
    })?;
    history.push(Event::Read {
        session: 1,
        cell: presence(),
        source: 0,
        count: 1,
        word: 0,
        value: Value::Flag(false),
    })?;
    Ok(())
}

/// Transaction 2 of the second session, which makes both rows, and then the first session finds the second row.
fn find_half(history: &mut History) -> Result<(), BookFault>
    requires events { history.old.events ≡ missed (codes "t") (Key.Int (pos 1)) }
    requires initial { history.old.initial ≡ [] }
{
    history.push(Event::Begin {
        session: 2,
        level: Level::Ra,
    })?;
    history.push(Event::Write {
        session: 2,
        cell: presence(),
        value: Value::Flag(true),
    })?;
    history.push(Event::Write {
        session: 2,
        cell: second_row(),
        value: Value::Flag(true),
    })?;
    history.push(Event::Commit { session: 2 })?;
    history.push(Event::Read {
        session: 1,
        cell: second_row(),
        source: 2,
        count: 1,
        word: 0,
        value: Value::Flag(true),
    })?;
    Ok(())
}

fn fractured_history(alloc: Global) -> Result<History, BookFault> {
    let mut history = History::new(alloc, Level::Ra, InitialState::empty(alloc));
    let came = fracture(alloc, &mut history);
    kept(history, came)
}

fn fracture(alloc: Global, history: &mut History) -> Result<(), BookFault>
    requires events { history.old.events ≡ [] }
    requires initial { history.old.initial ≡ [] }
{
    miss(alloc, history)?;
    find_half(history)
}

/// Whether all numbers of the graph's edges are below its size.
fn is_in_range(graph: &Graph) -> bool
    ensures { IsTrue result ↔ IsInRange graph.now.size graph.now.edges.items }
{
    graph
        .edges
        .iter()
        .all(|edge| edge.before < graph.size && edge.after < graph.size)
}

/// Whether each of the pairs is an edge, and each edge one of them.
fn are_pairs(edges: &[Edge], pairs: &[(u32, u32)]) -> bool {
    edges
        .iter()
        .all(|edge| pairs.contains(&(edge.before, edge.after)))
        && pairs.iter().all(|pair| edges
            .iter()
            .any(|edge| edge.before == pair.0 && edge.after == pair.1))
}

/// Whether these pairs, in this order, are the cycle that the graph is answered.
fn has_cycle(alloc: Global, graph: &Graph, pairs: &[(u32, u32)]) -> Result<bool, Memory> {
    if !is_in_range(graph) {
        return Ok(false);
    }
    match order_or_cycle(alloc, graph)? {
        Verdict::Order(_) => Ok(false),
        Verdict::Cycle(cycle) => Ok(is_list(cycle.as_slice(), pairs)),
    }
}

fn is_list(edges: &[Edge], pairs: &[(u32, u32)]) -> bool {
    edges.len() == pairs.len()
        && edges.iter().zip(pairs).all(|(edge, pair)| edge.before == pair.0 && edge.after == pair.1)
}

/// What of the graph isn't as it was worked out, or an empty text.
fn other(alloc: Global, graph: &Graph) -> Result<&'static str, Memory> {
    if graph.size != 3 {
        return Ok("size");
    }
    if !are_pairs(graph.edges.as_slice(), &[(0, 1), (0, 2), (2, 0), (2, 1)]) {
        return Ok("edges");
    }
    if !has_cycle(alloc, graph, &[(0, 2), (2, 0)])? {
        return Ok("cycle");
    }
    Ok("")
}

/// The same of what the history forces.
fn other_forced(alloc: Global, history: &History) -> Result<&'static str, Memory> {
    let graph = forced(alloc, history)?;
    let other = other(alloc, &graph);
    without(graph, other)
}

/// The same of a history with a fractured read.
fn other_fractured(alloc: Global) -> Result<&'static str, BookFault> {
    let history = fractured_history(alloc)?;
    let other = other_forced(alloc, &history);
    Ok(without(history, other)?)
}

/// At Read Atomic transaction 1 sees transaction 2 once it has read from it. It has missed the row of key 1, which 2 wrote, so 2 would have to
/// stand before the initial transaction.
#[test]
fn a_fractured_read_forces_a_cycle(rt: HostRuntime) -> Result<(), Fail> {
    assert_eq!(&rt; other_fractured(rt.alloc())?, "");
    Ok(())
}
