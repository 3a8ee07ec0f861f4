// What is forced, and which writes may be read, before any transaction.
use cell_base::{Cell, Level, Memory};
use graph_base::Graph;
use held_values::without;
use history_core::{History, InitialState};
use saturation::{candidates, forced, holds_cycle, is_writer};
use std::alloc::Global;
use table_samples::presence;

/// A history without rows and events.
fn empty_history(alloc: Global) -> History {
    History::new(alloc, Level::Cc, InitialState::empty(alloc))
}

/// How many pairs are forced, and among how many transactions.
fn count_forced(alloc: Global, history: &History) -> Result<(u32, usize), Memory> {
    let Graph { size, edges } = forced(alloc, history)?;
    Ok((size, edges.len()))
}

/// Whether a graph of two transactions without edges has a cycle.
fn has_cycle(alloc: Global) -> Result<bool, Memory> {
    holds_cycle(
        alloc,
        &Graph {
            size: 2,
            edges: Vec::new(alloc),
        },
    )
}

/// Whether the initial transaction alone may be read from.
fn has_one_candidate(alloc: Global, history: &History, cell: &Cell) -> Result<bool, Memory> {
    Ok(candidates(alloc, history, cell)?.as_slice() == [0].as_slice())
}

/// What isn't so before any transaction, or an empty text.
fn other_at(alloc: Global, history: &History, cell: &Cell) -> Result<&'static str, Memory> {
    if count_forced(alloc, history)? != (1, 0) {
        return Ok("forced");
    }
    if !is_writer(history, 0, cell) {
        return Ok("initial transaction");
    }
    if is_writer(history, 1, cell) {
        return Ok("first transaction");
    }
    if !has_one_candidate(alloc, history, cell)? {
        return Ok("candidates");
    }
    if has_cycle(alloc)? {
        return Ok("cycle");
    }
    Ok("")
}

/// The same at the presence of a row.
fn other(alloc: Global, history: &History) -> Result<&'static str, Memory> {
    let cell = presence();
    let other = other_at(alloc, history, &cell);
    without(cell, other)
}

#[test]
fn history_without_events(rt: HostRuntime) -> Result<(), Memory> {
    let history = empty_history(rt.alloc());
    let other = other(rt.alloc(), &history);
    assert_eq!(&rt; without(history, other)?, "");
    Ok(())
}
