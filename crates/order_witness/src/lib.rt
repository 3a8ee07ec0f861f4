//! A list that extends all edges of a graph, or a cycle of it.
//!
//! `order_or_cycle` answers an order of the numbers below the graph's size in which each edge leads from an earlier place
//! to a later one, at each place the least number that may stand there, or a cycle of the graph. It stands on `graph_base`.
#![tactic(auto)]

ghost use Rattle.std.specs.Prelude.{◌≡◌, ◌<◌, ◌≤◌, ◌^◌, ◌↔◌, ℕ, All, Contains, MatchOption, IfOk, IfSome, IfNone, length, IsTrue, slice_index_or, false, true, reverse, drop};
ghost use Rattle.graph_base.specs.Walk.{IsInRange, IsCycle, HasCycle};
ghost use Rattle.graph_base.specs.Order.{IsOrder, TakesLeast};
ghost use Rattle.order_witness.specs.Marks.{IsMarked, IsUnmarked, IsReady, IsFree};
ghost use Rattle.order_witness.specs.Verdict.{IsRight};

use cell_base::Memory;
use graph_base::{Edge, Graph};
use std::alloc::{AllocError, Global};

/// What `order_or_cycle` answers.
#[derive(Debug, Drop)]
pub enum Verdict {
    /// The numbers below the size, in an order that extends all edges.
    Order(Vec<u32>),
    /// Edges of the graph, each of which begins where the one before ends, the first where the last ends.
    Cycle(Vec<Edge>),
}

/// An edge into `n` from a number that is not marked.
fn blocking_edge(edges: &[Edge], marks: &[bool], n: u32) -> Option<Edge>
    requires { IsInRange (length marks.now) edges.now }
    ensures found { IfSome result (λ e. Contains edges.now e) }
    ensures blocks { IfSome result (λ e. e.after ≡ n) }
    ensures unmarked { IfSome result (λ e. IsUnmarked marks.now e.before) }
    ensures ready { IfNone result (IsReady edges.now marks.now n) }
{
    edges
        .iter()
        .find(|edge| edge.after == n && !marks[edge.before as usize])
        .copied()
}

/// The least number that may come next.
fn next_free(edges: &[Edge], marks: &[bool]) -> Option<u32>
    requires in_range { IsInRange (length marks.now) edges.now }
    requires small { length marks.now < 2 ^ 32 }
    ensures free { IfSome result (λ n. IsFree edges.now marks.now n) }
    ensures least { IfSome result (λ n. (m : ℕ) → IsFree edges.now marks.now m → n ≤ m) }
    ensures none { IfNone result ((m : ℕ) → IsFree edges.now marks.now m → ⊥) }
{
    for n in 0..marks.len() {
        if !marks[n] && blocking_edge(edges, marks, n as u32).is_none() {
            return Some(n as u32);
        }
    }
    None
}

/// The first number that is not marked.
fn first_unmarked(marks: &[bool]) -> Option<usize>
    ensures found { IfSome result (IsUnmarked marks.now) }
    ensures none { IfNone result ((n : ℕ) → n < length marks.now → IsMarked marks.now n) }
{
    marks.iter().position(|mark| !*mark)
}

/// The edges from `first` on, the last first.
fn reversed_from(alloc: Global, path: &[Edge], first: usize) -> Result<Vec<Edge>, AllocError>
    requires { first ≤ length path.now }
    ensures { IfOk result (λ edges. edges.items ≡ reverse (drop first path.now)) }
{
    path[first..].iter().rev().copied().collect(alloc)
}

/// A cycle among the numbers that are not marked, none of which may come next.
fn cycle_from(
    alloc: Global,
    edges: &[Edge],
    marks: &[bool],
    start: u32,
) -> Result<Vec<Edge>, Memory>
    requires in_range { IsInRange (length marks.now) edges.now }
    requires start { IsUnmarked marks.now start }
    requires stuck { (n : ℕ) → IsFree edges.now marks.now n → ⊥ }
    ensures { IfOk result (λ cycle. IsCycle edges.now cycle.items) }
{
    // The edges from `at` to `start`, the last first, and where in it each number was met.
    let mut path: Vec<Edge> = Vec::new(alloc);
    let mut met: Vec<Option<usize>> = vec![in alloc; None; marks.len()]?;
    let mut at = start;
    loop {
        if let Some(first) = met[at as usize] {
            return Ok(reversed_from(alloc, &path, first)?);
        }
        let Some(edge) = blocking_edge(edges, marks, at) else {
            unreachable!()
        };
        met[at as usize] = Some(path.len());
        path.push(edge)?;
        at = edge.before;
    }
}

/// Lists the numbers, at each place the least that may come next, or finds a cycle.
pub fn order_or_cycle(alloc: Global, graph: &Graph) -> Result<Verdict, Memory>
    requires { IsInRange graph.now.size graph.now.edges.items }
    ensures { IfOk result (IsRight graph.now.size graph.now.edges.items) }
{
    let mut marks = vec![in alloc; false; graph.size as usize]?;
    let mut order: Vec<u32> = Vec::new(alloc);
    while let Some(n) = next_free(&graph.edges, &marks) {
        order.push(n)?;
        marks[n as usize] = true;
    }
    match first_unmarked(&marks) {
        None => Ok(Verdict::Order(order)),
        Some(start) => Ok(Verdict::Cycle(cycle_from(alloc, &graph.edges, &marks, start as u32)?)),
    }
}

/// Whether the graph has a cycle.
pub fn holds_cycle(alloc: Global, graph: &Graph) -> Result<bool, Memory>
    requires { IsInRange graph.now.size graph.now.edges.items }
    ensures { IfOk result (λ holds. IsTrue holds ↔ HasCycle graph.now.edges.items) }
{
    match order_or_cycle(alloc, graph)? {
        Verdict::Order(_) => Ok(false),
        Verdict::Cycle(_) => Ok(true),
    }
}

#[cfg(test)]
mod tests {
    use super::*;
    use std::test::Fail;

    // The graph 0 to 3 to 1 of four numbers.
    fn path(alloc: Global) -> Result<Graph, AllocError>
        ensures { IfOk result (λ graph. IsInRange graph.size graph.edges.items) }
    {
        let mut edges = Vec::new(alloc);
        edges.push(Edge {
            before: 0,
            after: 3,
        })?;
        edges.push(Edge {
            before: 3,
            after: 1,
        })?;
        Ok(Graph { size: 4, edges })
    }

    // The graph 1 to 3 to 1 of four numbers.
    fn ring(alloc: Global) -> Result<Graph, AllocError>
        ensures { IfOk result (λ graph. IsInRange graph.size graph.edges.items) }
    {
        let mut edges = Vec::new(alloc);
        edges.push(Edge {
            before: 1,
            after: 3,
        })?;
        edges.push(Edge {
            before: 3,
            after: 1,
        })?;
        Ok(Graph { size: 4, edges })
    }

    // Whether the graph has just this order.
    fn has_order(alloc: Global, graph: &Graph, expected: &[u32]) -> bool
        requires { IsInRange graph.now.size graph.now.edges.items }
    {
        match order_or_cycle(alloc, graph) {
            Ok(Verdict::Order(order)) => order.as_slice() == expected,
            Ok(Verdict::Cycle(_)) => false,
            Err(Memory) => false,
        }
    }

    // Whether the graph has a cycle, of so many edges.
    fn has_cycle(alloc: Global, graph: &Graph, length: usize) -> bool
        requires { IsInRange graph.now.size graph.now.edges.items }
    {
        match order_or_cycle(alloc, graph) {
            Ok(Verdict::Cycle(cycle)) => cycle.len() == length,
            Ok(Verdict::Order(_)) => false,
            Err(Memory) => false,
        }
    }

    /// A path has an order, found by hand, and a ring is a cycle.
    #[test]
    fn orders_and_cycles(rt: HostRuntime) -> Result<(), Fail> {
        let graph = path(rt.alloc())?;
        assert_eq!(&rt; holds_cycle(rt.alloc(), &graph), Ok(false));
        assert!(&rt; has_order(rt.alloc(), &graph, &[0, 2, 3, 1]));
        let graph = ring(rt.alloc())?;
        assert_eq!(&rt; holds_cycle(rt.alloc(), &graph), Ok(true));
        assert!(&rt; has_cycle(rt.alloc(), &graph, 2));
        Ok(())
    }
}
