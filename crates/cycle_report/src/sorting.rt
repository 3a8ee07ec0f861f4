// The least order of a graph, or a cycle of it, in few steps: no edge is looked at twice, and no number below the first one that waits.
ghost use Rattle.std.specs.Prelude.{◌≡◌, ◌≤◌, ◌<◌, ◌+◌, ◌↔◌, ℕ, IsTrue, Contains, IfOk, OnOk, IfSome, IfNone, length, reverse, drop, replicate, false};
ghost use Rattle.graph_base.specs.Walk.{IsInRange, IsCycle};
ghost use Rattle.order_witness.specs.Marks.{IsMarked, IsUnmarked, IsFree};
ghost use Rattle.order_witness.specs.Verdict.{IsRight};
ghost use Rattle.cycle_report.specs.Turns.{AreTurns, AreEarlier, IsPassed, ArePassed, IsBlocked, AreMarkedBelow};

use crate::edges::edge_at;
use cell_base::Memory;
use graph_base::{Edge, Graph};
use order_witness::Verdict;
use std::alloc::{AllocError, Global};

/// Notes the next edge at the number to which it leads.
fn note_edge(
    turns: &mut Vec<usize>,
    earlier: &mut Vec<usize>,
    edges: &[Edge],
    at: usize,
    size: u32,
) -> Result<(), Memory>
    requires within { at < length edges.now }
    requires in_range { IsInRange size edges.now }
    requires turns { AreTurns edges.now size at turns.old.items }
    requires earlier { AreEarlier edges.now at earlier.old.items }
    ensures turns { OnOk result (AreTurns edges.now size (at + 1) turns.new.items) }
    ensures earlier { OnOk result (AreEarlier edges.now (at + 1) earlier.new.items) }
{
    let edge = edge_at(edges, at);
    let turn = turns[edge.after as usize];
    earlier.push(turn)?;
    turns[edge.after as usize] = at + 1;
    Ok(())
}

/// Of each number the turn among all edges, which `turns` becomes, and beside each edge that among the edges before it.
fn turns_of(
    alloc: Global,
    edges: &[Edge],
    size: u32,
    turns: &mut Vec<usize>,
) -> Result<Vec<usize>, Memory>
    requires in_range { IsInRange size edges.now }
    requires turns { AreTurns edges.now size 0 turns.old.items }
    ensures turns { OnOk result (AreTurns edges.now size (length edges.now) turns.new.items) }
    ensures earlier { IfOk result (λ earlier. AreEarlier edges.now (length edges.now) earlier.items) }
{
    let mut earlier = Vec::new(alloc);
    for at in 0..edges.len() {
        note_edge(turns, &mut earlier, edges, at, size)?;
    }
    Ok(earlier)
}

/// The turn from this one down, before which an edge stands that comes from a number that isn't marked; 0, where there is none.
fn blocked_turn(
    edges: &[Edge],
    earlier: &[usize],
    marks: &[bool],
    from: usize,
    _number: u32,
) -> usize
    requires in_range { IsInRange (length marks.now) edges.now }
    requires earlier { AreEarlier edges.now (length edges.now) earlier.now }
    requires passed { IsPassed edges.now marks.now _number from }
    ensures passed { IsPassed edges.now marks.now _number result }
    ensures blocked { IsBlocked edges.now marks.now result }
{
    let mut turn = from;
    while turn > 0 {
        let edge = edge_at(edges, turn - 1);
        if !marks[edge.before as usize] {
            return turn;
        }
        turn = earlier[turn - 1];
    }
    turn
}

/// Whether the number may come next. Its turn goes down to what it waits for.
fn is_free(edges: &[Edge], earlier: &[usize], marks: &[bool], turns: &mut [usize], n: usize) -> bool
    requires in_range { IsInRange (length marks.now) edges.now }
    requires small { length marks.now < 4294967296 }
    requires earlier { AreEarlier edges.now (length edges.now) earlier.now }
    requires passed { ArePassed edges.now marks.now (length marks.now) turns.old }
    requires within { n < length marks.now }
    ensures passed { ArePassed edges.now marks.now (length marks.now) turns.new }
    ensures free { IsTrue result ↔ IsFree edges.now marks.now n }
{
    if marks[n] {
        return false;
    }
    let turn = blocked_turn(edges, earlier, marks, turns[n], n as u32);
    turns[n] = turn;
    turn == 0
}

/// The least number that may come next. All below `from` are marked.
fn next_free(
    edges: &[Edge],
    earlier: &[usize],
    marks: &[bool],
    turns: &mut [usize],
    from: usize,
) -> Option<u32>
    requires in_range { IsInRange (length marks.now) edges.now }
    requires small { length marks.now < 4294967296 }
    requires earlier { AreEarlier edges.now (length edges.now) earlier.now }
    requires passed { ArePassed edges.now marks.now (length marks.now) turns.old }
    requires from { AreMarkedBelow marks.now from }
    ensures passed { ArePassed edges.now marks.now (length marks.now) turns.new }
    ensures free { IfSome result (IsFree edges.now marks.now) }
    ensures least { IfSome result (λ n. (m : ℕ) → IsFree edges.now marks.now m → n ≤ m) }
    ensures none { IfNone result ((m : ℕ) → ¬ IsFree edges.now marks.now m) }
{
    for n in from..marks.len() {
        if is_free(edges, earlier, marks, turns, n) {
            return Some(n as u32);
        }
    }
    None
}

/// How many numbers from the first on are marked, given that so many are.
fn marked_below(marks: &[bool], from: usize) -> usize
    requires within { from ≤ length marks.now }
    requires from { AreMarkedBelow marks.now from }
    ensures within { result ≤ length marks.now }
    ensures marked { AreMarkedBelow marks.now result }
{
    let mut below = from;
    while below < marks.len() && marks[below] {
        below += 1;
    }
    below
}

/// The first number that is not marked.
fn first_unmarked(marks: &[bool]) -> Option<usize>
    ensures found { IfSome result (IsUnmarked marks.now) }
    ensures none { IfNone result ((n : ℕ) → n < length marks.now → IsMarked marks.now n) }
{
    marks.iter().position(|mark| !*mark)
}

/// The edges from `first` on, the last first.
fn reversed_from(alloc: Global, path: &[Edge], first: usize) -> Result<Vec<Edge>, AllocError>
    requires { first ≤ length path.now }
    ensures { IfOk result (λ edges. edges.items ≡ reverse (drop first path.now)) }
{
    path[first..].iter().rev().copied().collect(alloc)
}

/// An edge to the number from one that isn't marked, where the number isn't and none may come next.
fn blocking_edge(
    edges: &[Edge],
    earlier: &[usize],
    marks: &[bool],
    turns: &[usize],
    number: u32,
) -> Edge
    requires in_range { IsInRange (length marks.now) edges.now }
    requires earlier { AreEarlier edges.now (length edges.now) earlier.now }
    requires passed { ArePassed edges.now marks.now (length marks.now) turns.now }
    requires number { IsUnmarked marks.now number }
    requires stuck { (n : ℕ) → ¬ IsFree edges.now marks.now n }
    ensures found { Contains edges.now result }
    ensures into { result.after ≡ number }
    ensures unmarked { IsUnmarked marks.now result.before }
{
    let turn = blocked_turn(edges, earlier, marks, turns[number as usize], number);
    if turn == 0 {
        unreachable!()
    }
    edge_at(edges, turn - 1)
}

/// A cycle among the numbers that are not marked, none of which may come next.
fn cycle_from(
    alloc: Global,
    edges: &[Edge],
    earlier: &[usize],
    marks: &[bool],
    turns: &[usize],
    start: u32,
) -> Result<Vec<Edge>, Memory>
    requires in_range { IsInRange (length marks.now) edges.now }
    requires earlier { AreEarlier edges.now (length edges.now) earlier.now }
    requires passed { ArePassed edges.now marks.now (length marks.now) turns.now }
    requires start { IsUnmarked marks.now start }
    requires stuck { (n : ℕ) → ¬ IsFree edges.now marks.now n }
    ensures { IfOk result (λ cycle. IsCycle edges.now cycle.items) }
{
    // The edges from `at` to `start`, the last first, and where in it each number was met.
    let mut path: Vec<Edge> = Vec::new(alloc);
    let mut met: Vec<Option<usize>> = vec![in alloc; None; marks.len()]?;
    let mut at = start;
    loop {
        if let Some(first) = met[at as usize] {
            return Ok(reversed_from(alloc, &path, first)?);
        }
        let edge = blocking_edge(edges, earlier, marks, turns, at);
        met[at as usize] = Some(path.len());
        path.push(edge)?;
        at = edge.before;
    }
}

/// The turns of the numbers among no edges.
fn no_turns(alloc: Global, edges: &[Edge], size: u32) -> Result<Vec<usize>, Memory>
    ensures { IfOk result (λ turns. AreTurns edges.now size 0 turns.items) }
{
    Ok(vec![in alloc; 0; size as usize]?)
}

/// So many numbers, none of which is marked.
fn no_marks(alloc: Global, size: u32) -> Result<Vec<bool>, Memory>
    ensures { IfOk result (λ marks. marks.items ≡ replicate size false) }
{
    Ok(vec![in alloc; false; size as usize]?)
}

/// Lists the numbers, at each place the least that may come next, or finds a cycle.
pub fn order_or_cycle(alloc: Global, graph: &Graph) -> Result<Verdict, Memory>
    requires { IsInRange graph.now.size graph.now.edges.items }
    ensures { IfOk result (IsRight graph.now.size graph.now.edges.items) }
{
    let mut turns = no_turns(alloc, &graph.edges, graph.size)?;
    let earlier = turns_of(alloc, &graph.edges, graph.size, &mut turns)?;
    let mut marks = no_marks(alloc, graph.size)?;
    let mut below = 0;
    let mut order: Vec<u32> = Vec::new(alloc);
    while let Some(n) = next_free(&graph.edges, &earlier, &marks, &mut turns, below) {
        order.push(n)?;
        marks[n as usize] = true;
        below = marked_below(&marks, below);
    }
    match first_unmarked(&marks) {
        None => Ok(Verdict::Order(order)),
        Some(start) => {
            let start = start as u32;
            let cycle = cycle_from(alloc, &graph.edges, &earlier, &marks, &turns, start)?;
            Ok(Verdict::Cycle(cycle))
        }
    }
}
