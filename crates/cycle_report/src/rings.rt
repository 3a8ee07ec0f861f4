// A cycle that is turned to begin at its least number, and on which no number stands twice.
ghost use Rattle.std.specs.Prelude.{◌≡◌, ◌≤◌, ◌<◌, ◌+◌, ◌++◌, ℕ, IfOk, IfSome, IfNone, length, take, drop};
ghost use Rattle.graph_base.specs.Walk.{IsCycle};
ghost use Rattle.cycle_report.specs.Rings.{BeginsAt, IsAnyRing, IsLeastAt, IsLeastBelow, IsRepeat, IsOnce};

use crate::edges::{copy_edges, edge_at};
use cell_base::Memory;
use graph_base::Edge;
use std::alloc::Global;

/// The number at which the edge at the place begins.
fn begin_of(edges: &[Edge], place: usize) -> u32
    requires { place < length edges.now }
    ensures { BeginsAt edges.now place result }
{
    let edge = edge_at(edges, place);
    edge.before
}

/// The one of the two places whose edge begins at the lesser number.
fn lesser(cycle: &[Edge], least: usize, at: usize) -> usize
    requires within { at < length cycle.now }
    requires least { IsLeastBelow cycle.now least at }
    requires least_within { least < length cycle.now }
    ensures least { IsLeastBelow cycle.now result (at + 1) }
    ensures within { result < length cycle.now }
{
    let number = begin_of(cycle, at);
    let best = begin_of(cycle, least);
    if number < best {
        return at;
    }
    least
}

/// Where the edge stands that begins at the least number.
fn least_at(cycle: &[Edge]) -> usize
    requires { 0 < length cycle.now }
    ensures { IsLeastAt cycle.now result }
{
    let mut least = 0;
    for at in 0..cycle.len() {
        least = lesser(cycle, least, at);
    }
    least
}

/// Some edges, and others after them.
fn joined(alloc: Global, first: &[Edge], second: &[Edge]) -> Result<Vec<Edge>, Memory>
    ensures { IfOk result (λ edges. edges.items ≡ first.now ++ second.now) }
{
    let mut edges = copy_edges(alloc, first)?;
    edges.extend_from_slice(second)?;
    Ok(edges)
}

/// The cycle from the edge at the place on.
fn turned(alloc: Global, cycle: &[Edge], at: usize) -> Result<Vec<Edge>, Memory>
    requires { at ≤ length cycle.now }
    ensures { IfOk result (λ edges. edges.items ≡ drop at cycle.now ++ take at cycle.now) }
{
    joined(alloc, &cycle[at..], &cycle[..at])
}

/// The cycle from its least number on.
fn least_first(alloc: Global, edges: &[Edge], cycle: &[Edge]) -> Result<Vec<Edge>, Memory>
    requires { IsCycle edges.now cycle.now }
    ensures { IfOk result (λ ring. IsAnyRing edges.now ring.items) }
{
    let least = least_at(cycle);
    let ring = turned(alloc, cycle, least)?;
    Ok(ring)
}

/// Where a later edge begins at the same number as the one at the place.
fn again(ring: &[Edge], first: usize) -> Option<usize>
    requires { first < length ring.now }
    ensures some { IfSome result (IsRepeat ring.now first) }
    ensures none { IfNone result ((second : ℕ) → ¬ IsRepeat ring.now first second) }
{
    let number = begin_of(ring, first);
    for second in first + 1..ring.len() {
        let other = begin_of(ring, second);
        if number == other {
            return Some(second);
        }
    }
    None
}

/// Two places whose edges begin at one number.
fn repeat(ring: &[Edge]) -> Option<(usize, usize)>
    ensures some { IfSome result (λ pair. IsRepeat ring.now pair.0 pair.1) }
    ensures none { IfNone result (IsOnce ring.now) }
{
    for first in 0..ring.len() {
        match again(ring, first) {
            Some(second) => return Some((first, second)),
            None => {}
        }
    }
    None
}

/// The ring without the edges from the first place up to the second.
fn cut(
    alloc: Global,
    edges: &[Edge],
    ring: &[Edge],
    first: usize,
    second: usize,
) -> Result<Vec<Edge>, Memory>
    requires ring { IsAnyRing edges.now ring.now }
    requires repeats { IsRepeat ring.now first second }
    ensures ring { IfOk result (λ shorter. IsAnyRing edges.now shorter.items) }
    ensures shorter { IfOk result (λ shorter. length shorter.items < length ring.now) }
{
    let shorter = joined(alloc, &ring[..first], &ring[second..])?;
    Ok(shorter)
}

/// The cycle, turned to begin at its least number, without the ways between two places at which it comes to one number.
pub fn ring_of(alloc: Global, edges: &[Edge], cycle: &[Edge]) -> Result<Vec<Edge>, Memory>
    requires { IsCycle edges.now cycle.now }
    ensures ring { IfOk result (λ ring. IsAnyRing edges.now ring.items) }
    ensures once { IfOk result (λ ring. IsOnce ring.items) }
{
    let mut ring = least_first(alloc, edges, cycle)?;
    while let Some(again) = repeat(&ring) {
        let shorter = cut(alloc, edges, &ring, again.0, again.1)?;
        ring = shorter;
    }
    Ok(ring)
}
