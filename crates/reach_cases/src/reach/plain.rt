//! Closures found by following lists of edges.

use graph_base::Edge;
use held_values::{kept, without};
use reach_rows::Star;
use std::alloc::{AllocError, Global};

/// How many numbers a pseudo-random graph has at most.
pub(crate) const MOST: u32 = 40;

/// All numbers that one number reaches along the edges, found by following them.
pub(crate) fn reached(alloc: Global, edges: &[Edge], from: u32) -> Result<Vec<u32>, AllocError> {
    let mut reached = Vec::new(alloc);
    let followed = follow(&mut reached, edges, from);
    kept(reached, followed)
}

/// Adds the numbers after this one, and then those after each that was added.
fn follow(reached: &mut Vec<u32>, edges: &[Edge], from: u32) -> Result<(), AllocError> {
    let mut next = Some(from);
    for place in 0..=MOST as usize {
        if let Some(number) = next {
            add_next(reached, edges, number)?;
        }
        next = reached.get(place).copied();
    }
    Ok(())
}

/// Adds the ends of the edges that begin at the number, as far as they weren't there.
fn add_next(reached: &mut Vec<u32>, edges: &[Edge], number: u32) -> Result<(), AllocError> {
    for edge in edges {
        if edge.before == number && !reached.contains(&edge.after) {
            reached.push(edge.after)?;
        }
    }
    Ok(())
}

/// Whether the edges and the trial together have an edge that leads back to its begin.
pub(crate) fn lead_back(alloc: Global, edges: &[Edge], trial: &[Edge]) -> Result<bool, AllocError> {
    let all = joined(alloc, edges, trial)?;
    let is_back = some_leads_back(alloc, &all);
    without(all, is_back)
}

/// The edges and then the trial, in one list.
fn joined(alloc: Global, edges: &[Edge], trial: &[Edge]) -> Result<Vec<Edge>, AllocError> {
    let mut all = Vec::from_slice(alloc, edges)?;
    let added = all.extend_from_slice(trial);
    kept(all, added)
}

/// Whether one of the edges leads back to its begin.
fn some_leads_back(alloc: Global, edges: &[Edge]) -> Result<bool, AllocError> {
    for edge in edges {
        if leads_back(alloc, edges, *edge)? {
            return Ok(true);
        }
    }
    Ok(false)
}

/// Whether this edge leads back to its begin.
fn leads_back(alloc: Global, edges: &[Edge], edge: Edge) -> Result<bool, AllocError> {
    let reached = reached(alloc, edges, edge.after)?;
    Ok(reached.contains(&edge.before) || edge.before == edge.after)
}

/// The edges of stars, in one list.
pub(crate) fn listed(alloc: Global, stars: &[Star]) -> Result<Vec<Edge>, AllocError> {
    let mut edges = Vec::new(alloc);
    let added = list_stars(&mut edges, stars);
    kept(edges, added)
}

/// Adds the edges of stars to the list.
fn list_stars(edges: &mut Vec<Edge>, stars: &[Star]) -> Result<(), AllocError> {
    for star in stars {
        list_star(edges, &star.members, star.target)?;
    }
    Ok(())
}

/// Adds the edges of a star to the list.
fn list_star(edges: &mut Vec<Edge>, members: &[u32], target: u32) -> Result<(), AllocError> {
    for member in members {
        edges.push(Edge {
            before: *member,
            after: target,
        })?;
    }
    Ok(())
}
