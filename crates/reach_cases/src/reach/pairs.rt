//! Each pair of a graph's numbers, beside a closure computed by lists.

use crate::reach::calls::has_pair;
use crate::reach::plain::reached;
use crate::reach::stop::{Stop, agree};
use graph_base::Edge;
use held_values::without;
use reach_rows::Reach;
use std::alloc::Global;

/// Compares which number below the size reaches which, with what the list of all edges says.
pub(crate) fn compare_pairs(
    alloc: Global,
    size: u32,
    edges: &[Edge],
    reach: &Reach,
) -> Result<(), Stop> {
    for from in 0..size {
        compare_from(alloc, size, edges, reach, from)?;
    }
    Ok(())
}

/// Compares which numbers one number reaches.
fn compare_from(
    alloc: Global,
    size: u32,
    edges: &[Edge],
    reach: &Reach,
    from: u32,
) -> Result<(), Stop> {
    let by_lists = reached(alloc, edges, from)?;
    let compared = compare_ends(size, &by_lists, reach, from);
    without(by_lists, compared)
}

fn compare_ends(size: u32, by_lists: &[u32], reach: &Reach, from: u32) -> Result<(), Stop> {
    for to in 0..size {
        let is_reached = by_lists.contains(&to);
        agree(
            has_pair(reach, from, to) == is_reached,
            Stop::Between(from, to),
        )?;
    }
    Ok(())
}
