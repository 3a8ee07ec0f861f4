//! Pseudo-random graphs beside a closure computed by lists.

ghost use Rattle.std.specs.Prelude.{◌≤◌};

use crate::reach::edges::compare_edges;
use crate::reach::plain::MOST;
use crate::reach::stars::compare_stars;
use crate::reach::stop::Stop;
use checked_reach::{Numbers, without_edges};
use graph_base::Edge;
use held_values::without;
use reach_rows::Reach;
use std::alloc::Global;
use std::test::Fail;

/// How many graphs are built edge by edge.
const OF_EDGES: u32 = 120;

/// How many graphs are built star by star.
const OF_STARS: u32 = 60;

/// What a graph is built of, one after another.
#[derive(Clone, Copy)]
enum Parts {
    /// Edges; what is counted is how often two trials come to different answers.
    Edges,
    /// Stars; what is counted is how many times none were added.
    Stars,
}

/// A graph, and each of its pairs. What is counted of its parts.
fn compare_graph(
    alloc: Global,
    numbers: &mut Numbers,
    size: u32,
    parts: Parts,
    edges: &mut Vec<Edge>,
    reach: &mut Reach,
) -> Result<u32, Stop>
    requires some { 1 ≤ size }
    requires few { size ≤ MOST }
{
    match parts {
        Parts::Edges => compare_edges(alloc, numbers, size, edges, reach),
        Parts::Stars => compare_stars(alloc, numbers, size, edges, reach),
    }
}

/// A graph of so many numbers: what is counted of its parts.
fn random_graph(alloc: Global, numbers: &mut Numbers, size: u32, parts: Parts) -> Result<u32, Stop>
    requires some { 1 ≤ size }
    requires few { size ≤ MOST }
{
    let mut reach = without_edges(alloc, size)?;
    let mut edges = Vec::new(alloc);
    let compared = compare_graph(alloc, numbers, size, parts, &mut edges, &mut reach);
    without((edges, reach), compared)
}

/// So many graphs of up to 40 numbers, the same at each run: what is counted of the parts of all.
fn random_graphs(alloc: Global, graphs: u32, parts: Parts) -> Result<u32, Stop> {
    let mut numbers = Numbers { state: 2019 };
    let mut counted = 0u32;
    for _ in 0..graphs {
        let size = 2 + numbers.below(MOST - 1);
        counted = counted.saturating_add(random_graph(alloc, &mut numbers, size, parts)?);
    }
    Ok(counted)
}

/// Pseudo-random graphs of up to 40 numbers: each pair, and trials of both kinds.
#[test]
fn random_graphs_beside_lists(rt: HostRuntime) -> Result<(), Fail> {
    let differ = random_graphs(rt.alloc(), OF_EDGES, Parts::Edges)?;
    assert!(&rt; differ > 0);
    Ok(())
}

/// Pseudo-random graphs of up to 40 numbers, star by star, and then each pair.
#[test]
fn random_stars_beside_lists(rt: HostRuntime) -> Result<(), Fail> {
    let refused = random_graphs(rt.alloc(), OF_STARS, Parts::Stars)?;
    assert!(&rt; refused > 0);
    Ok(())
}
