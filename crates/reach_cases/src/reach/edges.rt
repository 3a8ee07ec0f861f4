//! Edges and trials: worked graphs with answers found by hand, and a pseudo-random graph beside a closure computed by lists.

ghost use Rattle.std.specs.Prelude.{◌≡◌, ◌≤◌, []};

use crate::reach::calls::{edge, grow_and_take_back, try_add};
use crate::reach::pairs::compare_pairs;
use crate::reach::plain::{MOST, lead_back};
use crate::reach::steps::Step::{Add, Closes, Grow, Pair, Size, Would};
use crate::reach::steps::{Step, go_on, play};
use crate::reach::stop::{Stop, agree};
use checked_reach::{Numbers, closes, would};
use graph_base::Edge;
use held_values::without;
use reach_rows::Reach;
use std::alloc::Global;

const FROM_2_TO_3: Edge = Edge {
    before: 2,
    after: 3,
};

const FROM_3_TO_1: Edge = Edge {
    before: 3,
    after: 1,
};

const FROM_4_TO_1: Edge = Edge {
    before: 4,
    after: 1,
};

const WORKED_GRAPH: &[Step] = &[
    Add(0, 1, true),
    Add(1, 2, true),
    Add(0, 3, true),
    Pair(0, 2, true),
    Pair(2, 0, false),
    Would(&[FROM_2_TO_3], 3, false),
    Would(&[FROM_3_TO_1], 3, false),
    Would(&[FROM_2_TO_3, FROM_3_TO_1], 3, true),
    Closes(&[FROM_2_TO_3], false),
    Closes(&[FROM_2_TO_3, FROM_3_TO_1], true),
];

/// The worked graph of four numbers: a cycle through two new edges at once, which neither closes
/// alone.
#[test]
fn worked_graph(rt: HostRuntime) -> Result<(), Stop> {
    play(rt.alloc(), 4, WORKED_GRAPH)
}

const TRIALS_OF_ANY_SHAPE: &[Step] = &[
    Add(0, 1, true),
    Add(0, 2, true),
    Add(0, 3, true),
    Add(0, 4, true),
    Add(1, 2, true),
    Add(3, 4, true),
    Closes(&[FROM_2_TO_3], false),
    Closes(&[FROM_2_TO_3, FROM_4_TO_1], true),
    Closes(&[], false),
];

/// The worked graph of five numbers: a cycle through two new edges without a common number.
#[test]
fn worked_trials_of_any_shape(rt: HostRuntime) -> Result<(), Stop> {
    play(rt.alloc(), 5, TRIALS_OF_ANY_SHAPE)
}

/// What a trial comes to by the list of all edges; that of the `Reach` has to be the same.
fn compare_trial(
    alloc: Global,
    edges: &[Edge],
    reach: &Reach,
    trial: &[Edge],
) -> Result<bool, Stop> {
    let is_back = lead_back(alloc, edges, trial)?;
    agree(
        closes(reach, trial)? == Some(is_back),
        Stop::At(edges.len()),
    )?;
    Ok(is_back)
}

/// The same of a trial that touches the hub.
fn compare_star(
    alloc: Global,
    edges: &[Edge],
    reach: &Reach,
    trial: &[Edge],
    hub: u32,
) -> Result<bool, Stop> {
    let is_back = compare_trial(alloc, edges, reach, trial)?;
    agree(
        would(reach, trial, hub) == Some(is_back),
        Stop::At(edges.len()),
    )?;
    Ok(is_back)
}

/// Adds any edge where the list of all edges says that it closes no cycle.
fn add_any(
    alloc: Global,
    numbers: &mut Numbers,
    size: u32,
    edges: &mut Vec<Edge>,
    reach: &mut Reach,
) -> Result<(), Stop>
    requires { 1 ≤ size }
{
    let new = edge(numbers.below(size), numbers.below(size));
    let is_back = compare_trial(alloc, edges, reach, &[new])?;
    let is_added = try_add(reach, new);
    agree(is_added != is_back, Stop::Between(new.before, new.after))?;
    if is_added {
        edges.push(new)?;
    }
    Ok(())
}

/// A graph, built edge by edge: the list of its edges and the Reach that has kept them.
fn add_edges(
    alloc: Global,
    numbers: &mut Numbers,
    size: u32,
    edges: &mut Vec<Edge>,
    reach: &mut Reach,
) -> Result<(), Stop>
    requires some { 1 ≤ size }
    requires few { size ≤ MOST }
{
    for _ in 0..2 * size {
        add_any(alloc, numbers, size, edges, reach)?;
    }
    Ok(())
}

/// An edge from or to the hub.
fn touching(hub: u32, number: u32, other: u32) -> Edge {
    if number < other {
        edge(hub, number)
    } else {
        edge(number, hub)
    }
}

/// Two trials of the graph, of which one touches a hub. Whether they come to different answers.
fn trials_differ(
    alloc: Global,
    numbers: &mut Numbers,
    size: u32,
    edges: &[Edge],
    reach: &Reach,
) -> Result<bool, Stop>
    requires { 1 ≤ size }
{
    let hub = numbers.below(size);
    let mut star = [edge(hub, hub); 4];
    let mut any = [edge(hub, hub); 4];
    for place in 0..4 {
        let number = numbers.below(size);
        let other = numbers.below(size);
        star[place] = touching(hub, number, other);
        any[place] = edge(number, other);
    }
    let star_back = compare_star(alloc, edges, reach, &star, hub)?;
    Ok(compare_trial(alloc, edges, reach, &any)? != star_back)
}

/// How often two trials of the graph come to different answers.
fn compare_trials(
    alloc: Global,
    numbers: &mut Numbers,
    size: u32,
    edges: &[Edge],
    reach: &Reach,
) -> Result<u32, Stop>
    requires { 1 ≤ size }
{
    let mut differ = 0u32;
    for _ in 0..8 {
        if trials_differ(alloc, numbers, size, edges, reach)? {
            differ = differ.saturating_add(1);
        }
    }
    Ok(differ)
}

/// A graph, built edge by edge, each pair, and trials. How often two of these come to different answers.
pub(crate) fn compare_edges(
    alloc: Global,
    numbers: &mut Numbers,
    size: u32,
    edges: &mut Vec<Edge>,
    reach: &mut Reach,
) -> Result<u32, Stop>
    requires some { 1 ≤ size }
    requires few { size ≤ MOST }
{
    add_edges(alloc, numbers, size, edges, reach)?;
    compare_pairs(alloc, size, edges, reach)?;
    compare_trials(alloc, numbers, size, edges, reach)
}

const TAKEN_BACK: &[Step] = &[Size(1), Grow, Add(1, 0, true), Pair(1, 0, true), Size(2)];

fn take_back_and_go_on(alloc: Global, reach: &mut Reach) -> Result<(), Stop>
    requires { reach.old ≡ record { size = 1; pairs = [] } }
{
    grow_and_take_back(reach)?;
    go_on(alloc, reach, TAKEN_BACK)
}

/// A number that was added is taken back, and another comes in its place.
#[test]
fn takes_back(rt: HostRuntime) -> Result<(), Stop> {
    let mut reach = Reach::new(rt.alloc())?;
    let played = take_back_and_go_on(rt.alloc(), &mut reach);
    without(reach, played)
}
