//! Stars: worked stars with answers found by hand, a pseudo-random graph of stars beside a closure computed by lists, and unions of
//! ancestors. And that a caller can keep what `add_into_last` asks.

ghost use Rattle.std.specs.Prelude.{◌≡◌, ◌<◌};

use crate::reach::calls::{begin, begin_and_read};
use crate::reach::pairs::compare_pairs;
use crate::reach::plain::{lead_back, listed};
use crate::reach::steps::Step::{Ancestors, AtOnce, OneByOne, Pair, Stars};
use crate::reach::steps::{Step, go_on, play};
use crate::reach::stop::{Stop, agree};
use checked_reach::{Numbers, try_stars};
use graph_base::Edge;
use held_values::{kept, without};
use reach_rows::{Reach, Star};
use std::alloc::{AllocError, Global};

const WORKED_STAR: &[Step] = &[
    Step::Star(&[1, 2], 3, true),
    Step::Star(&[3], 4, true),
    Pair(1, 4, true),
    Pair(4, 1, false),
    Step::Star(&[0, 4], 2, false),
    Step::Star(&[1, 2], 4, true),
    Step::Star(&[0], 0, false),
];

/// Two writers before a third, and a star back that closes a cycle.
#[test]
fn worked_star(rt: HostRuntime) -> Result<(), Stop> {
    play(rt.alloc(), 5, WORKED_STAR)
}

const WORKED_STARS: &[Step] = &[
    Step::Star(&[0], 1, true),
    Stars(&[(&[2, 3], 0), (&[1, 4], 3)], false),
    Stars(&[(&[2, 3], 0)], true),
    Pair(3, 1, true),
    Stars(&[], true),
];

/// Two stars that close a cycle together, and neither alone.
#[test]
fn worked_stars(rt: HostRuntime) -> Result<(), Stop> {
    play(rt.alloc(), 6, WORKED_STARS)
}

const AFTER_READS: &[Step] = &[Pair(1, 2, true), Pair(2, 3, true), Pair(3, 0, false)];

/// Two begins, and a third with two reads. Whether the condition holds each time.
fn begin_three(reach: &mut Reach) -> Result<bool, AllocError>
    requires { reach.old.size ≡ 1 }
{
    begin(reach, 0)?;
    begin(reach, 0)?;
    begin_and_read(reach, 1, 2)
}

fn read_and_go_on(alloc: Global, reach: &mut Reach) -> Result<(), Stop>
    requires { reach.old.size ≡ 1 }
{
    let holds = begin_three(reach)?;
    agree(holds, Stop::Between(1, 2))?;
    go_on(alloc, reach, AFTER_READS)
}

/// Begins and reads of a number that nothing comes after.
#[test]
fn worked_reads(rt: HostRuntime) -> Result<(), Stop> {
    let mut reach = Reach::new(rt.alloc())?;
    let played = read_and_go_on(rt.alloc(), &mut reach);
    without(reach, played)
}

fn push_members(members: &mut Vec<u32>, numbers: &mut Numbers, size: u32) -> Result<(), AllocError>
    requires { 0 < size }
{
    for _ in 0..numbers.below(4) {
        members.push(numbers.below(size))?;
    }
    Ok(())
}

/// A star of up to three members.
fn random_star(alloc: Global, numbers: &mut Numbers, size: u32) -> Result<Star, AllocError>
    requires { 0 < size }
{
    let mut members = Vec::new(alloc);
    let pushed = push_members(&mut members, numbers, size);
    let members = kept(members, pushed)?;
    Ok(Star {
        members,
        target: numbers.below(size),
    })
}

fn push_stars(
    stars: &mut Vec<Star>,
    alloc: Global,
    numbers: &mut Numbers,
    size: u32,
) -> Result<(), AllocError>
    requires { 0 < size }
{
    for _ in 0..=numbers.below(2) {
        stars.push(random_star(alloc, numbers, size)?)?;
    }
    Ok(())
}

/// One or two stars.
fn random_stars(alloc: Global, numbers: &mut Numbers, size: u32) -> Result<Vec<Star>, AllocError>
    requires { 0 < size }
{
    let mut stars = Vec::new(alloc);
    let pushed = push_stars(&mut stars, alloc, numbers, size);
    kept(stars, pushed)
}

/// Adds stars of which these are the edges, where the list of all edges says that they close no
/// cycle. Whether they were added.
fn add_listed(
    alloc: Global,
    edges: &mut Vec<Edge>,
    reach: &mut Reach,
    stars: &[Star],
    trial: &[Edge],
) -> Result<bool, Stop> {
    let is_back = lead_back(alloc, edges, trial)?;
    let added = try_stars(reach, stars)?;
    agree(added != is_back, Stop::At(edges.len()))?;
    if added {
        edges.extend_from_slice(trial)?;
    }
    Ok(added)
}

fn add_stars(
    alloc: Global,
    edges: &mut Vec<Edge>,
    reach: &mut Reach,
    stars: &[Star],
) -> Result<bool, Stop> {
    let trial = listed(alloc, stars)?;
    let added = add_listed(alloc, edges, reach, stars, &trial);
    without(trial, added)
}

/// One or two stars, added where the list of all edges says that they close no cycle. Whether they
/// were.
fn add_any(
    alloc: Global,
    numbers: &mut Numbers,
    size: u32,
    edges: &mut Vec<Edge>,
    reach: &mut Reach,
) -> Result<bool, Stop>
    requires { 0 < size }
{
    let stars = random_stars(alloc, numbers, size)?;
    let added = add_stars(alloc, edges, reach, &stars);
    without(stars, added)
}

/// A graph, built star by star, and then each pair. How many times no stars were added.
pub(crate) fn compare_stars(
    alloc: Global,
    numbers: &mut Numbers,
    size: u32,
    edges: &mut Vec<Edge>,
    reach: &mut Reach,
) -> Result<u32, Stop>
    requires { 0 < size }
{
    let mut refused = 0u32;
    for _ in 0..size {
        if !add_any(alloc, numbers, size, edges, reach)? {
            refused = refused.saturating_add(1);
        }
    }
    compare_pairs(alloc, size, edges, reach)?;
    Ok(refused)
}

const UNIONS: &[Step] = &[
    Step::Star(&[0, 1], 2, true),
    Step::Star(&[2, 4], 3, true),
    AtOnce(&[3, 2], 4),
    OneByOne(3, 2, 4),
    AtOnce(&[2, 5], 2),
    OneByOne(2, 5, 2),
    Ancestors(3, 4),
    Ancestors(0, 0),
];

/// The union of what comes before some numbers, at once and one by one.
#[test]
fn unions(rt: HostRuntime) -> Result<(), Stop> {
    play(rt.alloc(), 6, UNIONS)
}
