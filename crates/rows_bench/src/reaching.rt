//! The calls of a `Reach` in which each number comes after three earlier ones.

ghost use Rattle.std.specs.Prelude.{◌<◌, ◌≤◌};
ghost use Rattle.bit_rows.specs.declared.TheConstants.{ROW_BITS};

use crate::grown::{FREE, grown};
use crate::meter;
use anyhow::Result;
use bit_rows::ROW_BITS;
use checked_reach::{close_stars, closes, closes_star, count_ancestors, try_star, would};
use graph_base::Edge;
use held_values::{kept, without};
use reach_rows::{Reach, Star};
use std::alloc::{AllocError, Global};
use std::time::{CpuClock, Duration};

/// How many stars are added.
const STARS: u32 = 20;

/// How many members a star has.
const MEMBERS: u32 = 8;

/// How many times a trial is tested.
const TRIALS: u32 = 20_000;

/// How many times a test is made that takes memory.
const FEW_TRIALS: u32 = TRIALS / 10;

fn push_members(members: &mut Vec<u32>, first: u32) -> Result<(), AllocError>
    requires { first < ROW_BITS }
{
    for more in 0..MEMBERS {
        members.push(first + more)?;
    }
    Ok(())
}

/// As many numbers as a star has members, from one on.
fn members_from(alloc: Global, first: u32) -> Result<Vec<u32>, AllocError>
    requires { first < ROW_BITS }
{
    let mut members = Vec::new(alloc);
    let pushed = push_members(&mut members, first);
    kept(members, pushed)
}

/// Adds the star of free numbers of this number. Whether it was added.
fn add_star(alloc: Global, reach: &mut Reach, number: u32, target: u32) -> Result<bool, AllocError>
    requires { number < STARS }
{
    let members = members_from(alloc, 1 + number * MEMBERS)?;
    let is_added = try_star(reach, &members, target);
    Ok(without(members, is_added))
}

/// Adds all stars of free numbers. How many were added.
fn add_stars(alloc: Global, reach: &mut Reach, target: u32) -> Result<u32, AllocError> {
    let mut added = 0u32;
    for number in 0..STARS {
        if add_star(alloc, reach, number, target)? {
            added = added.wrapping_add(1);
        }
    }
    Ok(added)
}

/// Times stars of free numbers into one target: the first time each of them brings something, and
/// the second time none does.
fn measure_stars(
    rt: &(impl CpuClock + Print + AllocGlobal),
    name: &str,
    reach: &mut Reach,
    target: u32,
) -> Result<()> {
    let start = rt.thread_cpu_time()?;
    let added = add_stars(rt.alloc(), reach, target)?;
    let nanos = meter::each(rt, start, u64::from(STARS))?;
    println!(rt; "{name}: {nanos} ns, added {added}")?;
    Ok(())
}

/// How many of all tests of the star find a cycle.
fn count_star_cycles(reach: &Reach, members: &[u32]) -> u32 {
    let mut closed = 0u32;
    for _ in 0..TRIALS {
        if closes_star(reach, members, 0).unwrap_or(true) {
            closed = closed.wrapping_add(1);
        }
    }
    closed
}

/// How many ancestors each of all unions has.
fn unite_often(reach: &Reach, members: &[u32]) -> Result<u32, AllocError> {
    let mut ancestors = 0u32;
    for _ in 0..TRIALS {
        ancestors = count_ancestors(reach, members)?.unwrap_or(0);
    }
    Ok(ancestors)
}

/// Says what each call took that has the members of a star, and what it found.
fn say_of_star(
    rt: &(impl CpuClock + Print),
    name: &str,
    start: Duration,
    found: u32,
    what: &str,
) -> Result<()> {
    let nanos = meter::each(rt, start, u64::from(TRIALS))?;
    println!(rt; "{name}, {MEMBERS} members: {nanos} ns, {found} {what}")?;
    Ok(())
}

fn time_star(rt: &(impl CpuClock + Print), reach: &Reach, members: &[u32]) -> Result<()> {
    let start = rt.thread_cpu_time()?;
    let closed = count_star_cycles(reach, members);
    say_of_star(rt, "star_closes_cycle", start, closed, "cycles")?;
    let start = rt.thread_cpu_time()?;
    let ancestors = unite_often(reach, members)?;
    say_of_star(rt, "union_of and count", start, ancestors, "ancestors")
}

/// Times the test of one star, whose members come late, and the union of their ancestors.
fn measure_star_trial(
    rt: &(impl CpuClock + Print + AllocGlobal),
    reach: &Reach,
    target: u32,
) -> Result<()>
    requires { target < ROW_BITS }
{
    let members = members_from(rt.alloc(), target)?;
    let timed = time_star(rt, reach, &members);
    without(members, timed)
}

fn push_stars(
    stars: &mut Vec<Star>,
    alloc: Global,
    target: u32,
    count: u32,
) -> Result<(), AllocError>
    requires target { target < ROW_BITS }
    requires count { count ≤ STARS }
{
    for number in 0..count {
        let members = members_from(alloc, 1 + number * MEMBERS)?;
        stars.push(Star {
            members,
            target: target + number,
        })?;
    }
    Ok(())
}

/// So many stars of free numbers into numbers from one on.
fn stars_into(alloc: Global, target: u32, count: u32) -> Result<Vec<Star>, AllocError>
    requires target { target < ROW_BITS }
    requires count { count ≤ STARS }
{
    let mut stars = Vec::new(alloc);
    let pushed = push_stars(&mut stars, alloc, target, count);
    kept(stars, pushed)
}

/// How many of a tenth of all tests of the stars find a cycle.
fn count_list_cycles(reach: &Reach, stars: &[Star]) -> Result<u32, AllocError> {
    let mut closed = 0u32;
    for _ in 0..FEW_TRIALS {
        if close_stars(reach, stars)?.unwrap_or(true) {
            closed = closed.wrapping_add(1);
        }
    }
    Ok(closed)
}

fn time_star_list(
    rt: &(impl CpuClock + Print),
    reach: &Reach,
    stars: &[Star],
    count: u32,
) -> Result<()> {
    let start = rt.thread_cpu_time()?;
    let closed = count_list_cycles(reach, stars)?;
    let nanos = meter::each(rt, start, u64::from(FEW_TRIALS))?;
    println!(rt; "stars_close_cycle, {count} stars of {MEMBERS}: {nanos} ns, {closed} cycles")?;
    Ok(())
}

/// Times the test of a list of stars that close no cycle: free numbers into numbers from one on.
fn measure_star_lists(
    rt: &(impl CpuClock + Print + AllocGlobal),
    reach: &Reach,
    target: u32,
    count: u32,
) -> Result<()>
    requires target { target < ROW_BITS }
    requires count { count ≤ STARS }
{
    let stars = stars_into(rt.alloc(), target, count)?;
    let timed = time_star_list(rt, reach, &stars, count);
    without(stars, timed)
}

fn push_edges(trial: &mut Vec<Edge>, hub: u32) -> Result<(), AllocError>
    requires { hub < ROW_BITS }
{
    for before in 1..=MEMBERS {
        trial.push(Edge { before, after: hub })?;
    }
    let after = hub + 1;
    trial.push(Edge { before: hub, after })?;
    Ok(())
}

/// A trial whose edges all touch one number: eight that end there, and one that begins there.
fn trial_at(alloc: Global, hub: u32) -> Result<Vec<Edge>, AllocError>
    requires { hub < ROW_BITS }
{
    let mut trial = Vec::new(alloc);
    let pushed = push_edges(&mut trial, hub);
    kept(trial, pushed)
}

/// How many of all tests of a trial that touches the hub find a cycle.
fn count_hub_cycles(reach: &Reach, trial: &[Edge], hub: u32) -> u32 {
    let mut found = 0u32;
    for _ in 0..TRIALS {
        if would(reach, trial, hub).unwrap_or(true) {
            found = found.wrapping_add(1);
        }
    }
    found
}

/// How many of a tenth of all tests of a trial find a cycle.
fn count_cycles(reach: &Reach, trial: &[Edge]) -> Result<u32, AllocError> {
    let mut found = 0u32;
    for _ in 0..FEW_TRIALS {
        if closes(reach, trial)?.unwrap_or(true) {
            found = found.wrapping_add(1);
        }
    }
    Ok(found)
}

/// Says what each of so many tests of nine edges took, and how many found a cycle.
fn say_of_trial(
    rt: &(impl CpuClock + Print),
    name: &str,
    start: Duration,
    times: u32,
    found: u32,
) -> Result<()> {
    let nanos = meter::each(rt, start, u64::from(times))?;
    println!(rt; "{name}, nine edges: {nanos} ns, {found} cycles")?;
    Ok(())
}

fn time_trial(rt: &(impl CpuClock + Print), reach: &Reach, trial: &[Edge], hub: u32) -> Result<()> {
    let start = rt.thread_cpu_time()?;
    let found = count_hub_cycles(reach, trial, hub);
    say_of_trial(rt, "would_cycle", start, TRIALS, found)?;
    let start = rt.thread_cpu_time()?;
    let found = count_cycles(reach, trial)?;
    say_of_trial(rt, "closes_cycle", start, FEW_TRIALS, found)
}

/// Times both tests of a trial whose edges all touch one number.
fn measure_trials(rt: &(impl CpuClock + Print + AllocGlobal), reach: &Reach, hub: u32) -> Result<()>
    requires { hub < ROW_BITS }
{
    let trial = trial_at(rt.alloc(), hub)?;
    let timed = time_trial(rt, reach, &trial, hub);
    without(trial, timed)
}

/// Says how many numbers there are, and what each took since `start`.
fn say_of_size(rt: &(impl CpuClock + Print), size: u32, start: Duration) -> Result<()> {
    let nanos = meter::each(rt, start, u64::from(size))?;
    println!(rt; "size {size}")?;
    println!(rt; "grow and three add_into_last: {nanos} ns")?;
    Ok(())
}

/// Times the calls, with a number in the middle.
fn measure_calls(
    rt: &(impl CpuClock + Print + AllocGlobal),
    reach: &mut Reach,
    middle: u32,
) -> Result<()>
    requires { middle < ROW_BITS }
{
    measure_trials(rt, reach, middle)?;
    measure_star_trial(rt, reach, middle)?;
    measure_star_lists(rt, reach, middle, 1)?;
    measure_star_lists(rt, reach, middle, STARS)?;
    measure_stars(rt, "add_star with its test, news", reach, middle)?;
    measure_stars(rt, "add_star with its test, no news", reach, middle)
}

/// Times the calls at one size, which is cut to what a row holds.
pub(crate) fn measure(rt: &(impl CpuClock + Print + AllocGlobal), size: u32) -> Result<()> {
    let size = size.clamp(4 * FREE, ROW_BITS);
    let start = rt.thread_cpu_time()?;
    let reach = grown(rt.alloc(), size)?;
    let said = say_of_size(rt, size, start);
    let mut reach = kept(reach, said)?;
    let measured = measure_calls(rt, &mut reach, size / 2);
    without(reach, measured)
}
