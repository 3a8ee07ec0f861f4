//! Worked graphs: calls one after another, each with what is to come of it.

ghost use Rattle.std.specs.Prelude.{◌≤◌};
ghost use Rattle.bit_rows.specs.declared.TheConstants.{ROW_BITS};

use crate::reach::calls::{adds_up, edge, has_ancestors, has_pair, star, try_add, try_grow};
use crate::reach::stop::{Stop, agree};
use checked_reach::{closes, count_ancestors, try_star, try_stars, without_edges, would};
use graph_base::Edge;
use held_values::{kept, without};
use reach_rows::{Reach, Star};
use std::alloc::{AllocError, Global};

/// The members of a star, and its target.
pub(crate) type StarRow = (&'static [u32], u32);

/// A call, and last what is to come of it.
#[derive(Clone, Copy)]
pub(crate) enum Step {
    /// Adds a number.
    Grow,
    /// How many numbers there are.
    Size(u32),
    /// Adds the edge where it is in range and closes no cycle: whether it is added.
    Add(u32, u32, bool),
    /// Adds the star where it is in range and closes no cycle: whether it is added.
    Star(&'static [u32], u32, bool),
    /// Adds the stars where they are in range and close no cycle: whether they are added.
    Stars(&'static [StarRow], bool),
    /// Whether the first number reaches the second.
    Pair(u32, u32, bool),
    /// Whether the edges, which all touch the number after them, would close a cycle.
    Would(&'static [Edge], u32, bool),
    /// Whether the edges would close a cycle.
    Closes(&'static [Edge], bool),
    /// How many numbers come before the members, by one union.
    AtOnce(&'static [u32], u32),
    /// How many numbers come before two others, by two unions.
    OneByOne(u32, u32, u32),
    /// How many numbers come before one.
    Ancestors(u32, u32),
}

/// Takes the steps over so many numbers without edges; the first that isn't answered as it says
/// ends the test.
pub(crate) fn play(alloc: Global, size: u32, steps: &[Step]) -> Result<(), Stop>
    requires some { 1 ≤ size }
    requires few { size ≤ ROW_BITS }
{
    let mut reach = without_edges(alloc, size)?;
    let played = go_on(alloc, &mut reach, steps);
    without(reach, played)
}

/// Takes the steps.
pub(crate) fn go_on(alloc: Global, reach: &mut Reach, steps: &[Step]) -> Result<(), Stop> {
    for (place, step) in steps.iter().enumerate() {
        agree(holds(alloc, reach, *step)?, Stop::At(place))?;
    }
    Ok(())
}

/// Whether what is to come of the step does.
fn holds(alloc: Global, reach: &mut Reach, step: Step) -> Result<bool, AllocError> {
    match step {
        Step::Grow => try_grow(reach),
        Step::Size(want) => Ok(reach.size() == want),
        Step::Add(before, after, want) => Ok(try_add(reach, edge(before, after)) == want),
        Step::Star(members, target, want) => Ok(try_star(reach, members, target) == want),
        Step::Stars(stars, want) => adds(alloc, reach, stars, want),
        Step::Pair(from, to, want) => Ok(has_pair(reach, from, to) == want),
        Step::Would(trial, hub, want) => Ok(would(reach, trial, hub) == Some(want)),
        Step::Closes(trial, want) => Ok(closes(reach, trial)? == Some(want)),
        Step::AtOnce(members, want) => Ok(count_ancestors(reach, members)? == Some(want)),
        Step::OneByOne(first, second, want) => adds_up(alloc, reach, first, second, want),
        Step::Ancestors(number, want) => has_ancestors(alloc, reach, number, want),
    }
}

/// Whether adding the stars comes to this.
fn adds(
    alloc: Global,
    reach: &mut Reach,
    stars: &[StarRow],
    want: bool,
) -> Result<bool, AllocError> {
    let stars = made(alloc, stars)?;
    let added = try_stars(reach, &stars);
    Ok(without(stars, added)? == want)
}

/// The stars.
fn made(alloc: Global, stars: &[StarRow]) -> Result<Vec<Star>, AllocError> {
    let mut made = Vec::new(alloc);
    let pushed = push_stars(&mut made, alloc, stars);
    kept(made, pushed)
}

fn push_stars(made: &mut Vec<Star>, alloc: Global, stars: &[StarRow]) -> Result<(), AllocError> {
    for (members, target) in stars {
        made.push(star(alloc, members, *target)?)?;
    }
    Ok(())
}
