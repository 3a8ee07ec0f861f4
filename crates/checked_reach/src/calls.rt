//! The calls of a `Reach` with tests in the place of their conditions: where they don't hold there is no answer.

ghost use Rattle.std.specs.Prelude.{◌≡◌, ◌<◌, ◌≤◌, ◌↔◌, All, IfOk, IsTrue};
ghost use Rattle.graph_base.specs.Walk.{IsInRange};
ghost use Rattle.graph_base.specs.Trial.{AllTouch};
ghost use Rattle.bit_rows.specs.declared.TheConstants.{ROW_BITS};
ghost use Rattle.reach_rows.specs.Stars.{IsStarInRange};

use graph_base::Edge;
use reach_rows::{Reach, Star};
use std::alloc::{AllocError, Global};

/// So many numbers without edges.
pub fn without_edges(alloc: Global, size: u32) -> Result<Reach, AllocError>
    requires some { 1 ≤ size }
    requires few { size ≤ ROW_BITS }
    ensures { IfOk result (λ reach. reach.size ≡ size) }
{
    let mut reach = Reach::new(alloc)?;
    for _number in 1..size {
        reach.grow()?;
    }
    Ok(reach)
}

/// Whether each member is below the size.
fn all_below(size: u32, members: &[u32]) -> bool
    ensures { IsTrue result ↔ All (λ m. m < size) members.now }
{
    members.iter().all(|member| *member < size)
}

/// Whether the star's target and its members are below the size.
fn star_below(size: u32, star: &Star) -> bool
    ensures { IsTrue result ↔ IsStarInRange size star.now }
{
    star.target < size && all_below(size, &star.members)
}

/// Whether all numbers of the stars are below the size.
fn stars_below(size: u32, stars: &[Star]) -> bool
    ensures { IsTrue result ↔ All (IsStarInRange size) stars.now }
{
    stars.iter().all(|star| star_below(size, star))
}

/// Whether all numbers of the trial are below the size.
fn edges_below(size: u32, trial: &[Edge]) -> bool
    ensures { IsTrue result ↔ IsInRange size trial.now }
{
    trial
        .iter()
        .all(|edge| edge.before < size && edge.after < size)
}

/// Whether each edge of the trial begins or ends at the hub.
fn all_touch(hub: u32, trial: &[Edge]) -> bool
    ensures { IsTrue result ↔ AllTouch hub trial.now }
{
    trial
        .iter()
        .all(|edge| edge.before == hub || edge.after == hub)
}

/// The answer of `star_closes_cycle`; none for a star out of range.
pub fn closes_star(reach: &Reach, members: &[u32], target: u32) -> Option<bool> {
    let size = reach.size();
    if target >= size {
        return None;
    }
    if !all_below(size, members) {
        return None;
    }
    Some(reach.star_closes_cycle(members, target))
}

/// Adds a star where it is in range and closes no cycle. Whether it did.
pub fn try_star(reach: &mut Reach, members: &[u32], target: u32) -> bool {
    let size = reach.size();
    if target >= size {
        return false;
    }
    if !all_below(size, members) {
        return false;
    }
    if reach.star_closes_cycle(members, target) {
        return false;
    }
    reach.add_star(members, target);
    true
}

/// The answer of `stars_close_cycle`; none for stars out of range.
pub fn close_stars(reach: &Reach, stars: &[Star]) -> Result<Option<bool>, AllocError> {
    if !stars_below(reach.size(), stars) {
        return Ok(None);
    }
    Ok(Some(reach.stars_close_cycle(stars)?))
}

/// Adds the stars where they are in range and close no cycle. Whether it did.
pub fn try_stars(reach: &mut Reach, stars: &[Star]) -> Result<bool, AllocError> {
    if !stars_below(reach.size(), stars) {
        return Ok(false);
    }
    if reach.stars_close_cycle(stars)? {
        return Ok(false);
    }
    reach.add_stars(stars);
    Ok(true)
}

/// How many numbers come before the members, by one union; none for members out of range.
pub fn count_ancestors(reach: &Reach, members: &[u32]) -> Result<Option<u32>, AllocError> {
    if !all_below(reach.size(), members) {
        return Ok(None);
    }
    Ok(Some(reach.union_of(members)?.count()))
}

/// The answer of `would_cycle`; none for a trial out of range, or one that misses the hub.
pub fn would(reach: &Reach, trial: &[Edge], hub: u32) -> Option<bool> {
    if !edges_below(reach.size(), trial) {
        return None;
    }
    if all_touch(hub, trial) {
        return Some(reach.would_cycle(trial));
    }
    None
}

/// The answer of `closes_cycle`; none for a trial out of range.
pub fn closes(reach: &Reach, trial: &[Edge]) -> Result<Option<bool>, AllocError> {
    if !edges_below(reach.size(), trial) {
        return Ok(None);
    }
    Ok(Some(reach.closes_cycle(trial)?))
}
