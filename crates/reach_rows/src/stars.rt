//! Whether stars close a cycle with the edges that were added: one star by bit tests, several by
//! one row for each.

ghost use Rattle.std.specs.Prelude.{◌≡◌, ◌<◌, ◌≤◌, ◌↔◌, ◌⊎◌, ◌++◌, ◌∷◌, [], ℕ, List, All, Any, Contains, IfOk, IsTrue, length};
ghost use Rattle.graph_base.specs.declared.Edge.{Edge};
ghost use Rattle.graph_base.specs.Walk.{IsInRange, HasCycle, Reaches};
ghost use Rattle.bit_rows.specs.declared.TheConstants.{ROW_BITS};
ghost use Rattle.reach_rows.specs.Rows.{IsClosed, IsUpTo, AreStarRows};
ghost use Rattle.reach_rows.specs.Stars.{star_of, edges_of, IsStarInRange, LeadInto};

use crate::carry::{carry_all, gather};
use crate::{Reach, Star};
use bit_rows::{BitMatrix, Row};
use graph_base::Edge;
use std::alloc::{AllocError, Global};

/// The star of the edge's begin alone.
fn star_of_edge(alloc: Global, edge: Edge) -> Result<Star, AllocError>
    ensures { IfOk result (λ star. (star.members.items ≡ edge.before ∷ []) × (star.target ≡ edge.after)) }
{
    let mut members = Vec::new(alloc);
    members.push(edge.before)?;
    Ok(Star {
        members,
        target: edge.after,
    })
}

/// For each edge, the star of its begin alone.
pub(crate) fn stars_of_edges(alloc: Global, trial: &[Edge]) -> Result<Vec<Star>, AllocError>
    ensures edges { IfOk result (λ stars. edges_of stars.items ≡ trial.now) }
    ensures in_range { IfOk result (λ stars. (size : ℕ) → IsInRange size trial.now →
        All (IsStarInRange size) stars.items) }
{
    let mut stars = Vec::new(alloc);
    for edge in trial {
        stars.push(star_of_edge(alloc, *edge)?)?;
    }
    Ok(stars)
}

/// The members of a star and what comes before them.
fn row_of_star(alloc: Global, rows: &BitMatrix, star: &Star) -> Result<Row, AllocError>
    requires closed { IsClosed rows.now }
    requires in_range { IsStarInRange (length rows.now) star.now }
    ensures { IfOk result (λ row. (n : ℕ) → Contains row n ↔ Any (λ m. IsUpTo rows.now n m) star.now.members.items) }
{
    let mut row = Row::new(alloc)?;
    gather(&mut row, rows, &star.members);
    Ok(row)
}

/// For each star, the members and what comes before them.
pub(crate) fn rows_of_stars(
    alloc: Global,
    rows: &BitMatrix,
    stars: &[Star],
) -> Result<Vec<Row>, AllocError>
    requires closed { IsClosed rows.now }
    requires in_range { All (IsStarInRange (length rows.now)) stars.now }
    ensures { IfOk result (λ befores. (length befores.items ≡ length stars.now) × AreStarRows rows.now stars.now befores.items) }
{
    let mut befores = Vec::new(alloc);
    for star in stars {
        let row = row_of_star(alloc, rows, star)?;
        befores.push(row)?;
    }
    Ok(befores)
}

/// Whether the stars close a cycle with edges, of which row `k` says what leads to the members of
/// star `k`. Adds the stars to these rows one after another; `gained` is room for what one star
/// adds.
pub(crate) fn close_over(befores: &mut [Row], stars: &[Star], gained: &mut Row) -> bool
    requires size { length befores.old ≡ length stars.now }
    requires in_range { All (λ star. star.target < ROW_BITS) stars.now }
    ensures { (edges : List Edge) → LeadInto edges stars.now befores.old → ¬ HasCycle edges →
        IsTrue result ↔ HasCycle (edges ++ edges_of stars.now) }
{
    for k in 0..stars.len() {
        let target = stars[k].target;
        if befores[k].has(target) {
            return true;
        }
        gained.copy_from(&befores[k]);
        carry_all(befores, target, gained);
    }
    false
}

impl Reach {
    /// Whether the target is a member or reaches one.
    fn meets_member(&self, members: &[u32], target: u32) -> bool
        requires target { target < self.now.size }
        requires members { All (λ m. m < self.now.size) members.now }
        ensures { IsTrue result ↔ Any (λ m. (target ≡ m) ⊎ Reaches self.now.pairs target m) members.now }
    {
        members
            .iter()
            .any(|member| self.is_or_reaches(target, *member))
    }

    /// Whether the edges that were added and those from each member to the target together have a
    /// cycle: exactly where the target is a member or reaches one, so by a bit test for each
    /// member.
    pub fn star_closes_cycle(&self, members: &[u32], target: u32) -> bool
        requires target { target < self.now.size }
        requires members { All (λ m. m < self.now.size) members.now }
        ensures cycle { IsTrue result ↔ HasCycle (self.now.pairs ++ star_of members.now target) }
        ensures meets { IsTrue result ↔ Any (λ m. (target ≡ m) ⊎ Reaches self.now.pairs target m) members.now }
    {
        // Its contract says that the pairs have no cycle of their own.
        let _size = self.size();
        self.meets_member(members, target)
    }
}
