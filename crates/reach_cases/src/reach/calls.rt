//! Calls of a `Reach` beside those of `checked_reach`: with tests in the place of their conditions too, or where these hold each time.

ghost use Rattle.std.specs.Prelude.{◌≡◌, ◌<◌, ◌+◌, [], OnOk};
ghost use Rattle.bit_rows.specs.declared.TheConstants.{ROW_BITS};
ghost use Rattle.reach_rows.specs.Ancestry.{IsLast};

use bit_rows::{ROW_BITS, Row};
use graph_base::Edge;
use reach_rows::{Reach, Star};
use std::alloc::{AllocError, Global};

/// Adds a number where there is room for one. Whether there is.
pub(crate) fn try_grow(reach: &mut Reach) -> Result<bool, AllocError> {
    if reach.size() >= ROW_BITS {
        return Ok(false);
    }
    reach.grow()?;
    Ok(true)
}

/// Adds a number to the only one and takes it back.
pub(crate) fn grow_and_take_back(reach: &mut Reach) -> Result<(), AllocError>
    requires { reach.old ≡ record { size = 1; pairs = [] } }
{
    reach.grow()?;
    reach.take_back();
    Ok(())
}

/// A begin: one number more, after another one. Nothing comes after it.
pub(crate) fn begin(reach: &mut Reach, source: u32) -> Result<(), AllocError>
    requires source { source < reach.old.size }
    requires room { reach.old.size < ROW_BITS }
    ensures size { OnOk result (reach.new.size ≡ reach.old.size + 1) }
    ensures last { OnOk result (IsLast reach.new.pairs reach.old.size) }
{
    let number = reach.size();
    reach.grow()?;
    reach.add_into_last(source, number);
    Ok(())
}

/// Reads of one that nothing comes after, with a star between them: the condition holds each time.
pub(crate) fn reads(reach: &mut Reach, first: u32, second: u32, reader: u32) -> bool
    requires first { first < reach.old.size }
    requires second { second < reach.old.size }
    requires reader { reader < reach.old.size }
    requires first_apart { ¬ reader ≡ first }
    requires second_apart { ¬ reader ≡ second }
    requires last { IsLast reach.old.pairs reader }
    ensures size { reach.new.size ≡ reach.old.size }
    ensures last { IsLast reach.new.pairs reader }
{
    reach.add_into_last(first, reader);
    let members = [first];
    if reach.star_closes_cycle(&members, second) {
        return false;
    }
    reach.add_star(&members, second);
    reach.add_into_last(second, reader);
    true
}

/// A begin and two reads of the new number.
pub(crate) fn begin_and_read(reach: &mut Reach, first: u32, second: u32) -> Result<bool, AllocError>
    requires first { first < reach.old.size }
    requires second { second < reach.old.size }
    requires room { reach.old.size < ROW_BITS }
    ensures { OnOk result (IsLast reach.new.pairs reach.old.size) }
{
    let reader = reach.size();
    begin(reach, 0)?;
    Ok(reads(reach, first, second, reader))
}

/// Whether one number reaches another; no where one is out of range.
pub(crate) fn has_pair(reach: &Reach, from: u32, to: u32) -> bool {
    let size = reach.size();
    if from >= size {
        return false;
    }
    if to >= size {
        return false;
    }
    reach.reaches(from, to)
}

/// Adds an edge where it is in range and closes no cycle. Whether it did.
pub(crate) fn try_add(reach: &mut Reach, edge: Edge) -> bool {
    let size = reach.size();
    if edge.before >= size {
        return false;
    }
    if edge.after >= size {
        return false;
    }
    let members = [edge.before];
    if reach.star_closes_cycle(&members, edge.after) {
        return false;
    }
    reach.add_edge(edge);
    true
}

/// Whether so many numbers come before two others, by two unions; no where they are out of range.
pub(crate) fn adds_up(
    alloc: Global,
    reach: &Reach,
    first: u32,
    second: u32,
    want: u32,
) -> Result<bool, AllocError> {
    let size = reach.size();
    if first >= size {
        return Ok(false);
    }
    if second >= size {
        return Ok(false);
    }
    let mut row = Row::new(alloc)?;
    reach.add_ancestors(&mut row, first);
    reach.add_ancestors(&mut row, second);
    Ok(row.count() == want)
}

/// Whether so many numbers come before one; no where it is out of range.
pub(crate) fn has_ancestors(
    alloc: Global,
    reach: &Reach,
    number: u32,
    want: u32,
) -> Result<bool, AllocError> {
    if number >= reach.size() {
        return Ok(false);
    }
    let mut row = Row::new(alloc)?;
    reach.ancestors_of(number, &mut row);
    Ok(row.count() == want)
}

/// An edge.
pub(crate) fn edge(before: u32, after: u32) -> Edge {
    Edge { before, after }
}

/// A star of these members.
pub(crate) fn star(alloc: Global, members: &[u32], target: u32) -> Result<Star, AllocError> {
    Ok(Star {
        members: members.to_vec(alloc)?,
        target,
    })
}
