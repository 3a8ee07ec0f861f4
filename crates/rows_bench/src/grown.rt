//! A `Reach` to measure.

ghost use Rattle.std.specs.Prelude.{◌≡◌, ◌<◌, ◌≤◌, ◌+◌, OnOk};
ghost use Rattle.bit_rows.specs.declared.TheConstants.{ROW_BITS};

use checked_reach::{Numbers, without_edges};
use held_values::kept;
use reach_rows::Reach;
use std::alloc::{AllocError, Global};

/// How many numbers after number 0 are free: at first no edge names them.
pub(crate) const FREE: u32 = 256;

/// Adds a number and three edges into it, each while nothing comes after it.
fn begin(reach: &mut Reach, first: u32, second: u32, third: u32) -> Result<(), AllocError>
    requires first { first < reach.old.size }
    requires second { second < reach.old.size }
    requires third { third < reach.old.size }
    requires room { reach.old.size < ROW_BITS }
    ensures { OnOk result (reach.new.size ≡ reach.old.size + 1) }
{
    let number = reach.size();
    reach.grow()?;
    reach.add_into_last(first, number);
    reach.add_into_last(second, number);
    reach.add_into_last(third, number);
    Ok(())
}

/// Adds numbers until there are so many, each after three earlier ones that aren't free, the last
/// one among them.
fn grow_to(reach: &mut Reach, size: u32) -> Result<(), AllocError>
    requires free { reach.old.size ≡ FREE + 1 }
    requires some { FREE + 1 ≤ size }
    requires few { size ≤ ROW_BITS }
{
    let mut numbers = Numbers { state: 2019 };
    for last in FREE..size - 1 {
        let older = numbers.below(last - FREE + 1);
        let oldest = numbers.below(older + 1);
        begin(reach, last, FREE + older, FREE + oldest)?;
    }
    Ok(())
}

/// So many numbers: 0, the free ones, and others of which each comes after three earlier ones that
/// aren't free, the last one among them.
pub(crate) fn grown(alloc: Global, size: u32) -> Result<Reach, AllocError>
    requires some { FREE + 1 ≤ size }
    requires few { size ≤ ROW_BITS }
{
    let mut reach = without_edges(alloc, FREE + 1)?;
    let done = grow_to(&mut reach, size);
    kept(reach, done)
}
