// Where transactions stand in the order.
ghost use Rattle.std.specs.Prelude.{◌<◌, ◌≤◌, IsTrue, IfOk, length, slice_index};
ghost use Rattle.right_logs.specs.Standing.{AreHighest};

use cell_base::Memory;
use std::alloc::Global;

/// The later of two places.
fn later(first: usize, second: usize) -> usize
    ensures { (first ≤ result) × (second ≤ result) }
{
    first.max(second)
}

/// Beside each number the last place in the order of the numbers up to it.
pub fn highest_of(alloc: Global, places: &[usize]) -> Result<Vec<usize>, Memory>
    ensures { IfOk result (λ highest. AreHighest places.now highest.items) }
{
    let mut highest = Vec::with_capacity(alloc, places.len())?;
    let mut top = 0;
    for at in 0..places.len() {
        top = later(top, places[at]);
        highest.push(top)?;
    }
    Ok(highest)
}

/// Whether none of the numbers up to this one stands after the place.
pub fn stand_up_to(highest: &[usize], number: u32, from: usize) -> bool
    ensures { IsTrue result → (number < length highest.now) × (slice_index highest.now number ≤ from) }
{
    if number as usize >= highest.len() {
        return false;
    }
    highest[number as usize] <= from
}
