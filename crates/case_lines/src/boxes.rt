// Pairs of boxes.
ghost use Rattle.std.specs.Prelude.{◌≡◌, IfOk};

use cell_base::{Boxed, Memory};
use std::alloc::Global;

/// Both in boxes.
pub fn boxed<T: Drop>(alloc: Global, left: T, right: T) -> Result<(Boxed<T>, Boxed<T>), Memory>
    ensures first { IfOk result (λ both. both.0 ≡ left) }
    ensures second { IfOk result (λ both. both.1 ≡ right) }
{
    let left = Boxed::new(alloc, left)?;
    let right = Boxed::new(alloc, right)?;
    Ok((left, right))
}
