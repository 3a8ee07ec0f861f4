//! Trees, held over a further step. A tree that is held over a step that may fail costs much to check wherever it is let
//! go, so it is let go here.

ghost use Rattle.std.specs.Prelude.{◌≡◌, Ok, Err, IfOk, IfErr};

use cell_base::{Boxed, Memory};
use std::alloc::Global;

/// What is held, and what the step after it gave.
pub fn beside<T: Drop, U, E>(held: T, step: Result<U, E>) -> Result<(T, U), E>
    ensures same { IfOk result (λ both. both.0 ≡ held) }
    ensures taken { IfOk result (λ both. step ≡ Ok both.1) }
    ensures refused { IfErr result (λ fault. step ≡ Err fault) }
{
    match step {
        Ok(given) => Ok((held, given)),
        Err(fault) => Err(fault),
    }
}

/// Both in boxes.
pub fn boxed<T: Drop>(alloc: Global, a: T, b: T) -> Result<(Boxed<T>, Boxed<T>), Memory>
    ensures left { IfOk result (λ both. both.0 ≡ a) }
    ensures right { IfOk result (λ both. both.1 ≡ b) }
{
    let a = Boxed::new(alloc, a)?;
    let b = Boxed::new(alloc, b)?;
    Ok((a, b))
}
