//! What was read, held over a further step.

ghost use Rattle.std.specs.Prelude.{◌≡◌, Ok, Err, IfOk, OnOk, IfErr};

/// What was read, if the step after it could be taken. A tree that is held over a step that may fail costs much to
/// check wherever it is let go, so it is let go here.
pub fn kept<T: Drop, E>(found: T, step: Result<(), E>) -> Result<T, E>
    ensures same { IfOk result (λ kept. kept ≡ found) }
    ensures taken { OnOk result (step ≡ Ok tt) }
    ensures refused { IfErr result (λ refusal. step ≡ Err refusal) }
{
    match step {
        Ok(()) => Ok(found),
        Err(refusal) => Err(refusal),
    }
}

/// What was read, and what the step after it gave.
pub fn beside<T: Drop, U, E>(found: T, step: Result<U, E>) -> Result<(T, U), E>
    ensures same { IfOk result (λ both. both.0 ≡ found) }
    ensures taken { IfOk result (λ both. step ≡ Ok both.1) }
    ensures refused { IfErr result (λ refusal. step ≡ Err refusal) }
{
    match step {
        Ok(given) => Ok((found, given)),
        Err(refusal) => Err(refusal),
    }
}
