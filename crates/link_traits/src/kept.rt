//! Objects, held over a further step. An object that is held over a step that may fail costs much to check wherever it
//! is let go, so it is let go here.

ghost use Rattle.std.specs.Prelude.{◌≡◌, Ok, Err, IfOk, OnOk, IfErr};

// What is held, if the step after it could be taken.
pub(crate) fn kept<T: Drop, E>(held: T, step: Result<(), E>) -> Result<T, E>
    ensures same { IfOk result (λ kept. kept ≡ held) }
    ensures taken { OnOk result (step ≡ Ok tt) }
    ensures refused { IfErr result (λ fault. step ≡ Err fault) }
{
    match step {
        Ok(()) => Ok(held),
        Err(fault) => Err(fault),
    }
}

// What is held, and what the step after it gave.
pub(crate) fn beside<T: Drop, U, E>(held: T, step: Result<U, E>) -> Result<(T, U), E>
    ensures same { IfOk result (λ both. both.0 ≡ held) }
    ensures taken { IfOk result (λ both. step ≡ Ok both.1) }
    ensures refused { IfErr result (λ fault. step ≡ Err fault) }
{
    match step {
        Ok(given) => Ok((held, given)),
        Err(fault) => Err(fault),
    }
}
