//! Values that are held over a step that may fail, handed on, or let go, whatever they hold.
//!
//! Where a function holds a value and answers a fault, it lets go of the value there. What lets go of a store, a history, a tree or a table costs
//! much to check wherever it stands, so it is done here, once for all types.
#![tactic(auto)]

ghost use Rattle.std.specs.Prelude.{◌≡◌, Ok, Err, IfOk, OnOk, IfErr, IsOk};

/// What is held, if the step after it could be taken.
pub fn kept<T: Drop, E>(held: T, step: Result<(), E>) -> Result<T, E>
    ensures same { IfOk result (λ kept. kept ≡ held) }
    ensures taken { OnOk result (step ≡ Ok tt) }
    ensures refused { IfErr result (λ fault. step ≡ Err fault) }
{
    match step {
        Ok(()) => Ok(held),
        Err(fault) => Err(fault),
    }
}

/// What is held, and what the step after it gave.
pub fn beside<T: Drop, U, E>(held: T, step: Result<U, E>) -> Result<(T, U), E>
    ensures same { IfOk result (λ both. both.0 ≡ held) }
    ensures taken { IfOk result (λ both. step ≡ Ok both.1) }
    ensures refused { IfErr result (λ fault. step ≡ Err fault) }
{
    match step {
        Ok(given) => Ok((held, given)),
        Err(fault) => Err(fault),
    }
}

/// Both, if both could be made.
pub fn both<A: Drop, B: Drop, E: Drop>(
    first: Result<A, E>,
    second: Result<B, E>,
) -> Result<(A, B), E>
    ensures left { IfOk result (λ both. first ≡ Ok both.0) }
    ensures right { IfOk result (λ both. second ≡ Ok both.1) }
{
    let a = first?;
    let b = second?;
    Ok((a, b))
}

/// The answer, once what was asked is let go.
pub fn without<T: Drop, A>(asked: T, answer: A) -> A
    ensures { result ≡ answer }
{
    let _asked = asked;
    answer
}

/// What the step came to, once what it gave is let go.
pub fn let_go<T: Drop, E>(step: Result<T, E>) -> Result<(), E>
    ensures taken { OnOk result (IsOk step) }
    ensures refused { IfErr result (λ fault. step ≡ Err fault) }
{
    match step {
        Ok(_given) => Ok(()),
        Err(fault) => Err(fault),
    }
}

/// Puts a value in the place of another, which is let go.
pub fn put<T: Drop>(place: &mut T, value: T)
    ensures { place.new ≡ value }
{
    *place = value;
}
