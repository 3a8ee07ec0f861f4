// What was made, held over a further step.
ghost use Rattle.std.specs.Prelude.{◌≡◌, Ok, Err, IfOk, IfErr};

/// What was made, and what the step after it gave. A tree that is held over a step that may fail costs much to check wherever
/// it is let go, so it is let go here.
pub fn beside<T: Drop, U, E>(made: T, step: Result<U, E>) -> Result<(T, U), E>
    ensures same { IfOk result (λ both. both.0 ≡ made) }
    ensures taken { IfOk result (λ both. step ≡ Ok both.1) }
    ensures refused { IfErr result (λ why. step ≡ Err why) }
{
    match step {
        Ok(given) => Ok((made, given)),
        Err(why) => Err(why),
    }
}
