// What lets go of a value, whatever that holds.
ghost use Rattle.std.specs.Prelude.{◌≡◌, Ok, IfOk};

use cell_base::Memory;

/// The answer, once what it was made of is let go. What lets go of a large value costs much to check wherever it stands.
pub fn without<T: Drop, A>(held: T, answer: A) -> A
    ensures { result ≡ answer }
{
    let _held = held;
    answer
}

/// What was made, and what is made next; where memory runs out, what was made is let go here.
pub fn beside<T: Drop, U>(made: T, next: Result<U, Memory>) -> Result<(T, U), Memory>
    ensures same { IfOk result (λ both. both.0 ≡ made) }
    ensures taken { IfOk result (λ both. next ≡ Ok both.1) }
{
    let next = next?;
    Ok((made, next))
}
