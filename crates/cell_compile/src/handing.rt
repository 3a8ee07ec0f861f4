// Values that are handed on, or let go, whatever they hold. Statements and tables cost much to check wherever they are let
// go, so it is done here.
ghost use Rattle.std.specs.Prelude.{◌≡◌, Ok, IfOk};

use cell_base::Memory;

/// What is held, beside what the step gave.
pub fn beside<T: Drop, U>(held: T, step: Result<U, Memory>) -> Result<(T, U), Memory>
    ensures same { IfOk result (λ both. both.0 ≡ held) }
    ensures taken { IfOk result (λ both. step ≡ Ok both.1) }
{
    let given = step?;
    Ok((held, given))
}

/// The answer, once what was asked is let go.
pub fn without<T: Drop, U>(_asked: T, answer: U) -> U
    ensures { result ≡ answer }
{
    answer
}

/// Puts a value in the place of another.
pub fn put<T: Drop>(place: &mut T, value: T)
    ensures { place.new ≡ value }
{
    *place = value;
}
