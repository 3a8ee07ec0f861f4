// What was made, held over a step that may fail. What lets go of a store costs much to check wherever it stands, so it is let go here.
ghost use Rattle.std.specs.Prelude.{IsErr};

use cell_base::Memory;
use history_core::BookFault;
use std::test::Fail;

/// A call that can't be made, once what it was to be made with is let go.
pub fn refused<T: Drop>(_held: T) -> Result<(), BookFault>
    ensures { IsErr result }
{
    Err(BookFault::Memory)
}

/// What was made, or a fault where there is none.
pub fn some<T: Drop>(made: Result<Option<T>, Memory>) -> Result<T, BookFault> {
    match made? {
        Some(made) => Ok(made),
        None => Err(BookFault::Memory),
    }
}

/// Whether there is none.
pub fn none<T: Drop>(made: Result<Option<T>, Memory>) -> Result<bool, BookFault> {
    Ok(made?.is_none())
}

/// Ends the test where this isn't so.
pub fn right(what: &str, is_so: bool) -> Result<(), Fail> {
    if is_so {
        return Ok(());
    }
    Err(Fail::new(what))
}
