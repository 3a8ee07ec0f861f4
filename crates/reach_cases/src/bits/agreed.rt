//! The step at which a test fails.

use std::test::Fail;

/// Ends the test at this step where it doesn't hold.
pub(crate) fn agree(holds: bool, place: usize) -> Result<(), Fail> {
    if holds {
        return Ok(());
    }
    Err(Fail::new(format_args!("step {place}")))
}
