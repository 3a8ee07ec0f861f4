// The row at which a test fails.
use std::test::Fail;

/// Ends the test where this isn't so, by the place in its table.
pub fn right_at(place: usize, is_so: bool) -> Result<(), Fail> {
    if is_so {
        return Ok(());
    }
    Err(Fail::new(format_args!("row {place}")))
}
