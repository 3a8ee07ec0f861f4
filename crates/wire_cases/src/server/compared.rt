// Where what came is compared with what is to come.
use cell_base::Memory;
use std::test::Fail;

/// Ends the test where this isn't so, by the table and the place of the case in it.
pub fn right(table: &str, place: usize, is_so: bool) -> Result<(), Fail> {
    if is_so {
        return Ok(());
    }
    Err(Fail::new(format_args!("{table} at {place}")))
}

/// Ends the test where other bytes came.
pub fn is(
    table: &str,
    place: usize,
    given: Result<Vec<u8>, Memory>,
    want: &[u8],
) -> Result<(), Fail> {
    let given = given?;
    right(table, place, given.as_slice() == want)
}
