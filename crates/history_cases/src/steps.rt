// Steps that many tests take.
use cell_base::Memory;
use std::test::Fail;

/// Adds what was made.
pub fn push<T: Drop>(list: &mut Vec<T>, item: T) -> Result<(), Memory> {
    list.push(item)?;
    Ok(())
}

/// Ends the test where this isn't so.
pub fn right(what: &str, is_so: bool) -> Result<(), Fail> {
    if is_so {
        return Ok(());
    }
    Err(Fail::new(what))
}

/// The same of a case of a table, by its place in it.
pub fn right_at(table: &str, place: usize, is_so: bool) -> Result<(), Fail> {
    if is_so {
        return Ok(());
    }
    Err(Fail::new(format_args!("{table} at {place}")))
}
