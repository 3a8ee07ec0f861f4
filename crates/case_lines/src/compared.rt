// The one place where what came is compared with what was to come.
use cell_base::Memory;
use std::fmt::Display;
use std::test::Fail;

/// Ends the test where this isn't so, by the name of the case.
pub fn right<D: Display + Drop>(case: D, is_so: bool) -> Result<(), Fail> {
    if is_so {
        return Ok(());
    }
    Err(Fail::new(format_args!("at {case}")))
}

/// Ends the test where something else came, by the name of the case, or its place in its table.
pub fn is<D: Display + Drop>(
    case: D,
    given: Result<String, Memory>,
    want: &str,
) -> Result<(), Fail> {
    let given = given?;
    compare(case, given.as_str(), want)
}

fn compare<D: Display + Drop>(case: D, given: &str, want: &str) -> Result<(), Fail> {
    if given == want {
        return Ok(());
    }
    Err(Fail::new(format_args!("at {case}: \"{given}\" and not \"{want}\"")))
}

/// Ends the test where something else came, by the table and the place of the case in it.
pub fn is_in(
    table: &str,
    place: usize,
    given: Result<String, Memory>,
    want: &str,
) -> Result<(), Fail> {
    is(format_args!("{table} {place}"), given, want)
}

/// Ends the test where something else came of a long text, by how the text begins and what stands in it so many times.
pub fn is_of_long(
    first: &str,
    part: &str,
    times: u32,
    given: Result<String, Memory>,
    want: &str,
) -> Result<(), Fail> {
    is(
        format_args!("{times} times {part} after {first}"),
        given,
        want,
    )
}

/// Ends the test at a line that is no case and tells nothing of cases.
pub fn is_remark(line: &str) -> Result<(), Fail> {
    if line.is_empty() || line.starts_with("#") {
        return Ok(());
    }
    Err(Fail::new(format_args!("no case: {line}")))
}
