// What is to come out of reading otherwise than as one text.
use cell_base::{Memory, SqlState, Text, TextFault};
use std::fmt::Debug;
use std::test::Fail;

/// Ends the test where just this came.
pub fn is_not(name: &str, given: Result<String, Memory>, other: &str) -> Result<(), Fail> {
    let given = given?;
    distinguish(name, given.as_str(), other)
}

fn distinguish(name: &str, given: &str, other: &str) -> Result<(), Fail> {
    if given != other {
        return Ok(());
    }
    Err(Fail::new(format_args!("at {name}: \"{given}\"")))
}

/// Ends the test where the fault has another code.
pub fn is_code<F: Debug>(fault: &F, code: SqlState, want: SqlState) -> Result<(), Fail> {
    if code == want {
        return Ok(());
    }
    Err(Fail::new(format_args!("{fault:?}: {code:?} and not {want:?}")))
}

/// Ends the test where the bytes at this place are text.
pub fn is_no_text(place: usize, made: Result<Text, TextFault>) -> Result<(), Fail> {
    match made {
        Err(TextFault::NotUtf8) => Ok(()),
        _ => Err(Fail::new(format_args!("at {place}"))),
    }
}
