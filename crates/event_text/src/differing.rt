// Where what was found parts from what was expected.
use std::alloc::{AllocError, Global};

// How many lines both have in common, up to the first that differs.
fn common_lines(found: &str, expected: &str) -> usize {
    let mut common: usize = 0;
    for (one, other) in found.lines().zip(expected.lines()) {
        if one != other {
            return common;
        }
        common = common.saturating_add(1);
    }
    common
}

/// How many bytes both have in common, up to the first that differs.
pub fn common_bytes(found: &[u8], expected: &[u8]) -> usize {
    let mut common: usize = 0;
    for (one, other) in found.iter().zip(expected.iter()) {
        if *one != *other {
            return common;
        }
        common = common.saturating_add(1);
    }
    common
}

/// The first event that isn't as expected, a line each, and how many are before it.
pub fn other_event(alloc: Global, found: &str, expected: &str) -> Result<String, AllocError> {
    let common = common_lines(found, expected);
    let event = found.lines().nth(common).unwrap_or("none");
    format!(in alloc; "after {common} events: {event}")
}
