// Texts that are made.
use case_lines::Line;
use std::alloc::{AllocError, Global};

/// A long text: how it begins, what opens so many times, what stands inside, and what closes as often; and what it comes to.
pub type Long = (
    &'static str,
    &'static str,
    u32,
    &'static str,
    &'static str,
    &'static str,
);

fn push_long(line: &mut Line, long: &Long) {
    let (first, open, times, inner, close, _) = *long;
    line.word(first);
    line.times(open, times);
    line.word(inner);
    line.times(close, times);
}

/// The text.
pub fn long_text(alloc: Global, long: &Long) -> Result<String, AllocError> {
    let mut line = Line::new(alloc);
    push_long(&mut line, long);
    line.whole()
}

/// The text of these parts.
pub fn joined(alloc: Global, parts: &[&str]) -> Result<String, AllocError> {
    let mut line = Line::new(alloc);
    for part in parts {
        line.word(part);
    }
    line.whole()
}
