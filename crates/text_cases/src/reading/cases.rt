// The tables: texts with the trees or the fault that stand for them, found by hand from the rules.
//
// A table is one text, which is checked much faster than a list of them. A line has a text, ` => ` and what it comes to. A line that
// begins with `#` tells what those after it show. Texts that aren't plain lines stand in lists.

mod changes;
mod expressions;
mod faults;
mod selects;
mod sessions;

pub(crate) use changes::CHANGES;
pub(crate) use expressions::{EXPRESSIONS, SPACED_EXPRESSIONS};
pub(crate) use faults::{FAULTS, LONG, RESERVED, SPACED_FAULTS, UNSUPPORTED};
pub(crate) use selects::{SELECTS, SPACED_SELECTS};
pub(crate) use sessions::SESSIONS;
