//! No tests, but a library of those of SQL: lines of text, what values are shown as in them, constants, and the comparison of what came with
//! what was to come. A function that adds to a line has no way out.
#![tactic(auto)]

mod boxes;
mod compared;
mod line;
mod lit;
mod shown;

pub use boxes::boxed;
pub use compared::{is, is_in, is_of_long, is_remark, right};
pub use line::Line;
pub use lit::{Lit, text_of, value_of, values_of};
pub use shown::{Shown, each, fault_shown, named};
