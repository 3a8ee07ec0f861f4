//! What the program says to whoever runs it: the texts of help, and the one line that says what is wrong with words that are no command.
#![tactic(auto)]

mod complaints;
mod rules;
mod texts;
mod wrong;

pub use complaints::complaint;
pub use texts::{help_text, version_text};
