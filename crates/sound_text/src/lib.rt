//! The tables that texts create are sound, as long as no zero byte stands in the text.
#![tactic(auto)]

mod law;

pub use law::{built_is_sound, tokens_are_plain};
