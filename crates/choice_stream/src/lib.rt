//! Streams of choice words.
//!
//! [`ListWords`] gives the words of a list in order, and then 0 for ever (`specs/Choices`). [`SeedWords`] gives those of one stream of a
//! ChaCha20 generator, whose key is a seed (`specs/Seeds`). Neither making them nor drawing a word takes memory.
#![tactic(auto)]

mod list_words;
mod seed_words;

pub use list_words::ListWords;
pub use seed_words::SeedWords;
