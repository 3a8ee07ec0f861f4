//! No tests, but a library of those of kept reachability and of its measurements: calls of a `Reach` with tests in the place of their
//! conditions, and pseudo-random numbers.
#![tactic(auto)]

mod calls;
mod numbers;

pub use calls::{
    close_stars, closes, closes_star, count_ancestors, try_star, try_stars, without_edges, would,
};
pub use numbers::Numbers;
