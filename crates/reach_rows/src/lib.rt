//! Reachability kept under new edges, as rows of bits: which number reaches which over the edges
//! that were added, without walking them.
//!
//! Row `n` has the numbers that come before `n`, its ancestors. So an edge into a number that
//! nothing comes after is one union of rows, and a star, edges from many members to one target, is
//! one union of the rows of its members and one pass.
//!
//! Contracts see a `Reach` as its size and its list of pairs, those of which the first number
//! reaches the second. Each call that adds edges leaves pairs with the closure of the earlier ones
//! and the new edges; so, by the law `same_closure` of `graph_base`, they keep the closure of all
//! edges that were added, and a cycle of the pairs with a trial is a cycle of the added edges with
//! the trial. Calls that take memory answer a `Result`, whose error is out of memory. It stands on
//! `graph_base` and `bit_rows`.
#![tactic(auto)]

mod carry;
pub mod laws;
mod reach;
mod stars;
mod trial;

pub use reach::Reach;

/// Edges from each member to the target.
#[derive(Debug, Drop)]
pub struct Star {
    /// The numbers that the edges lead from.
    pub members: Vec<u32>,
    /// The number that all edges lead to.
    pub target: u32,
}
