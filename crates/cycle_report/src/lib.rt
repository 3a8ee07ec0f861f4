//! The judge of any history: the strongest of the levels that it meets, whatever levels it names.
//!
//! `judge` looks at a history as if all its transactions ran at one level. It answers the strongest level that some commit order meets, with the
//! least such order, and a cycle of pairs that shows why no order meets the next level: each commit order must have each of the pairs, for the
//! reason that stands beside it. `cycle_excludes_order` says that such a cycle does show it, and `own_level_is_judged` that nothing else is judged
//! where all transactions run at the level anyway.
#![tactic(auto)]

mod demands;
mod edges;
mod judgement;
mod judging;
mod laws;
mod levels;
mod listed;
mod owners;
mod pairs;
mod pasts;
mod reasons;
mod records;
mod rings;
mod rivals;
mod sight;
mod sorting;
mod spans;
mod view;

pub use judgement::{Judgement, Reason, Step};
pub use judging::judge;
pub use laws::{cycle_excludes_order, own_level_is_judged};
