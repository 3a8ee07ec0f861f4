//! The test of a commit order against a history: whether it meets the history, or what it doesn't keep first.
//!
//! `first_unkept` is exact. It stands on the committed writers of each cell and on events that each come as the state of their sessions allow.
//! Where an order is clear from what is light of the events, nothing else is made; else the records of the transactions and their causal pasts
//! decide.
#![tactic(auto)]

mod firsts;
mod glance;
mod laws;
mod listed;
mod pasts;
mod places;
mod presences;
mod quick;
mod reaches;
mod read_at;
mod records;
mod rivals;
mod scene;
mod search;
mod sessions;
mod sight;
mod survey;
mod unkept;
mod unmet;
mod walk;

pub use laws::order_laws;
pub use places::{Places, place_at, places_of, stands_before};
pub use scene::Scene;
pub use search::{event_is_kept, first_unkept, first_unkept_by};
pub use survey::Survey;
pub use unkept::Unkept;
pub use walk::{EventWalk, InTurn};
