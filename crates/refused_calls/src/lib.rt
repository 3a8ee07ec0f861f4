//! What a refused call leaves of the book of a store. There is no code here.
#![tactic(auto)]

mod law;

pub use law::refused_calls_leave_all;
