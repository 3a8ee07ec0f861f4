//! One history that any number of sessions share, each in a thread of its own.
//!
//! [`Shared`] keeps a store under a turn lock. Each thread has a [`Pass`], and with it a [`SharedBook`]: a book whose every call is one
//! turn of the lock, and adds at most one event. So what other sessions do comes between two calls, and never within one. Contracts of
//! a book see the history as its last call left it; [`Shared::finish`] gives the store back once all passes are joined into one, and says
//! that the events of each session are just those that its book had made its own, in their order. What a pass has seen is a front of that
//! history: a beginning, with the tables that it defines (`specs/Fronts`). A front of a legal history is legal ([`fronts_are_legal`]).
//!
//! A call that may wait owes no return: nothing is promised of progress, fairness or time.
#![tactic(auto)]

mod book;
mod calls;
mod entry;
mod kept;
mod law;
mod place;
mod seat;
mod shared;

pub use book::SharedBook;
pub use entry::Entry;
pub use kept::Kept;
pub use law::fronts_are_legal;
pub use shared::{Pass, Shared};
