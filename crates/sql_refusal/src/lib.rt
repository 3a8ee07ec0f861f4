//! Why a token list outside the limited grammar is refused.
#![tactic(auto)]

mod cause;
mod expression;
mod judge;
mod message;
mod pass;
mod pieces;
mod rule;
mod statement;
mod words;

pub use cause::Cause;
pub use judge::cause_of;
