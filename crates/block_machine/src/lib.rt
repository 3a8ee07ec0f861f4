//! The statements of a session's query messages: one after another, in implicit, regular and failed blocks.
//!
//! A [`Runner`] takes one statement after another, asks for their calls, takes the answers, and hands out replies. What a statement asks
//! for and is told stands in `specs/Statements`, and the end of a message in `specs/Messages`, as scripts over what became of it; each step
//! of the runner is one step of a script, whatever follows the statement. A [`MessageRunner`] takes a whole query message (its statements,
//! or the code with which it can't be read), and drives a runner through it. What the session knows, as the tables that it was shown and the
//! level of its transactions, is handed on through all of it.
#![tactic(auto)]

mod actions;
mod advance;
mod block;
mod blocks;
mod call;
mod courses;
mod driving;
mod end;
mod ending;
mod errors;
mod kept;
mod known;
mod let_go;
mod message;
mod message_runner;
pub mod parameters;
mod prepared;
mod reading;
mod ready;
mod replies;
mod reply;
mod runner;
mod settings;
mod stage;
mod step;
mod turns;
mod want;
mod writes;

pub use block::{Block, Owed};
pub use blocks::owed_between;
pub use call::{Answer, Call};
pub use end::{End, Stop};
pub use ending::ReadyForQuery;
pub use message::Message;
pub use message_runner::MessageRunner;
pub use outcome_replies::RowDescription;
pub use reading::read_message;
pub use ready::ReadyReplies;
pub use replies::error;
pub use runner::Runner;
pub use settings::level_named;
pub use want::MessageWant;
pub use writes::Written;
