//! One session over a link: the messages of a client come in, calls are made of a book, and replies go out.
//!
//! What a session is told is a function of the bytes that its client sent and of the record of what became of its calls (`specs/Told`). A
//! record is valid where its calls were made of the book in order, and its events are those that the book made (`specs/Record`).
//! [`serve_link`] runs a session over any book, link and choice words: what it sent is told of what it read and of a valid record
//! (`specs/Serve`). It drives a [`Session`], a machine that takes bytes and answers and hands out calls and replies: whatever it is fed and
//! answered, what was taken from it and what it wants is told of all that came in (`specs/Sessions`).
#![tactic(auto)]

mod answers;
mod calling;
mod calls;
mod driving;
mod messages;
mod phase;
mod prepared;
mod replies;
mod serve;
mod served;
mod session;
mod stage;
mod turns;
mod user;
mod want;

pub use block_machine::{Answer, Call, End, Stop};
pub use calling::{make_call, sessions_sit_while_others_go_on};
pub use driving::drive;
pub use serve::serve_link;
pub use served::Served;
pub use session::Session;
pub use want::Want;
