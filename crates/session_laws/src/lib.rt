//! Laws of what `session_core` defines of a session: that a link opens one session, why it ends, what was told before memory ran out,
//! which pictures its statements were shown, that it is served to its own end, and that it keeps rows whole. There is no code here.
#![tactic(auto)]

mod completeness;
mod ends;
mod exact_ends;
mod links;
mod memory;
mod pictures;
mod rows;

pub use completeness::{
    blocks_fail_by_errors, messages_are_answered, sessions_are_complete, statements_are_told,
};
pub use ends::ends_have_causes;
pub use exact_ends::ends_are_exact;
pub use links::link_opens_one_session;
pub use memory::replies_come_first;
pub use pictures::{
    each_statement_has_one_picture, served_statements_have_pictures, session_has_transcript,
};
pub use rows::{kept_rows_are_whole, made_rows_are_whole, session_keeps_rows};
