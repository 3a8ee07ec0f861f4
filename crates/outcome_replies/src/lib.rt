//! The replies of statements that read or write rows: the messages of what a statement came to, and that each statement with types
//! comes to something that fits messages.
#![tactic(auto)]

mod description;
mod law;
mod reply;

pub use description::RowDescription;
pub use law::outcomes_can_be_told;
pub use reply::reply_of;
