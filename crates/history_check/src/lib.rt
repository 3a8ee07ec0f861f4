//! The judge of a trace: whether its events are a history, and whether its order meets it.
//!
//! `check_events` numbers the cells of all events, then goes through the events once, with notes of its own, and answers the first breach: of the first event that breaks a rule,
//! and of the first rule that it breaks. `event_laws` says what that comes to. `check` judges the order as well, by
//! `order_test`; `trace_laws` says that its answers exclude each other, and `legal_laws` that a legal history has no breach. `check_order` judges
//! the order alone, where the events are right and the notes of their cells are there.
#![tactic(auto)]

mod breach;
mod broken_rule;
mod cell_notes;
mod commits;
mod events;
mod judge;
mod keys;
mod laws;
mod notes;
mod noting;
mod order;
mod pending_writes;
mod rows;
mod session_note;
mod session_notes;
mod shape;
mod sources;
mod spelled;
mod table_keys;
mod writers;

pub use breach::{Breach, CheckFault};
pub use commits::set_committed;
pub use events::check_events;
pub use laws::{event_laws, legal_laws, trace_laws};
pub use order::{check, check_by, check_order, check_order_by};
pub use pending_writes::{PendingWrites, add_place, clear_pending};
pub use session_note::SessionNote;
pub use session_notes::{close_session, set_pending};
pub use shape::{is_storable, table_in};
pub use sources::is_absent_value;
pub use writers::{note_all_committed, set_place};
