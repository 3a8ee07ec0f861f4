//! Laws of the program and of its commands: that bytes and choice words have one history, that commands come to their ends and
//! what `check` finds of their logs, that each link of a server is one session, and that no read shows a field without a value. There is
//! no code here.
#![tactic(auto)]

mod completeness;
mod one_history;
mod rows;
mod serving;
mod setups;
mod simulations;

pub use completeness::{
    checks_are_complete, cut_logs_have_faults, own_logs_are_right, pipes_are_complete,
    servers_are_complete, simulations_are_complete, statuses_have_causes, verdicts_are_exact,
    visits_are_complete,
};
pub use one_history::{bytes_have_one_history, pipe_has_one_history, program_runs_are_alike};
pub use rows::{pipe_is_whole, simulations_are_whole};
pub use serving::{serve_is_whole, served_links_are_sessions};
pub use setups::setups_leave_whole_rows;
pub use simulations::{free_calls_are_few, simulations_end};
