//! What a read may see where one session was opened. There is no code here.
#![tactic(auto)]

mod laws;

pub use laws::one_session_permits;
