// The replies of a session that are made before it needs them, so that no lack of memory stands between a call and the reply that
// tells it.
ghost use Rattle.std.specs.Prelude.{◌≡◌};
ghost use Rattle.block_machine.specs.Replies.{error_reply};
ghost use Rattle.session_core.specs.Replies.{bytes_of, fatal_reply, fatal_state};
ghost use Rattle.cell_base.specs.declared.sql_state.SqlState.TheVariants as sql_states;

use crate::replies::fatal;
use crate::stage::{Fatal, SessionReply};
use block_machine::{ReadyReplies, error};
use cell_base::{Memory, SqlState};
use std::alloc::Global;

/// The replies whose bytes are known beforehand.
#[derive(Debug, Drop)]
pub struct SessionReplies {
    states: ReadyReplies,
    unsupported: Vec<u8>,
    fatals: Fatals,
    ghost unsupported_is: { unsupported.items ≡ error_reply sql_states.S0A000 },
}

// The replies that end a session.
#[derive(Debug, Drop)]
struct Fatals {
    protocol: Vec<u8>,
    no_user: Vec<u8>,
    version: Vec<u8>,
    full: Vec<u8>,
    ghost protocol_is: { protocol.items ≡ fatal_reply sql_states.S08P01 },
    ghost no_user_is: { no_user.items ≡ fatal_reply sql_states.S28000 },
    ghost version_is: { version.items ≡ fatal_reply sql_states.S0A000 },
    ghost full_is: { full.items ≡ fatal_reply sql_states.S54000 },
}

impl Fatals {
    fn new(alloc: Global) -> Result<Fatals, Memory> {
        Ok(Fatals {
            protocol: fatal(alloc, SqlState::S08P01)?,
            no_user: fatal(alloc, SqlState::S28000)?,
            version: fatal(alloc, SqlState::S0A000)?,
            full: fatal(alloc, SqlState::S54000)?,
        })
    }
}

impl SessionReplies {
    /// Makes all of them.
    pub fn new(alloc: Global) -> Result<SessionReplies, Memory> {
        Ok(SessionReplies {
            states: ReadyReplies::new(alloc)?,
            unsupported: error(alloc, SqlState::S0A000)?,
            fatals: Fatals::new(alloc)?,
        })
    }

    /// The bytes of a reply, given the startup reply that was built.
    pub fn bytes<'a>(&'a self, startup: &'a [u8], reply: SessionReply) -> &'a [u8]
        ensures { result.now ≡ bytes_of startup.now reply }
    {
        match reply {
            SessionReply::NoEncryption => b"N".as_slice(),
            SessionReply::Startup => startup,
            SessionReply::Ready(state) => self.states.bytes(state),
            SessionReply::Unsupported(_) => self.unsupported.as_slice(),
        }
    }

    /// The bytes of the reply that ends a session.
    pub fn last_bytes(&self, fatal: Fatal) -> &[u8]
        ensures { result.now ≡ fatal_reply (fatal_state fatal) }
    {
        match fatal {
            Fatal::Protocol(_) => self.fatals.protocol.as_slice(),
            Fatal::NoUser => self.fatals.no_user.as_slice(),
            Fatal::OtherVersion => self.fatals.version.as_slice(),
            Fatal::Full | Fatal::Spent => self.fatals.full.as_slice(),
        }
    }
}
