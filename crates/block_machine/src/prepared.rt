// The replies that a message may need, made before it needs them, so that the session is never out of memory between a call and the
// reply that tells it.
ghost use Rattle.std.specs.Prelude.{◌≡◌, codes, true, false};
ghost use Rattle.block_machine.specs.Replies.{ready_reply, error_reply, empty_reply, created_reply, set_reply, start_reply, needless_start_reply, commit_reply, needless_commit_reply, rollback_reply, needless_rollback_reply, fixed_reply, bytes_of};

use crate::errors::Errors;
use crate::let_go::beside;
use crate::ready::ReadyReplies;
use crate::replies::{done, empty, warned};
use crate::reply::{Fixed, StatementReply};
use cell_base::{Memory, SqlState};
use pg_framing::TransactionState;
use std::alloc::Global;

/// The replies whose bytes are known beforehand.
#[derive(Debug, Drop)]
pub struct StatementReplies {
    states: ReadyReplies,
    plain: Plain,
    starts: Starts,
    stops: Stops,
    errors: Errors,
}

// EmptyQueryResponse, and the CommandComplete of CREATE TABLE and of SET.
#[derive(Debug, Drop)]
struct Plain {
    empty: Vec<u8>,
    created: Vec<u8>,
    set: Vec<u8>,
    ghost empty_is: { empty.items ≡ empty_reply },
    ghost created_is: { created.items ≡ created_reply },
    ghost set_is: { set.items ≡ set_reply },
}

// The replies to the statements that begin a block.
#[derive(Debug, Drop)]
struct Starts {
    begun: Vec<u8>,
    started: Vec<u8>,
    begun_again: Vec<u8>,
    started_again: Vec<u8>,
    ghost begun_is: { begun.items ≡ start_reply false },
    ghost started_is: { started.items ≡ start_reply true },
    ghost begun_again_is: { begun_again.items ≡ needless_start_reply false },
    ghost started_again_is: { started_again.items ≡ needless_start_reply true },
}

// The replies to the statements that end a block.
#[derive(Debug, Drop)]
struct Stops {
    committed: Vec<u8>,
    committed_nothing: Vec<u8>,
    rolled_back: Vec<u8>,
    rolled_back_nothing: Vec<u8>,
    ghost committed_is: { committed.items ≡ commit_reply },
    ghost committed_nothing_is: { committed_nothing.items ≡ needless_commit_reply },
    ghost rolled_back_is: { rolled_back.items ≡ rollback_reply },
    ghost rolled_back_nothing_is: { rolled_back_nothing.items ≡ needless_rollback_reply },
}

impl Plain {
    fn new(alloc: Global) -> Result<Plain, Memory> {
        Ok(Plain {
            empty: empty(alloc)?,
            created: done(alloc, b"CREATE TABLE")?,
            set: done(alloc, b"SET")?,
        })
    }
}

impl Starts {
    fn new(alloc: Global) -> Result<Starts, Memory> {
        Ok(Starts {
            begun: done(alloc, b"BEGIN")?,
            started: done(alloc, b"START TRANSACTION")?,
            begun_again: warned(alloc, SqlState::S25001, b"BEGIN")?,
            started_again: warned(alloc, SqlState::S25001, b"START TRANSACTION")?,
        })
    }
}

impl Stops {
    fn new(alloc: Global) -> Result<Stops, Memory> {
        Ok(Stops {
            committed: done(alloc, b"COMMIT")?,
            committed_nothing: warned(alloc, SqlState::S25P01, b"COMMIT")?,
            rolled_back: done(alloc, b"ROLLBACK")?,
            rolled_back_nothing: warned(alloc, SqlState::S25P01, b"ROLLBACK")?,
        })
    }
}

impl StatementReplies {
    /// Makes all of them.
    pub fn new(alloc: Global) -> Result<StatementReplies, Memory> {
        let made = ReadyReplies::new(alloc)?;
        let made = beside(made, Plain::new(alloc))?;
        let made = beside(made, Starts::new(alloc))?;
        let made = beside(made, Stops::new(alloc))?;
        let made = beside(made, Errors::new(alloc))?;
        let ((((states, plain), starts), stops), errors) = made;
        Ok(StatementReplies {
            states,
            plain,
            starts,
            stops,
            errors,
        })
    }

    /// The bytes of a reply that is known beforehand.
    fn fixed(&self, reply: Fixed) -> &[u8]
        ensures { result.now ≡ fixed_reply reply }
    {
        match reply {
            Fixed::Empty => self.plain.empty.as_slice(),
            Fixed::Created => self.plain.created.as_slice(),
            Fixed::Set => self.plain.set.as_slice(),
            Fixed::Begun => self.starts.begun.as_slice(),
            Fixed::Started => self.starts.started.as_slice(),
            Fixed::BegunAgain => self.starts.begun_again.as_slice(),
            Fixed::StartedAgain => self.starts.started_again.as_slice(),
            Fixed::Committed => self.stops.committed.as_slice(),
            Fixed::CommittedNothing => self.stops.committed_nothing.as_slice(),
            Fixed::RolledBack => self.stops.rolled_back.as_slice(),
            Fixed::RolledBackNothing => self.stops.rolled_back_nothing.as_slice(),
        }
    }

    /// The bytes of the reply to a statement that succeeded, given those that were built.
    pub fn bytes<'a>(&'a self, built: &'a [u8], reply: StatementReply) -> &'a [u8]
        ensures { result.now ≡ bytes_of built.now reply }
    {
        match reply {
            StatementReply::Built => built,
            StatementReply::Fixed(reply) => self.fixed(reply),
        }
    }

    /// The bytes of the ErrorResponse with this code.
    pub fn error(&self, state: SqlState) -> &[u8]
        ensures { result.now ≡ error_reply state }
    {
        self.errors.bytes(state)
    }

    /// The bytes of ReadyForQuery in this state.
    pub fn ready(&self, state: TransactionState) -> &[u8]
        ensures { result.now ≡ ready_reply state }
    {
        self.states.bytes(state)
    }
}
