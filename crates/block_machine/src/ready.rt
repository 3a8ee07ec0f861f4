// ReadyForQuery, made before it is needed.
ghost use Rattle.std.specs.Prelude.{◌≡◌};
ghost use Rattle.block_machine.specs.Replies.{ready_reply};
ghost use Rattle.pg_framing.specs.declared.replies.TransactionState.TheVariants as states;

use crate::replies::ready;
use cell_base::Memory;
use pg_framing::TransactionState;
use std::alloc::Global;

/// ReadyForQuery, by the state of the session.
#[derive(Debug, Drop)]
pub struct ReadyReplies {
    idle: Vec<u8>,
    block: Vec<u8>,
    failed: Vec<u8>,
    ghost idle_is: { idle.items ≡ ready_reply states.Idle },
    ghost block_is: { block.items ≡ ready_reply states.Block },
    ghost failed_is: { failed.items ≡ ready_reply states.Failed },
}

impl ReadyReplies {
    /// Makes all of them.
    pub fn new(alloc: Global) -> Result<ReadyReplies, Memory> {
        Ok(ReadyReplies {
            idle: ready(alloc, TransactionState::Idle)?,
            block: ready(alloc, TransactionState::Block)?,
            failed: ready(alloc, TransactionState::Failed)?,
        })
    }

    /// The bytes of ReadyForQuery in this state.
    pub fn bytes(&self, state: TransactionState) -> &[u8]
        ensures { result.now ≡ ready_reply state }
    {
        match state {
            TransactionState::Idle => self.idle.as_slice(),
            TransactionState::Block => self.block.as_slice(),
            TransactionState::Failed => self.failed.as_slice(),
        }
    }
}
