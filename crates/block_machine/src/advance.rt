// The steps of a message after an answer or a reply, where no memory is needed for them.
ghost use Rattle.std.specs.Prelude.{◌≡◌, ℕ, ◌<◌, ◌≤◌, List, length, false};
ghost use Rattle.block_machine.specs.Calls as calls;
ghost use Rattle.block_machine.specs.Calls.{Call as Asked, IsWant};
ghost use Rattle.block_machine.specs.Knowledge.{Knowledge};
ghost use Rattle.block_machine.specs.Script.{ask};
ghost use Rattle.block_machine.specs.Statements.{Around, fails, refused_with};
ghost use Rattle.block_machine.specs.Stages.{block_of, Advances, FitsWant, IsPlain, IsQuiet, IsAtRest, IsBusy, IsHolding, IsRunning, NoBuilt, wants, owed_at, owed_after, state_after_error, work_at, running_at};

use crate::block::{Block, Pending};
use crate::blocks::{finished, started};
use crate::call::{Answer, Call};
use crate::courses::refusal;
use crate::reply::Fixed;
use crate::stage::{ErrorState, MessageStage};
use crate::step::{fail, tell};
use crate::want::MessageWant;
use cell_base::{Level, SqlState};
use history_core::DefineAnswer;
use pg_framing::TransactionState;

// The state of a block after a statement that failed in it.
fn failed(pending: Pending) -> ErrorState
    ensures { (code : SqlState) (known : Knowledge) (around : Around) →
        fails code (block_of pending) known around ≡ ask calls.Rollback (λ a. refused_with code (state_after_error result) known around) }
{
    match pending {
        Pending::Implicit => ErrorState::Idle,
        Pending::Regular => ErrorState::Failed,
    }
}

/// The stage after the answer to a stage's call, where no memory is needed for it.
pub fn advance(stage: &MessageStage, answer: &Answer) -> MessageStage
    requires fits { (known : Knowledge) × FitsWant (wants stage.now known) answer.now }
    requires plain { IsPlain stage.now answer.now }
    ensures goes { (built : List ℕ) (known : Knowledge) → Advances stage.now known answer.now result false built known }
    ensures owed { (c : Asked) (known : Knowledge) → wants stage.now known ≡ calls.Book c →
        owed_at result ≡ owed_after c answer.now (owed_at stage.now) }
    ensures work { work_at result < work_at stage.now }
    ensures quiet { IsQuiet result }
    ensures busy { IsBusy stage.now → IsBusy result }
    ensures constant { NoBuilt result }
{
    match (stage, answer) {
        (MessageStage::Defining(_, block), Answer::Defined(DefineAnswer::Defined(_))) => {
            tell(Fixed::Created, *block)
        }
        (MessageStage::Defining(_, block), Answer::Defined(DefineAnswer::Taken(_))) => {
            fail(SqlState::S42P07, *block)
        }
        (
            MessageStage::Defining(_, block)
            | MessageStage::Looking(_, _, block)
            | MessageStage::Refreshing(block)
            | MessageStage::Showing(_, block),
            Answer::Refused(why),
        ) => fail(refusal(why), *block),
        (MessageStage::Starting(words), Answer::Begun(_)) => tell(started(*words), Block::Regular),
        (MessageStage::Starting(_), Answer::Refused(why)) => fail(
            refusal(why),
            Block::Implicit(false),
        ),
        (MessageStage::Committing(reply), Answer::Committed) => tell(
            *reply,
            Block::Implicit(false),
        ),
        (MessageStage::RollingBack(reply), Answer::RolledBack) => tell(
            *reply,
            Block::Implicit(false),
        ),
        (MessageStage::Undoing(code, pending), Answer::RolledBack) => {
            MessageStage::Failing(*code, failed(*pending))
        }
        (MessageStage::Finishing(ready), Answer::Committed) => {
            finished(*ready, TransactionState::Idle)
        }
        _ => unreachable!(),
    }
}

/// What a stage wants, given how many tables are known and the session's level.
pub fn want_of(stage: &MessageStage, known: u32, level: Level) -> MessageWant
    ensures want { (it : Knowledge) → length it.tables ≡ known → it.level ≡ level → IsWant result (wants stage.now it) }
    ensures holding { result ≡ MessageWant.Send → IsHolding stage.now }
    ensures running { result ≡ MessageWant.Cells → IsRunning stage.now }
    ensures at_rest { (result ≡ MessageWant.Cells → ⊥) → running_at stage.now ≡ 0 }
    ensures over { result ≡ MessageWant.Nothing → IsBusy stage.now → ⊥ }
    ensures idle { result ≡ MessageWant.Nothing → IsAtRest stage.now }
{
    match stage {
        MessageStage::Resting(_) | MessageStage::Skipping(_) | MessageStage::Over(_) =>
            MessageWant::Nothing,
        MessageStage::Defining(_, _) => MessageWant::Define,
        MessageStage::Looking(_, _, _) | MessageStage::Refreshing(_) => MessageWant::Book(
            Call::Look(known),
        ),
        MessageStage::Beginning(_, _) | MessageStage::Starting(_) => MessageWant::Book(Call::Begin(
            level,
        )),
        MessageStage::Running(_, _) => MessageWant::Cells,
        MessageStage::Showing(_, _) => MessageWant::Book(Call::Show),
        MessageStage::Committing(_) | MessageStage::Finishing(_) => MessageWant::Book(Call::Commit),
        MessageStage::RollingBack(_) | MessageStage::Undoing(_, _) => MessageWant::Book(
            Call::Rollback,
        ),
        MessageStage::Telling(_, _) | MessageStage::Failing(_, _) | MessageStage::Readying(_) =>
            MessageWant::Send,
    }
}
