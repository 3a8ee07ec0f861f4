// The statements that begin and end blocks, and the end of a message.
ghost use Rattle.std.specs.Prelude.{◌≡◌, ℕ, ◌≤◌, List, IfSome, IsNone};
ghost use Rattle.block_machine.specs.Knowledge.{Knowledge};
ghost use Rattle.block_machine.specs.Script.{Said, Entry};
ghost use Rattle.block_machine.specs.Replies.{fixed_reply, start_reply, needless_start_reply};
ghost use Rattle.block_machine.specs.Statements.{Around, owed_in, starts, commits, rolls_back, in_failed};
ghost use Rattle.block_machine.specs.Messages.{Outside, owed_between, finishes};
ghost use Rattle.block_machine.specs.Messages as spec;
ghost use Rattle.block_machine.specs.Stages.{IsScriptOf, IsAtRest, IsQuiet, IsBusy, NoBuilt, is_start_transaction, owed_at, work_at, resumes};
ghost use Rattle.block_machine.specs.Stages as stages_spec;

use crate::block::{Block, Owed, Pending};
use crate::ending::ReadyForQuery;
use crate::reply::Fixed;
use crate::stage::{ErrorState, MessageStage, StartWords};
use crate::step::{fail, tell};
use cell_base::SqlState;
use pg_framing::TransactionState;
use sql_tree::Statement;

/// The block that a message finds.
pub fn block_at(state: TransactionState) -> Block
    ensures at { result ≡ spec.block_at state }
    ensures owed { owed_in result ≡ owed_between state }
{
    match state {
        TransactionState::Idle => Block::Implicit(false),
        TransactionState::Block => Block::Regular,
        TransactionState::Failed => Block::Failed,
    }
}

/// What a session owes its book between two messages.
pub fn owed_between(state: TransactionState) -> Owed
    ensures { result ≡ owed_between state }
{
    match state {
        TransactionState::Block => Owed::Rollback,
        TransactionState::Idle | TransactionState::Failed => Owed::Close,
    }
}

/// The block of a pending transaction.
pub fn block_of(pending: Pending) -> Block
    ensures { result ≡ stages_spec.block_of pending }
{
    match pending {
        Pending::Implicit => Block::Implicit(true),
        Pending::Regular => Block::Regular,
    }
}

/// The words of BEGIN, or of START TRANSACTION where the statement's flag is true.
pub fn words_of(flag: bool) -> StartWords
    ensures { is_start_transaction result ≡ flag }
{
    if flag {
        StartWords::StartTransaction
    } else {
        StartWords::Begin
    }
}

/// The reply to a statement that begins a block.
pub fn started(words: StartWords) -> Fixed
    ensures { fixed_reply result ≡ start_reply (is_start_transaction words) }
{
    match words {
        StartWords::Begin => Fixed::Begun,
        StartWords::StartTransaction => Fixed::Started,
    }
}

// The same inside a block.
fn started_again(words: StartWords) -> Fixed
    ensures { fixed_reply result ≡ needless_start_reply (is_start_transaction words) }
{
    match words {
        StartWords::Begin => Fixed::BegunAgain,
        StartWords::StartTransaction => Fixed::StartedAgain,
    }
}

/// The stage of a statement that begins a block.
pub fn start(words: StartWords, block: Block) -> MessageStage
    ensures goes { (built : List ℕ) → IsScriptOf (starts (is_start_transaction words) block) result built }
    ensures owed { owed_at result ≡ owed_in block }
    ensures work { work_at result ≤ 4 }
    ensures quiet { IsQuiet result }
    ensures busy { IsBusy result }
    ensures constant { NoBuilt result }
{
    match block {
        Block::Implicit(false) => MessageStage::Starting(words),
        Block::Implicit(true) => tell(started(words), Block::Regular),
        Block::Regular => tell(started_again(words), Block::Regular),
        Block::Failed => fail(SqlState::S25P02, Block::Failed),
    }
}

/// The stage of COMMIT.
pub fn commit(block: Block) -> MessageStage
    ensures goes { (built : List ℕ) → IsScriptOf (commits block) result built }
    ensures owed { owed_at result ≡ owed_in block }
    ensures work { work_at result ≤ 4 }
    ensures quiet { IsQuiet result }
    ensures busy { IsBusy result }
    ensures constant { NoBuilt result }
{
    match block {
        Block::Implicit(false) => tell(Fixed::CommittedNothing, Block::Implicit(false)),
        Block::Implicit(true) => MessageStage::Committing(Fixed::CommittedNothing),
        Block::Regular => MessageStage::Committing(Fixed::Committed),
        Block::Failed => tell(Fixed::RolledBack, Block::Implicit(false)),
    }
}

/// The stage of ROLLBACK.
pub fn roll_back(block: Block) -> MessageStage
    ensures goes { (built : List ℕ) → IsScriptOf (rolls_back block) result built }
    ensures owed { owed_at result ≡ owed_in block }
    ensures work { work_at result ≤ 4 }
    ensures quiet { IsQuiet result }
    ensures busy { IsBusy result }
    ensures constant { NoBuilt result }
{
    match block {
        Block::Implicit(false) => tell(Fixed::RolledBackNothing, Block::Implicit(false)),
        Block::Implicit(true) => MessageStage::RollingBack(Fixed::RolledBackNothing),
        Block::Regular => MessageStage::RollingBack(Fixed::RolledBack),
        Block::Failed => tell(Fixed::RolledBack, Block::Implicit(false)),
    }
}

/// The stage of a statement of a failed block.
pub fn refuse(statement: &Statement) -> MessageStage
    ensures goes { (built : List ℕ) → IsScriptOf (in_failed statement.now) result built }
    ensures owed { owed_at result ≡ owed_in Block.Failed }
    ensures work { work_at result ≤ 4 }
    ensures quiet { IsQuiet result }
    ensures busy { IsBusy result }
    ensures constant { NoBuilt result }
{
    match statement {
        Statement::Commit => commit(Block::Failed),
        Statement::Rollback => roll_back(Block::Failed),
        _ => fail(SqlState::S25P02, Block::Failed),
    }
}

/// The stage in which a message is at its end, or in which its ReadyForQuery is held.
pub fn finished(ready: ReadyForQuery, state: TransactionState) -> MessageStage
    ensures goes { (built : List ℕ) (known : Knowledge) (around : Around) (outside : Outside) (said : Said) (es : List Entry) →
        spec.finished ready state known outside said es ≡ resumes result built known around outside said es }
    ensures owed { owed_at result ≡ owed_between state }
    ensures work { work_at result ≤ 1 }
    ensures quiet { IsQuiet result }
    ensures told { ready ≡ ReadyForQuery.Told → IsBusy result }
    ensures constant { NoBuilt result }
{
    match ready {
        ReadyForQuery::Told => MessageStage::Readying(state),
        ReadyForQuery::Omitted => MessageStage::Over(state),
    }
}

/// The stage of the end of a message.
pub fn finish(ready: ReadyForQuery, block: Block) -> MessageStage
    ensures goes { (built : List ℕ) (known : Knowledge) (around : Around) (outside : Outside) (said : Said) (es : List Entry) →
        finishes ready block known outside said es ≡ resumes result built known around outside said es }
    ensures owed { owed_at result ≡ owed_in block }
    ensures work { work_at result ≤ 2 }
    ensures closed { owed_in block ≡ Owed.Close → work_at result ≤ 1 }
    ensures quiet { IsQuiet result }
    ensures told { ready ≡ ReadyForQuery.Told → IsBusy result }
    ensures constant { NoBuilt result }
{
    match block {
        Block::Implicit(false) => finished(ready, TransactionState::Idle),
        Block::Implicit(true) => MessageStage::Finishing(ready),
        Block::Regular => finished(ready, TransactionState::Block),
        Block::Failed => finished(ready, TransactionState::Failed),
    }
}

/// The block in which the next statement stands, where nothing is under way.
pub fn block_in(stage: &MessageStage) -> Block
    requires { IsAtRest stage.now }
    ensures block { result ≡ stages_spec.block_in stage.now }
    ensures owed { owed_in result ≡ owed_at stage.now }
{
    match stage {
        MessageStage::Resting(block) => *block,
        MessageStage::Skipping(ErrorState::Idle) => Block::Implicit(false),
        MessageStage::Skipping(ErrorState::Failed) => Block::Failed,
        MessageStage::Over(state) => block_at(*state),
        _ => unreachable!(),
    }
}
