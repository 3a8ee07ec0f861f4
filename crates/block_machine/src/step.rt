// A step of a message, and how a statement fails that is out of memory.
ghost use Rattle.std.specs.Prelude.{◌≡◌, ℕ, ◌+◌, ◌≤◌, List, true, false, IfOk};
ghost use Rattle.sql_tree.specs.declared.table.Table.{Table as Defined};
ghost use Rattle.block_machine.specs.Knowledge.{Knowledge};
ghost use Rattle.block_machine.specs.Script.{Script};
ghost use Rattle.block_machine.specs.Statements.{Around, owed_in, fails, unless_short_in};
ghost use Rattle.block_machine.specs.Stages.{IsScriptAt, IsScriptOf, LeadsTo, IsQuiet, IsRunning, IsBusy, IsSoundStage, KnowsTables, NoBuilt, HasReply, owed_at, work_at, running_at, left_at};

use crate::block::{Block, Pending};
use crate::reply::{Fixed, StatementReply};
use crate::stage::{ErrorState, MessageStage};
use cell_base::{Memory, SqlState};

/// A stage, and whether the session was out of memory on the way to it.
#[derive(Debug, Drop)]
pub struct MessageStep {
    pub stage: MessageStage,
    pub out_of_memory: bool,
}

/// The step to a stage for which there was memory.
pub fn at_rest(stage: MessageStage) -> MessageStep
    ensures { result ≡ record { stage = stage; out_of_memory = false } }
{
    MessageStep {
        stage,
        out_of_memory: false,
    }
}

/// The stage in which a statement that succeeded is told this reply.
pub fn tell(reply: Fixed, block: Block) -> MessageStage
    ensures { result ≡ MessageStage.Telling (StatementReply.Fixed reply) block }
{
    MessageStage::Telling(StatementReply::Fixed(reply), block)
}

/// The stage of a statement that fails with this code.
pub fn fail(code: SqlState, block: Block) -> MessageStage
    ensures goes { (built : List ℕ) → IsScriptOf (fails code block) result built }
    ensures owed { owed_at result ≡ owed_in block }
    ensures work { work_at result ≤ 3 }
    ensures quiet { IsQuiet result }
    ensures busy { IsBusy result }
    ensures constant { NoBuilt result }
{
    match block {
        Block::Implicit(false) => MessageStage::Failing(code, ErrorState::Idle),
        Block::Implicit(true) => MessageStage::Undoing(code, Pending::Implicit),
        Block::Regular => MessageStage::Undoing(code, Pending::Regular),
        Block::Failed => MessageStage::Failing(code, ErrorState::Failed),
    }
}

/// The step of a statement that is out of memory.
pub fn short(block: Block) -> MessageStep
    ensures goes { (script : Around → Script) (built : List ℕ) (known : Knowledge) →
        LeadsTo (λ around. unless_short_in block known around (script around)) result.stage result.out_of_memory built known }
    ensures owed { owed_at result.stage ≡ owed_in block }
    ensures work { work_at result.stage ≤ 3 }
    ensures quiet { IsQuiet result.stage }
    ensures busy { IsBusy result.stage }
    ensures constant { NoBuilt result.stage }
{
    MessageStep {
        stage: fail(SqlState::S53200, block),
        out_of_memory: true,
    }
}

/// The step to a stage, or that of a statement that is out of memory.
pub fn or_short(stage: Result<MessageStage, Memory>, block: Block) -> MessageStep
    ensures goes { (script : Around → Script) (built : List ℕ) (known : Knowledge) →
        IfOk stage (λ it. IsScriptAt script it built known) →
        LeadsTo (λ around. unless_short_in block known around (script around)) result.stage result.out_of_memory built known }
    ensures owed { IfOk stage (λ it. owed_at it ≡ owed_in block) → owed_at result.stage ≡ owed_in block }
    ensures work { (n : ℕ) → 3 ≤ n → IfOk stage (λ it. work_at it ≤ n + running_at it) →
        work_at result.stage ≤ n + running_at result.stage }
    ensures left { (n : ℕ) → IfOk stage (λ it. left_at it ≤ n) → left_at result.stage ≤ n }
    ensures silent { IfOk stage (λ it. IsRunning it → ⊥) → IsRunning result.stage → ⊥ }
    ensures quiet { IfOk stage IsQuiet → IsQuiet result.stage }
    ensures busy { IfOk stage IsBusy → IsBusy result.stage }
    ensures sound { IfOk stage IsSoundStage → IsSoundStage result.stage }
    ensures knows { (tables : List Defined) → IfOk stage (λ it. KnowsTables it tables) → KnowsTables result.stage tables }
    ensures some { (built : List ℕ) → IfOk stage (λ it. HasReply it built) → HasReply result.stage built }
{
    match stage {
        Ok(stage) => at_rest(stage),
        Err(Memory) => short(block),
    }
}
