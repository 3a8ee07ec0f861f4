// A statement that reads or writes rows: its look, its typing, and its course after each answer.
ghost use Rattle.std.specs.Prelude.{◌≡◌, ℕ, ◌+◌, ◌<◌, ◌≤◌, ◌^◌, List, length, All, true, false, IfOk, IfErr};
ghost use Rattle.cell_base.specs.declared.level.Level.{Level};
ghost use Rattle.sql_tree.specs.declared.table.Table.{Table as Defined};
ghost use Rattle.typing_rules.specs.Typed.{typed};
ghost use Rattle.sound_table.specs.Sound.{IsSound};
ghost use Rattle.described_columns.specs.Described.{HasPlainNames};
ghost use Rattle.outcome_replies.specs.Replies.{CanBeTold};
ghost use Rattle.outcome_replies.specs.Ends.{EndsIn};
ghost use Rattle.statement_course.specs.declared.demand.Demand.{Demand as Demanded};
ghost use Rattle.statement_course.specs.Laws.{ReadsFirst};
ghost use Rattle.statement_course.specs.Course.{first_demand, following, FitsDemand};
ghost use Rattle.statement_course.specs.Statements.{course_of};
ghost use Rattle.cell_compile.specs.Narrow.{AreNarrow};
ghost use Rattle.cell_compile.specs.Plans.{rest_of, left_of};
ghost use Rattle.block_machine.specs.Calls as calls;
ghost use Rattle.block_machine.specs.Calls.{asks_cells, call_for};
ghost use Rattle.block_machine.specs.Knowledge.{Knowledge, knowledge_in};
ghost use Rattle.block_machine.specs.Statements.{owed_in, refusal_state, concludes, runs, begins, judged};
ghost use Rattle.block_machine.specs.Stages.{IsScriptOf, IsScriptAt, Advances, Fits, IsQuiet, IsRunning, IsBusy, IsSoundStage, KnowsTables, IsKnownAfter, HasReply, owed_at, owed_after, work_at, running_at, left_at, answer_with};
ghost use Rattle.block_machine.specs.Stages as stages_spec;

use crate::block::{Block, Owed, Pending};
use crate::blocks::block_of;
use crate::call::Answer;
use crate::kept::Kept;
use crate::known::Known;
use crate::reply::StatementReply;
use crate::stage::{MessageStage, Run};
use crate::step::{MessageStep, at_rest, fail, or_short, short};
use cell_base::{Items, Memory, SqlFault, SqlState};
use cell_compile::Plan;
use history_core::BookFault;
use outcome_replies::{RowDescription, reply_of};
use sql_tree::{Statement, Table, Typed};
use sql_types::typed;
use statement_course::{Demand, Outcome, PlanAnswer};
use std::alloc::Global;

/// The code of a statement whose call was refused.
pub fn refusal(why: &BookFault) -> SqlState
    ensures { result ≡ refusal_state why.now }
{
    match why {
        BookFault::Full(_) => SqlState::S54000,
        BookFault::Memory => SqlState::S53200,
    }
}

/// The stage of a statement that is done: its reply, or its failure.
pub fn conclude(
    alloc: Global,
    outcome: &Outcome,
    description: RowDescription,
    block: Block,
    built: &mut Vec<u8>,
) -> Result<MessageStage, Memory>
    requires { CanBeTold outcome.now }
    ensures goes { IfOk result (λ stage. IsScriptOf (concludes description outcome.now block) stage built.new.items) }
    ensures owed { IfOk result (λ stage. owed_at stage ≡ owed_in block) }
    ensures work { IfOk result (λ stage. work_at stage ≤ 3) }
    ensures quiet { IfOk result IsQuiet }
    ensures busy { IfOk result IsBusy }
    ensures some { IfOk result (λ stage. HasReply stage built.new.items) }
{
    if let Outcome::Failed(code) = outcome {
        return Ok(fail(*code, block));
    }
    *built = reply_of(alloc, outcome, description)?;
    Ok(MessageStage::Telling(StatementReply::Built, block))
}

/// The stage of a statement that runs on, or is done.
pub fn settle(
    alloc: Global,
    plan: Kept<Plan>,
    description: RowDescription,
    pending: Pending,
    built: &mut Vec<u8>,
) -> Result<MessageStage, Memory>
    requires { EndsIn CanBeTold (rest_of plan) }
    ensures goes { IfOk result (λ stage. IsScriptOf (runs description (rest_of plan) (stages_spec.block_of pending)) stage built.new.items) }
    ensures owed { IfOk result (λ stage. owed_at stage ≡ Owed.Rollback) }
    ensures work { IfOk result (λ stage. work_at stage ≤ 4 + running_at stage) }
    ensures left { IfOk result (λ stage. left_at stage ≤ 1 + left_of plan) }
    ensures knows { IfOk result (λ stage. (tables : List Defined) → ReadsFirst (length tables) (rest_of plan) → KnowsTables stage tables) }
    ensures sound { IfOk result IsSoundStage }
    ensures busy { IfOk result IsBusy }
    ensures some { IfOk result (λ stage. HasReply stage built.new.items) }
{
    if let Demand::Reply(outcome) = plan.get().demand() {
        return conclude(alloc, outcome, description, block_of(pending), built);
    }
    Ok(MessageStage::Running(Run { plan, description }, pending))
}

/// The stage of a statement whose course begins.
#[tactic(auto, using(crate::proofs::Holding::holding_some))]
pub fn begin_course(
    alloc: Global,
    plan: Kept<Plan>,
    description: RowDescription,
    block: Block,
    built: &mut Vec<u8>,
) -> Result<MessageStage, Memory>
    requires { EndsIn CanBeTold (rest_of plan) }
    ensures goes { IfOk result (λ stage. IsScriptOf (begins description (rest_of plan) block) stage built.new.items) }
    ensures owed { IfOk result (λ stage. owed_at stage ≡ owed_in block) }
    ensures work { IfOk result (λ stage. work_at stage ≤ 6) }
    ensures knows { IfOk result (λ stage. (tables : List Defined) → ReadsFirst (length tables) (rest_of plan) → KnowsTables stage tables) }
    ensures sound { IfOk result IsSoundStage }
    ensures busy { IfOk result IsBusy }
    ensures some { IfOk result (λ stage. HasReply stage built.new.items) }
{
    match block {
        Block::Implicit(false) => Ok(MessageStage::Beginning(plan, description)),
        Block::Implicit(true) => settle(alloc, plan, description, Pending::Implicit, built),
        Block::Regular => settle(alloc, plan, description, Pending::Regular, built),
        Block::Failed => Ok(fail(SqlState::S25P02, Block::Failed)),
    }
}

// The stage of a statement after the answer to its demand.
fn go_on(
    alloc: Global,
    plan: Kept<Plan>,
    description: RowDescription,
    pending: Pending,
    answer: PlanAnswer,
    built: &mut Vec<u8>,
) -> Result<MessageStage, Memory>
    requires fits { FitsDemand (rest_of plan) answer }
    requires told { EndsIn CanBeTold (rest_of plan) }
    ensures goes { IfOk result (λ stage.
        IsScriptOf (runs description (following (rest_of plan) answer) (stages_spec.block_of pending)) stage built.new.items) }
    ensures owed { IfOk result (λ stage. owed_at stage ≡ Owed.Rollback) }
    ensures work { IfOk result (λ stage. work_at stage ≤ 4 + running_at stage) }
    ensures left { IfOk result (λ stage. left_at stage ≤ left_of plan) }
    ensures knows { IfOk result (λ stage. (tables : List Defined) →
        ReadsFirst (length tables) (following (rest_of plan) answer) → KnowsTables stage tables) }
    ensures sound { IfOk result IsSoundStage }
    ensures busy { IfOk result IsBusy }
    ensures some { IfOk result (λ stage. HasReply stage built.new.items) }
{
    let mut plan = plan.into_box();
    plan.answer(answer)?;
    settle(alloc, Kept::from_box(plan), description, pending, built)
}

// The answer to a demand, or why it was refused.
fn answer_to_demand(answer: Answer) -> Result<PlanAnswer, BookFault>
    requires { (demand : Demanded) × (asks_cells demand ≡ true) × Fits (call_for demand) answer }
    ensures ok { IfOk result (λ it. answer ≡ answer_with it) }
    ensures err { IfErr result (λ why. answer ≡ Answer.Refused why) }
{
    match answer {
        Answer::Listed(keys) => Ok(PlanAnswer::Keys(keys)),
        Answer::Found(value) => Ok(PlanAnswer::Value(value)),
        Answer::Written => Ok(PlanAnswer::Written),
        Answer::Refused(why) => Err(why),
        _ => unreachable!(),
    }
}

/// The step of a running statement after the answer to its demand.
pub fn pursue(
    alloc: Global,
    run: Run,
    pending: Pending,
    answer: Answer,
    built: &mut Vec<u8>,
) -> MessageStep
    requires fits { Fits (call_for (first_demand (rest_of run.plan))) answer }
    requires told { EndsIn CanBeTold (rest_of run.plan) }
    ensures goes { (known : Knowledge) →
        Advances (MessageStage.Running run pending) known answer result.stage result.out_of_memory built.new.items known }
    ensures owed { owed_at result.stage ≡ Owed.Rollback }
    ensures work { work_at result.stage ≤ 4 + running_at result.stage }
    ensures left { left_at result.stage < 1 + left_of run.plan }
    ensures knows { (tables : List Defined) → ReadsFirst (length tables) (rest_of run.plan) → KnowsTables result.stage tables }
    ensures sound { IsSoundStage result.stage }
    ensures busy { IsBusy result.stage }
    ensures some { HasReply result.stage built.new.items }
{
    match answer_to_demand(answer) {
        Ok(answer) => {
            let Run { plan, description } = run;
            let stage = go_on(alloc, plan, description, pending, answer, built);
            or_short(stage, block_of(pending))
        }
        Err(why) => at_rest(fail(refusal(&why), block_of(pending))),
    }
}

/// The step of a statement after the answer to the begin of its transaction.
pub fn start_course(
    alloc: Global,
    plan: Kept<Plan>,
    description: RowDescription,
    answer: Answer,
    built: &mut Vec<u8>,
) -> MessageStep
    requires fits { (level : Level) × Fits (calls.Begin level) answer }
    requires told { EndsIn CanBeTold (rest_of plan) }
    ensures goes { (known : Knowledge) → Advances (MessageStage.Beginning plan description) known answer result.stage result.out_of_memory built.new.items known }
    ensures owed { (level : Level) → owed_at result.stage ≡ owed_after (calls.Begin level) answer Owed.Close }
    ensures work { work_at result.stage ≤ 4 + running_at result.stage }
    ensures knows { (tables : List Defined) → ReadsFirst (length tables) (rest_of plan) → KnowsTables result.stage tables }
    ensures sound { IsSoundStage result.stage }
    ensures busy { IsBusy result.stage }
    ensures some { HasReply result.stage built.new.items }
{
    match answer {
        Answer::Begun(_) => {
            let stage = settle(alloc, plan, description, Pending::Implicit, built);
            or_short(stage, Block::Implicit(true))
        }
        Answer::Refused(why) => at_rest(fail(refusal(&why), Block::Implicit(false))),
        _ => unreachable!(),
    }
}

// The plan of a statement over tables.
fn planned(alloc: Global, typed: Typed, tables: &[Table]) -> Result<Kept<Plan>, Memory>
    requires { AreNarrow tables.now }
    ensures { IfOk result (λ plan. rest_of plan ≡ course_of tables.now typed) }
{
    let plan = Plan::new(alloc, typed, tables)?;
    Kept::new(alloc, plan)
}

// The stage of a statement over the tables that are known.
fn judge(
    alloc: Global,
    statement: &Statement,
    description: RowDescription,
    block: Block,
    known: &Known,
    built: &mut Vec<u8>,
) -> Result<MessageStage, Memory>
    requires few { length known.now.tables.items < 2 ^ 32 }
    requires tables { All IsSound known.now.tables.items }
    requires plain { HasPlainNames statement.now }
    ensures goes { IfOk result (λ stage.
        IsScriptAt (judged description (typed known.now.tables.items statement.now) block (knowledge_in known.now))
        stage built.new.items (knowledge_in known.now)) }
    ensures owed { IfOk result (λ stage. owed_at stage ≡ owed_in block) }
    ensures work { IfOk result (λ stage. work_at stage ≤ 6) }
    ensures knows { IfOk result (λ stage. KnowsTables stage known.now.tables.items) }
    ensures sound { IfOk result IsSoundStage }
    ensures busy { IfOk result IsBusy }
    ensures some { IfOk result (λ stage. HasReply stage built.new.items) }
{
    let tables = known.tables.as_slice();
    match typed(alloc, statement, tables) {
        Ok(t) => {
            let plan = planned(alloc, t, tables)?;
            begin_course(alloc, plan, description, block, built)
        }
        Err(SqlFault::State(code)) => Ok(fail(code, block)),
        Err(SqlFault::Memory) => Err(Memory),
    }
}

/// The step of a statement whose session was shown the tables that it didn't know. Out of memory it forgets them.
pub fn look(
    alloc: Global,
    statement: &Statement,
    description: RowDescription,
    block: Block,
    known: &mut Known,
    tables: Items<Table>,
    built: &mut Vec<u8>,
) -> MessageStep
    requires few { length known.old.tables.items + length tables < 2 ^ 32 }
    requires sound { All IsSound known.old.tables.items }
    requires more { All IsSound tables }
    requires plain { HasPlainNames statement.now }
    ensures goes { Advances (MessageStage.Looking statement.now description block) (knowledge_in known.old) (Answer.Looked tables)
        result.stage result.out_of_memory built.new.items (knowledge_in known.new) }
    ensures known { IsKnownAfter (knowledge_in known.old) (Answer.Looked tables) (knowledge_in known.new) }
    ensures few { length known.new.tables.items < 2 ^ 32 }
    ensures tables { All IsSound known.new.tables.items }
    ensures owed { owed_at result.stage ≡ owed_in block }
    ensures work { work_at result.stage ≤ 6 }
    ensures knows { KnowsTables result.stage known.new.tables.items }
    ensures sound { IsSoundStage result.stage }
    ensures busy { IsBusy result.stage }
    ensures some { HasReply result.stage built.new.items }
{
    let before = known.tables.len();
    let mut tables = tables.into_vec();
    if known.tables.append(&mut tables).is_err() {
        return short(block);
    }
    match judge(alloc, statement, description, block, known, built) {
        Ok(stage) => at_rest(stage),
        Err(Memory) => {
            known.tables.truncate(before);
            short(block)
        }
    }
}

/// The step of a look of its own, to which the session was shown the tables that it didn't know. Out of memory it forgets them.
pub fn refresh(block: Block, known: &mut Known, tables: Items<Table>) -> MessageStep
    requires few { length known.old.tables.items + length tables < 2 ^ 32 }
    requires sound { All IsSound known.old.tables.items }
    requires more { All IsSound tables }
    ensures goes { (built : List ℕ) → Advances (MessageStage.Refreshing block) (knowledge_in known.old) (Answer.Looked tables)
        result.stage result.out_of_memory built (knowledge_in known.new) }
    ensures known { IsKnownAfter (knowledge_in known.old) (Answer.Looked tables) (knowledge_in known.new) }
    ensures few { length known.new.tables.items < 2 ^ 32 }
    ensures tables { All IsSound known.new.tables.items }
    ensures owed { owed_at result.stage ≡ owed_in block }
    ensures work { work_at result.stage ≤ 3 }
    ensures quiet { IsQuiet result.stage }
    ensures some { (built : List ℕ) → HasReply result.stage built }
{
    let mut tables = tables.into_vec();
    if known.tables.append(&mut tables).is_err() {
        return short(block);
    }
    at_rest(MessageStage::Resting(block))
}
