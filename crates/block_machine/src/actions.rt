// One statement as it begins.
ghost use Rattle.std.specs.Prelude.{◌≡◌, ℕ, ◌+◌, ◌*◌, ◌<◌, ◌≤◌, List, [], length, All, true, false, Ok, IfOk, IfSome, IsNone};
ghost use Rattle.std.specs.Fmt.{decimal};
ghost use Rattle.sql_tree.specs.declared.statement.Statement.{Statement as Tree};
ghost use Rattle.sql_tree.specs.declared.table.Table.{Table as Defined};
ghost use Rattle.typing_rules.specs.Building.{built as table_built};
ghost use Rattle.typing_rules.specs.Typed.{typed};
ghost use Rattle.sound_table.specs.Sound.{IsSound};
ghost use Rattle.described_columns.specs.Described.{HasPlainNames};
ghost use Rattle.outcome_replies.specs.Replies.{CanBeTold};
ghost use Rattle.statement_course.specs.declared.demand.Outcome.{Outcome as CameTo};
ghost use Rattle.statement_course.specs.Statements.{course_of};
ghost use Rattle.block_machine.specs.declared.call.Answer.{Answer};
ghost use Rattle.block_machine.specs.Knowledge.{Knowledge, knowledge_in};
ghost use Rattle.block_machine.specs.Script.{Said, Entry};
ghost use Rattle.block_machine.specs.Replies.{show_reply};
ghost use Rattle.block_machine.specs.Settings.{IsShown, history_name, value_of};
ghost use Rattle.block_machine.specs.Statements.{Around, owed_in, succeeds, concludes, defines, prepares, at_once, judged_at_once, sets, sets_level, shows, shows_value, performs, told_of};
ghost use Rattle.block_machine.specs.Stages.{IsScriptAt, IsScriptOf, LeadsTo, Advances, IsSameButLevel, IsQuiet, IsBusy, IsRunning, IsSoundStage, IsSoundStatement, KnowsTables, NoBuilt, HasReply, owed_at, work_at};

use crate::block::Block;
use crate::blocks::{commit, refuse, roll_back, start, words_of};
use crate::courses::conclude;
use crate::kept::Kept;
use crate::known::Known;
use crate::let_go::without;
use crate::replies::shown;
use crate::reply::{Fixed, StatementReply};
use crate::settings::{HISTORY, LEVEL, chosen_level, is_own, value_of};
use crate::stage::MessageStage;
use crate::step::{MessageStep, at_rest, fail, or_short, tell};
use cell_base::{Items, Level, Memory, SqlFault, SqlState, Text};
use cell_compile::Plan;
use itoa::Buffer;
use outcome_replies::RowDescription;
use sql_tree::{CreateTable, Statement, Typed};
use sql_types::typed;
use statement_course::Demand;
use std::alloc::Global;
use table_schema::build;

// The stage of a CREATE TABLE.
fn define(alloc: Global, create: &CreateTable, block: Block) -> Result<MessageStage, Memory>
    requires { (table : Defined) → table_built create.now ≡ Ok table → IsSound table }
    ensures goes { IfOk result (λ stage. (built : List ℕ) → IsScriptOf (defines (table_built create.now) block) stage built) }
    ensures owed { IfOk result (λ stage. owed_at stage ≡ owed_in block) }
    ensures work { IfOk result (λ stage. work_at stage ≤ 4) }
    ensures knows { IfOk result (λ stage. (tables : List Defined) → KnowsTables stage tables) }
    ensures silent { IfOk result (λ stage. IsRunning stage → ⊥) }
    ensures sound { IfOk result IsSoundStage }
    ensures busy { IfOk result IsBusy }
    ensures constant { IfOk result NoBuilt }
{
    match build(alloc, create) {
        Ok(table) => Ok(MessageStage::Defining(Kept::new(alloc, table)?, block)),
        Err(SqlFault::State(code)) => Ok(fail(code, block)),
        Err(SqlFault::Memory) => Err(Memory),
    }
}

// The stage of a statement that demands nothing.
fn conclude_demand(
    alloc: Global,
    demand: &Demand,
    description: RowDescription,
    block: Block,
    built: &mut Vec<u8>,
) -> Result<MessageStage, Memory>
    requires { (outcome : CameTo) × (demand.now ≡ Demand.Reply outcome) × CanBeTold outcome }
    ensures goes { (outcome : CameTo) → demand.now ≡ Demand.Reply outcome →
        IfOk result (λ stage. IsScriptOf (concludes description outcome block) stage built.new.items) }
    ensures owed { IfOk result (λ stage. owed_at stage ≡ owed_in block) }
    ensures work { IfOk result (λ stage. work_at stage ≤ 3) }
    ensures quiet { IfOk result IsQuiet }
    ensures busy { IfOk result IsBusy }
    ensures some { IfOk result (λ stage. HasReply stage built.new.items) }
{
    match demand {
        Demand::Reply(outcome) => conclude(alloc, outcome, description, block, built),
        _ => unreachable!(),
    }
}

// The stage of a SELECT without FROM that has its types.
fn answer_typed(
    alloc: Global,
    alone: Typed,
    description: RowDescription,
    block: Block,
    built: &mut Vec<u8>,
) -> Result<MessageStage, Memory>
    requires { (statement : Tree) × HasPlainNames statement × (typed [] statement ≡ Ok alone) }
    ensures goes { IfOk result (λ stage. IsScriptOf (at_once description (course_of [] alone) block) stage built.new.items) }
    ensures owed { IfOk result (λ stage. owed_at stage ≡ owed_in block) }
    ensures work { IfOk result (λ stage. work_at stage ≤ 3) }
    ensures quiet { IfOk result IsQuiet }
    ensures busy { IfOk result IsBusy }
    ensures some { IfOk result (λ stage. HasReply stage built.new.items) }
{
    let plan = Plan::new(alloc, alone, &[])?;
    let stage = conclude_demand(alloc, plan.demand(), description, block, built);
    without(plan, stage)
}

// The stage of a SELECT without FROM.
fn answer_alone(
    alloc: Global,
    statement: &Statement,
    description: RowDescription,
    block: Block,
    built: &mut Vec<u8>,
) -> Result<MessageStage, Memory>
    requires { HasPlainNames statement.now }
    ensures goes { IfOk result (λ stage. IsScriptOf (judged_at_once description (typed [] statement.now) block) stage built.new.items) }
    ensures owed { IfOk result (λ stage. owed_at stage ≡ owed_in block) }
    ensures work { IfOk result (λ stage. work_at stage ≤ 3) }
    ensures quiet { IfOk result IsQuiet }
    ensures busy { IfOk result IsBusy }
    ensures some { IfOk result (λ stage. HasReply stage built.new.items) }
{
    match typed(alloc, statement, &[]) {
        Ok(alone) => answer_typed(alloc, alone, description, block, built),
        Err(SqlFault::State(code)) => Ok(fail(code, block)),
        Err(SqlFault::Memory) => Err(Memory),
    }
}

// The stage of a SET of the level, whose values choose this one.
fn set_level(chosen: Option<Level>, block: Block, known: &mut Known) -> MessageStage
    ensures goes { (built : List ℕ) →
        IsScriptAt (sets_level chosen block (knowledge_in known.old)) result built (knowledge_in known.new) }
    ensures known { IsSameButLevel (knowledge_in known.old) (knowledge_in known.new) }
    ensures owed { owed_at result ≡ owed_in block }
    ensures work { work_at result ≤ 3 }
    ensures quiet { IsQuiet result }
    ensures busy { IsBusy result }
    ensures constant { NoBuilt result }
{
    match chosen {
        Some(level) => {
            known.level = level;
            tell(Fixed::Set, block)
        }
        None => fail(SqlState::S0A000, block),
    }
}

// The stage of a SET.
fn set(name: &Text, values: &Items<Text>, block: Block, known: &mut Known) -> MessageStage
    ensures goes { (built : List ℕ) →
        IsScriptAt (sets name.now values.now block (knowledge_in known.old)) result built (knowledge_in known.new) }
    ensures known { IsSameButLevel (knowledge_in known.old) (knowledge_in known.new) }
    ensures owed { owed_at result ≡ owed_in block }
    ensures work { work_at result ≤ 3 }
    ensures quiet { IsQuiet result }
    ensures busy { IsBusy result }
    ensures constant { NoBuilt result }
{
    if name.as_str() == LEVEL {
        set_level(chosen_level(known.served, values.as_slice()), block, known)
    } else if is_own(name.as_str()) {
        fail(SqlState::S0A000, block)
    } else {
        tell(Fixed::Set, block)
    }
}

// The stage of a SHOW whose value is known.
fn tell_setting(
    alloc: Global,
    name: &str,
    value: &str,
    description: RowDescription,
    block: Block,
    built: &mut Vec<u8>,
) -> Result<MessageStage, Memory>
    requires name { IsShown name.now }
    requires value { length value.now ≤ 64 }
    ensures goes { IfOk result (λ stage. IsScriptOf (succeeds (show_reply description name.now value.now) block) stage built.new.items) }
    ensures owed { IfOk result (λ stage. owed_at stage ≡ owed_in block) }
    ensures work { IfOk result (λ stage. work_at stage ≤ 3) }
    ensures quiet { IfOk result IsQuiet }
    ensures busy { IfOk result IsBusy }
    ensures some { IfOk result (λ stage. HasReply stage built.new.items) }
{
    *built = shown(alloc, name, value, description)?;
    Ok(MessageStage::Telling(StatementReply::Built, block))
}

// The step of a SHOW of another setting than the history.
fn show_value(
    alloc: Global,
    level: Level,
    name: &str,
    description: RowDescription,
    block: Block,
    built: &mut Vec<u8>,
) -> MessageStep
    ensures goes { (known : Knowledge) →
        LeadsTo (shows_value description name.now (value_of level name.now) block known) result.stage result.out_of_memory built.new.items known }
    ensures owed { owed_at result.stage ≡ owed_in block }
    ensures work { work_at result.stage ≤ 3 }
    ensures quiet { IsQuiet result.stage }
    ensures busy { IsBusy result.stage }
    ensures some { HasReply result.stage built.new.items }
{
    match value_of(level, name) {
        Some(value) => or_short(
            tell_setting(alloc, name, value, description, block, built),
            block,
        ),
        None => at_rest(fail(SqlState::S0A000, block)),
    }
}

// The step of a SHOW.
fn show(
    alloc: Global,
    known: &Known,
    name: &str,
    description: RowDescription,
    block: Block,
    built: &mut Vec<u8>,
) -> MessageStep
    ensures goes { LeadsTo (shows description name.now block (knowledge_in known.now))
        result.stage result.out_of_memory built.new.items (knowledge_in known.now) }
    ensures owed { owed_at result.stage ≡ owed_in block }
    ensures work { work_at result.stage ≤ 4 }
    ensures quiet { IsQuiet result.stage }
    ensures busy { IsBusy result.stage }
    ensures some { HasReply result.stage built.new.items }
{
    if name == HISTORY {
        at_rest(MessageStage::Showing(description, block))
    } else {
        show_value(alloc, known.level, name, description, block, built)
    }
}

// The stage of SHOW monkey.history after its number.
fn tell_history(
    alloc: Global,
    n: u32,
    description: RowDescription,
    block: Block,
    built: &mut Vec<u8>,
) -> Result<MessageStage, Memory>
    ensures goes { IfOk result (λ stage. IsScriptOf (succeeds (show_reply description history_name (decimal n)) block) stage built.new.items) }
    ensures owed { IfOk result (λ stage. owed_at stage ≡ owed_in block) }
    ensures work { IfOk result (λ stage. work_at stage ≤ 3) }
    ensures quiet { IfOk result IsQuiet }
    ensures busy { IfOk result IsBusy }
    ensures some { IfOk result (λ stage. HasReply stage built.new.items) }
{
    let mut buffer = Buffer::new();
    tell_setting(alloc, HISTORY, buffer.format(n), description, block, built)
}

/// The step of SHOW monkey.history after its number.
pub fn show_history(
    alloc: Global,
    n: u32,
    description: RowDescription,
    block: Block,
    built: &mut Vec<u8>,
) -> MessageStep
    ensures goes { (known : Knowledge) →
        Advances (MessageStage.Showing description block) known (Answer.Shown n) result.stage result.out_of_memory built.new.items known }
    ensures owed { owed_at result.stage ≡ owed_in block }
    ensures work { work_at result.stage ≤ 3 }
    ensures quiet { IsQuiet result.stage }
    ensures busy { IsBusy result.stage }
    ensures some { HasReply result.stage built.new.items }
{
    or_short(tell_history(alloc, n, description, block, built), block)
}

// The step of a statement outside a failed block that doesn't look at the tables; none for one that does.
fn act(
    alloc: Global,
    statement: &Statement,
    description: RowDescription,
    block: Block,
    known: &mut Known,
    built: &mut Vec<u8>,
) -> Option<MessageStep>
    requires { IsSoundStatement statement.now }
    ensures goes { IfSome result (λ step. LeadsTo (performs description statement.now block (knowledge_in known.old))
        step.stage step.out_of_memory built.new.items (knowledge_in known.new)) }
    ensures known { IsSameButLevel (knowledge_in known.old) (knowledge_in known.new) }
    ensures same { IsNone result → knowledge_in known.new ≡ knowledge_in known.old }
    ensures looks { IsNone result → (it : Knowledge) (around : Around) (said : Said) (es : List Entry) →
        performs description statement.now block it around said es ≡ prepares description statement.now block it around said es }
    ensures plain { IsNone result → HasPlainNames statement.now }
    ensures owed { IfSome result (λ step. owed_at step.stage ≡ owed_in block) }
    ensures work { IfSome result (λ step. work_at step.stage ≤ 4) }
    ensures knows { IfSome result (λ step. (tables : List Defined) → KnowsTables step.stage tables) }
    ensures silent { IfSome result (λ step. IsRunning step.stage → ⊥) }
    ensures sound { IfSome result (λ step. IsSoundStage step.stage) }
    ensures busy { IfSome result (λ step. IsBusy step.stage) }
    ensures some { IfSome result (λ step. HasReply step.stage built.new.items) }
{
    match statement {
        Statement::Select(select) => match select.from.as_slice() {
            [] => Some(or_short(
                answer_alone(alloc, statement, description, block, built),
                block,
            )),
            [_, ..] => None,
        },
        Statement::Insert(_) | Statement::Update(_) | Statement::Delete(_) => None,
        Statement::Create(create) => Some(or_short(define(alloc, create, block), block)),
        Statement::Begin(flag) => Some(at_rest(start(words_of(*flag), block))),
        Statement::Commit => Some(at_rest(commit(block))),
        Statement::Rollback => Some(at_rest(roll_back(block))),
        Statement::Set(name, values) => Some(at_rest(set(name, values, block, known))),
        Statement::SetModes => Some(at_rest(MessageStage::Telling(
            StatementReply::Fixed(Fixed::Set),
            block,
        ))),
        Statement::Show(name) => Some(show(alloc, known, name.as_str(), description, block, built)),
    }
}

// The stage of a statement that looks at the tables.
fn keep(
    alloc: Global,
    statement: Statement,
    description: RowDescription,
    block: Block,
) -> Result<MessageStage, Memory>
    ensures { IfOk result (λ stage. stage ≡ MessageStage.Looking statement description block) }
{
    Ok(MessageStage::Looking(Kept::new(alloc, statement)?, description, block))
}

// The step of a statement outside a failed block.
fn perform(
    alloc: Global,
    statement: Statement,
    description: RowDescription,
    block: Block,
    known: &mut Known,
    built: &mut Vec<u8>,
) -> MessageStep
    requires { IsSoundStatement statement }
    ensures goes { LeadsTo (performs description statement block (knowledge_in known.old))
        result.stage result.out_of_memory built.new.items (knowledge_in known.new) }
    ensures known { IsSameButLevel (knowledge_in known.old) (knowledge_in known.new) }
    ensures owed { owed_at result.stage ≡ owed_in block }
    ensures work { work_at result.stage ≤ 7 }
    ensures knows { (tables : List Defined) → KnowsTables result.stage tables }
    ensures silent { IsRunning result.stage → ⊥ }
    ensures sound { IsSoundStage result.stage }
    ensures busy { IsBusy result.stage }
    ensures some { HasReply result.stage built.new.items }
{
    match act(alloc, &statement, description, block, known, built) {
        Some(step) => without(statement, step),
        None => or_short(keep(alloc, statement, description, block), block),
    }
}

/// The step of a statement.
pub fn take(
    alloc: Global,
    statement: Statement,
    description: RowDescription,
    block: Block,
    known: &mut Known,
    built: &mut Vec<u8>,
) -> MessageStep
    requires { IsSoundStatement statement }
    ensures goes { LeadsTo (told_of description statement block (knowledge_in known.old))
        result.stage result.out_of_memory built.new.items (knowledge_in known.new) }
    ensures known { IsSameButLevel (knowledge_in known.old) (knowledge_in known.new) }
    ensures owed { owed_at result.stage ≡ owed_in block }
    ensures work { work_at result.stage ≤ 7 }
    ensures knows { (tables : List Defined) → KnowsTables result.stage tables }
    ensures silent { IsRunning result.stage → ⊥ }
    ensures sound { IsSoundStage result.stage }
    ensures busy { IsBusy result.stage }
    ensures some { HasReply result.stage built.new.items }
{
    match block {
        Block::Failed => {
            let stage = refuse(&statement);
            without(statement, at_rest(stage))
        }
        Block::Implicit(_) | Block::Regular => perform(
            alloc,
            statement,
            description,
            block,
            known,
            built,
        ),
    }
}
