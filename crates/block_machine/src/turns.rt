// The steps of a statement, or of the end of a message, by what comes in: an answer, or that a reply was sent.
ghost use Rattle.std.specs.Prelude.{◌≡◌, ℕ, ◌+◌, ◌<◌, ◌^◌, List, length, All};
ghost use Rattle.sound_table.specs.Sound.{IsSound};
ghost use Rattle.block_machine.specs.Calls as calls;
ghost use Rattle.block_machine.specs.Calls.{Call as Asked};
ghost use Rattle.block_machine.specs.Knowledge.{Knowledge, knowledge_in};
ghost use Rattle.block_machine.specs.Script.{Said, Entry};
ghost use Rattle.block_machine.specs.Statements.{Around};
ghost use Rattle.block_machine.specs.Messages.{Outside};
ghost use Rattle.block_machine.specs.Stages.{Advances, FitsWant, IsAtRest, IsBusy, IsHolding, IsKnownAfter, IsNoStatement, IsQuiet, IsRunning, IsSoundStage, KnowsTables, HasReply, NoBuilt, left_at, owed_after, owed_at, resumes, running_at, wants, work_at};
ghost use Rattle.block_machine.specs.Stages as stages_spec;

use crate::actions::show_history;
use crate::advance::advance;
use crate::call::Answer;
use crate::courses::{look, pursue, refresh, start_course};
use crate::known::Known;
use crate::stage::MessageStage;
use crate::step::{MessageStep, at_rest};
use std::alloc::Global;

// The step after the answer to a call that isn't a statement's own.
fn answered_plain(
    alloc: Global,
    stage: &MessageStage,
    known: &mut Known,
    built: &mut Vec<u8>,
    answer: Answer,
) -> MessageStep
    requires none { IsNoStatement stage.now }
    requires fits { FitsWant (wants stage.now (knowledge_in known.old)) answer }
    requires few { length known.old.tables.items < 2 ^ 32 }
    requires tables { All IsSound known.old.tables.items }
    requires sound { IsSoundStage stage.now }
    ensures goes { Advances stage.now (knowledge_in known.old) answer
        result.stage result.out_of_memory built.new.items (knowledge_in known.new) }
    ensures known { IsKnownAfter (knowledge_in known.old) answer (knowledge_in known.new) }
    ensures few { length known.new.tables.items < 2 ^ 32 }
    ensures tables { All IsSound known.new.tables.items }
    ensures owed { (c : Asked) → wants stage.now (knowledge_in known.old) ≡ calls.Book c →
        owed_at result.stage ≡ owed_after c answer (owed_at stage.now) }
    ensures work { work_at result.stage < work_at stage.now }
    ensures knows { KnowsTables result.stage known.new.tables.items }
    ensures sound { IsSoundStage result.stage }
    ensures busy { IsBusy stage.now → IsBusy result.stage }
    ensures some { HasReply result.stage built.new.items }
{
    match (stage, answer) {
        (MessageStage::Looking(statement, description, block), Answer::Looked(tables)) => {
            look(
                alloc,
                statement.get(),
                *description,
                *block,
                known,
                tables,
                built,
            )
        }
        (MessageStage::Refreshing(block), Answer::Looked(tables)) => refresh(*block, known, tables),
        (MessageStage::Showing(description, block), Answer::Shown(n)) => {
            show_history(alloc, n, *description, *block, built)
        }
        (stage, answer) => at_rest(advance(stage, &answer)),
    }
}

/// The step after the answer to a stage's call.
pub fn answered(
    alloc: Global,
    stage: MessageStage,
    known: &mut Known,
    built: &mut Vec<u8>,
    answer: Answer,
) -> MessageStep
    requires fits { FitsWant (wants stage (knowledge_in known.old)) answer }
    requires few { length known.old.tables.items < 2 ^ 32 }
    requires tables { All IsSound known.old.tables.items }
    requires sound { IsSoundStage stage }
    ensures goes { Advances stage (knowledge_in known.old) answer
        result.stage result.out_of_memory built.new.items (knowledge_in known.new) }
    ensures known { IsKnownAfter (knowledge_in known.old) answer (knowledge_in known.new) }
    ensures few { length known.new.tables.items < 2 ^ 32 }
    ensures tables { All IsSound known.new.tables.items }
    ensures owed { (c : Asked) → wants stage (knowledge_in known.old) ≡ calls.Book c →
        owed_at result.stage ≡ owed_after c answer (owed_at stage) }
    ensures work { work_at result.stage < work_at stage + running_at result.stage }
    ensures left { IsRunning stage → left_at result.stage < left_at stage }
    ensures knows { KnowsTables stage known.old.tables.items → KnowsTables result.stage known.new.tables.items }
    ensures sound { IsSoundStage result.stage }
    ensures busy { IsBusy stage → IsBusy result.stage }
    ensures some { HasReply result.stage built.new.items }
{
    match stage {
        MessageStage::Beginning(plan, description) => {
            start_course(alloc, plan, description, answer, built)
        },
        MessageStage::Running(run, pending) => pursue(alloc, run, pending, answer, built),
        stage => answered_plain(alloc, &stage, known, built, answer),
    }
}

/// The stage after a reply that was sent.
pub fn after_sent(stage: &MessageStage) -> MessageStage
    requires { IsHolding stage.now }
    ensures goes { (built : List ℕ) (known : Knowledge) (around : Around) (outside : Outside) (said : Said) (es : List Entry) →
        stages_spec.after_sent stage.now known around outside said es ≡ resumes result built known around outside said es }
    ensures owed { owed_at result ≡ owed_at stage.now }
    ensures work { work_at result < work_at stage.now }
    ensures rest { IsAtRest result }
    ensures quiet { IsQuiet result }
    ensures constant { NoBuilt result }
{
    match stage {
        MessageStage::Telling(_, block) => MessageStage::Resting(*block),
        MessageStage::Failing(_, state) => MessageStage::Skipping(*state),
        MessageStage::Readying(state) => MessageStage::Over(*state),
        _ => unreachable!(),
    }
}
