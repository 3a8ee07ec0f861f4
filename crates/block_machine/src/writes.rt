// The write that a running statement asks for: its cell and its value themselves go to the book, and the statement goes on by the answer.
ghost use Rattle.std.specs.Prelude.{◌≡◌, ℕ, ◌+◌, ◌<◌, ◌≤◌, List, length};
ghost use Rattle.cell_base.specs.declared.cell.Cell as cells;
ghost use Rattle.cell_base.specs.declared.value.Value as values;
ghost use Rattle.sql_tree.specs.declared.table.Table.{Table as Defined};
ghost use Rattle.outcome_replies.specs.Replies.{CanBeTold};
ghost use Rattle.outcome_replies.specs.Ends.{EndsIn};
ghost use Rattle.history_core.specs.Chronicle.{IsLegalChronicle};
ghost use Rattle.statement_course.specs.declared.demand.Demand.TheVariants as demands;
ghost use Rattle.statement_course.specs.declared.demand.PlanAnswer.TheVariants as answers;
ghost use Rattle.statement_course.specs.Laws.{ReadsFirst};
ghost use Rattle.statement_course.specs.Course.{first_demand, following};
ghost use Rattle.cell_compile.specs.Plans.{rest_of, left_of};
ghost use Rattle.block_machine.specs.Knowledge.{Knowledge};
ghost use Rattle.block_machine.specs.Stages.{Advances, HasReply, IsBusy, IsSoundStage, KnowsTables, left_at, owed_at, running_at, work_at};
ghost use Rattle.block_machine.specs.Writes.{AsksWrite, IsWrite, MayWrite};

use crate::block::{Owed, Pending};
use crate::blocks::block_of;
use crate::call::Answer;
use crate::courses::{refusal, settle};
use crate::kept::Kept;
use crate::stage::{MessageStage, Run};
use crate::step::{MessageStep, at_rest, fail, or_short};
use cell_base::{Cell, Value};
use cell_compile::Plan;
use history_book::Book;
use std::alloc::Global;

/// A write that was asked of a book.
#[derive(Debug, Drop)]
pub struct Written {
    /// What the book answered.
    pub answer: Answer,
    /// Whether the session was out of memory after it.
    pub out_of_memory: bool,
}

/// A write that was asked of a book, and the step of the statement after it.
#[derive(Debug, Drop)]
pub struct WriteStep {
    pub answer: Answer,
    pub step: MessageStep,
}

// Takes the cell and the value out of a plan that are to be written, and goes on as when they are.
fn take_write(plan: Kept<Plan>) -> (Cell, Value, Kept<Plan>)
    requires { (cell : cells.Cell) × (value : values.Value) × (first_demand (rest_of plan) ≡ demands.Write cell value) }
    ensures write { first_demand (rest_of plan) ≡ demands.Write result.0 result.1 }
    ensures course { rest_of result.2 ≡ following (rest_of plan) answers.Written }
    ensures less { left_of result.2 < left_of plan }
{
    let mut plan = plan.into_box();
    let (cell, value) = plan.take_write();
    (cell, value, Kept::from_box(plan))
}

// Asks the book for the write that a running statement asks for.
fn make_write<B: Book>(
    alloc: Global,
    run: Run,
    pending: Pending,
    book: &mut B,
    built: &mut Vec<u8>,
) -> WriteStep
    requires asks { (cell : cells.Cell) × (value : values.Value) × (first_demand (rest_of run.plan) ≡ demands.Write cell value) }
    requires may { (cell : cells.Cell) (value : values.Value) → first_demand (rest_of run.plan) ≡ demands.Write cell value →
        MayWrite cell value (B.past book.old) }
    requires told { EndsIn CanBeTold (rest_of run.plan) }
    ensures made { (cell : cells.Cell) × (value : values.Value) × (first_demand (rest_of run.plan) ≡ demands.Write cell value) ×
        IsWrite (B.past book.old) cell value result.answer (B.past book.new) }
    ensures goes { (known : Knowledge) → Advances (MessageStage.Running run pending) known result.answer
        result.step.stage result.step.out_of_memory built.new.items known }
    ensures owed { owed_at result.step.stage ≡ Owed.Rollback }
    ensures work { work_at result.step.stage ≤ 4 + running_at result.step.stage }
    ensures left { left_at result.step.stage < 1 + left_of run.plan }
    ensures knows { (tables : List Defined) → ReadsFirst (length tables) (rest_of run.plan) → KnowsTables result.step.stage tables }
    ensures sound { IsSoundStage result.step.stage }
    ensures busy { IsBusy result.step.stage }
    ensures some { HasReply result.step.stage built.new.items }
    ensures legal { IsLegalChronicle (B.past book.new).seen }
    ensures stays { B.stays book.old book.new }
{
    let Run { plan, description } = run;
    let (cell, value, plan) = take_write(plan);
    match book.write(cell, value) {
        Ok(()) => {
            let stage = settle(alloc, plan, description, pending, built);
            WriteStep {
                answer: Answer::Written,
                step: or_short(stage, block_of(pending)),
            }
        }
        Err(why) => {
            let stage = fail(refusal(&why), block_of(pending));
            WriteStep {
                answer: Answer::Refused(why),
                step: at_rest(stage),
            }
        }
    }
}

/// Asks the book for the write that a stage asks for. The book gets the cell and the value themselves, so the session needs no memory for it.
pub fn ask_write<B: Book>(
    alloc: Global,
    stage: MessageStage,
    book: &mut B,
    built: &mut Vec<u8>,
) -> WriteStep
    requires asks { (cell : cells.Cell) × (value : values.Value) × AsksWrite stage cell value }
    requires may { (cell : cells.Cell) (value : values.Value) → AsksWrite stage cell value → MayWrite cell value (B.past book.old) }
    requires sound { IsSoundStage stage }
    ensures made { (cell : cells.Cell) × (value : values.Value) × AsksWrite stage cell value ×
        IsWrite (B.past book.old) cell value result.answer (B.past book.new) }
    ensures goes { (known : Knowledge) → Advances stage known result.answer result.step.stage result.step.out_of_memory built.new.items known }
    ensures owed { owed_at result.step.stage ≡ owed_at stage }
    ensures work { work_at result.step.stage < work_at stage + running_at result.step.stage }
    ensures left { left_at result.step.stage < left_at stage }
    ensures knows { (tables : List Defined) → KnowsTables stage tables → KnowsTables result.step.stage tables }
    ensures sound { IsSoundStage result.step.stage }
    ensures busy { IsBusy result.step.stage }
    ensures some { HasReply result.step.stage built.new.items }
    ensures legal { IsLegalChronicle (B.past book.new).seen }
    ensures stays { B.stays book.old book.new }
{
    match stage {
        MessageStage::Running(run, pending) => make_write(alloc, run, pending, book, built),
        _ => unreachable!(),
    }
}
