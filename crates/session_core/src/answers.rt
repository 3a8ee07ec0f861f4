// What stands after the answers that a session gets, and after the replies that it has sent.
ghost use Rattle.std.specs.Prelude.{◌≡◌, ℕ, ◌+◌, ◌<◌, List, [], Bool, true, None, Option};
ghost use Rattle.cell_base.specs.declared.cell.Cell as cells;
ghost use Rattle.cell_base.specs.declared.value.Value as values;
ghost use Rattle.history_core.specs.Chronicle.{IsLegalChronicle};
ghost use Rattle.block_machine.specs.Calls as calls;
ghost use Rattle.block_machine.specs.Calls.{Call as Asked};
ghost use Rattle.block_machine.specs.Stages.{IsKnownAfter, IsSameButLevel, owed_after, lacks_memory};
ghost use Rattle.block_machine.specs.Runners.{Runs, knowledge_of};
ghost use Rattle.block_machine.specs.Writes.{IsWrite, MayWrite};
ghost use Rattle.block_machine.specs.declared.message_runner.MessageRunner.{MessageRunner as Machine};
ghost use Rattle.session_core.specs.Told.{opened_after};
ghost use Rattle.session_core.specs.Wants as wishes;
ghost use Rattle.session_core.specs.Stands.{FitsWant, HasReply, InPhase, IsAwake, IsFit, IsHolding, IsLast, IsUnder, Lacks, left_at, message_at, message_work, outer, own_want, owed_at, statement_at, wants, work_at};
ghost use Rattle.session_core.specs.Steps.{Advances, Sends};

use crate::messages::passing;
use crate::phase::Phase;
use crate::replies;
use crate::stage::{Finish, SessionReply, SessionStage};
use crate::turns::{SessionStep, Shortage, advance, at_rest, owed_by, phase_after_reply};
use block_machine::{Answer, MessageRunner, Owed, Written};
use cell_base::Memory;
use history_book::Book;
use history_core::BookFault;
use std::alloc::Global;

// The step after a reply of a message that runs.
fn run_on(runner: &mut MessageRunner) -> SessionStep
    requires holding { IsHolding SessionStage.Running runner.old }
    requires fit { IsFit runner.old }
    ensures sends { Sends SessionStage.Running runner.old result.stage runner.new result.out_of_memory }
    ensures owed { owed_at result.stage runner.new ≡ owed_at SessionStage.Running runner.old }
    ensures outer { outer result.stage ≡ None }
    ensures lacks { Lacks result.stage [] }
    ensures work { work_at result.stage < work_at SessionStage.Running + message_at result.stage }
    ensures message { message_work result.stage runner.new < message_work SessionStage.Running runner.old }
    ensures known { IsSameButLevel (knowledge_of runner.old) (knowledge_of runner.new) }
    ensures fit { IsFit runner.new }
    ensures under { IsUnder result.stage runner.new }
    ensures awake { IsAwake result.stage }
    ensures phase { InPhase result.stage true }
    ensures some { (startup : List ℕ) → HasReply result.stage runner.new startup }
{
    let out_of_memory = runner.sent();
    match runner.left() {
        Some(state) => SessionStep {
            stage: SessionStage::Taking(Phase::Normal(state)),
            out_of_memory: passing(out_of_memory),
        },
        None => SessionStep {
            stage: SessionStage::Running,
            out_of_memory: passing(out_of_memory),
        },
    }
}

/// The step after a reply that was sent.
pub fn after_sent(stage: SessionStage, runner: &mut MessageRunner) -> SessionStep
    requires holding { IsHolding stage runner.old }
    requires fit { IsFit runner.old }
    ensures sends { Sends stage runner.old result.stage runner.new result.out_of_memory }
    ensures owed { owed_at result.stage runner.new ≡ owed_at stage runner.old }
    ensures outer { outer result.stage ≡ outer stage }
    ensures lacks { Lacks result.stage [] }
    ensures work { work_at result.stage < work_at stage + message_at result.stage }
    ensures message { stage ≡ SessionStage.Running → message_work result.stage runner.new < message_work stage runner.old }
    ensures known { IsSameButLevel (knowledge_of runner.old) (knowledge_of runner.new) }
    ensures fit { IsFit runner.new }
    ensures under { IsUnder result.stage runner.new }
    ensures awake { IsAwake result.stage }
    ensures phase { (started : Bool) → InPhase stage started → InPhase result.stage started }
    ensures last { IsLast stage → IsLast result.stage }
    ensures some { (startup : List ℕ) → HasReply result.stage runner.new startup }
{
    match stage {
        SessionStage::Telling(reply) => at_rest(SessionStage::Taking(phase_after_reply(reply))),
        SessionStage::Running => run_on(runner),
        SessionStage::Parting(fatal) => at_rest(SessionStage::Ended(Finish::Fatal(fatal))),
        _ => unreachable!(),
    }
}

/// What a session owes where a reply is held.
pub fn owed_holding(stage: SessionStage, runner: &MessageRunner) -> Owed
    requires { IsHolding stage runner.now }
    ensures { result ≡ owed_at stage runner.now }
{
    match stage {
        SessionStage::Telling(reply) => owed_by(phase_after_reply(reply)),
        SessionStage::Running => runner.owed(),
        SessionStage::Parting(_) => Owed::Nothing,
        _ => unreachable!(),
    }
}

// Tells a session that was opened its startup reply, or ends it where memory for that runs out.
fn tell_startup(alloc: Global, session: u32, startup: &mut Vec<u8>) -> SessionStep
    ensures goes { (r : Machine) → Advances SessionStage.Opening r (Answer.Opened session) result.stage r result.out_of_memory startup.new.items }
    ensures owed { (r : Machine) → owed_at result.stage r ≡ Owed.Close }
    ensures outer { outer result.stage ≡ None }
    ensures lacks { Lacks result.stage [] }
    ensures work { work_at result.stage < 8 }
    ensures phase { InPhase result.stage true }
    ensures under { (r : Machine) → IsUnder result.stage r }
    ensures some { (r : Machine) → HasReply result.stage r startup.new.items }
{
    match replies::startup(alloc, session) {
        Ok(reply) => {
            *startup = reply;
            at_rest(SessionStage::Telling(SessionReply::Startup))
        }
        Err(Memory) => SessionStep {
            stage: SessionStage::Closing(Finish::Memory),
            out_of_memory: Some(Shortage::Ending),
        },
    }
}

// The step after the answer to a call of the session's own.
fn answer_own(
    alloc: Global,
    stage: SessionStage,
    answer: Answer,
    startup: &mut Vec<u8>,
) -> SessionStep
    requires fits { FitsWant (own_want stage) answer }
    ensures goes { (r : Machine) → Advances stage r answer result.stage r result.out_of_memory startup.new.items }
    ensures owed { (c : Asked) (r : Machine) → wants stage r ≡ wishes.Book c →
        owed_at result.stage r ≡ owed_after c answer (owed_at stage r) }
    ensures outer { outer result.stage ≡ outer stage }
    ensures lacks { (lost : List ℕ) → Lacks stage lost → Lacks result.stage lost }
    ensures work { work_at result.stage < work_at stage }
    ensures phase { (started : Bool) → InPhase stage started → InPhase result.stage started }
    ensures under { (r : Machine) → IsUnder result.stage r }
    ensures known { (r : Machine) → IsKnownAfter (knowledge_of r) answer (knowledge_of r) }
    ensures some { (r : Machine) → HasReply result.stage r startup.new.items }
{
    match (stage, answer) {
        (SessionStage::Opening, Answer::Opened(session)) => tell_startup(alloc, session, startup),
        (stage, answer) => at_rest(advance(stage, &answer)),
    }
}

// The step after the answer to a call of a message that runs.
fn answer_message(runner: &mut MessageRunner, answer: Answer) -> SessionStep
    requires fits { FitsWant (wants SessionStage.Running runner.old) answer }
    requires fit { IsFit runner.old }
    ensures goes { (startup : List ℕ) → Advances SessionStage.Running runner.old answer result.stage runner.new result.out_of_memory startup }
    ensures stage { result.stage ≡ SessionStage.Running }
    ensures owed { (c : Asked) → wants SessionStage.Running runner.old ≡ wishes.Book c →
        owed_at SessionStage.Running runner.new ≡ owed_after c answer (owed_at SessionStage.Running runner.old) }
    ensures message { message_work SessionStage.Running runner.new <
        message_work SessionStage.Running runner.old + statement_at SessionStage.Running runner.new }
    ensures left { Runs runner.old → left_at SessionStage.Running runner.new < left_at SessionStage.Running runner.old }
    ensures known { IsKnownAfter (knowledge_of runner.old) answer (knowledge_of runner.new) }
    ensures fit { IsFit runner.new }
    ensures under { IsUnder SessionStage.Running runner.new }
    ensures some { (startup : List ℕ) → HasReply SessionStage.Running runner.new startup }
{
    let out_of_memory = runner.answer(answer);
    SessionStep {
        stage: SessionStage::Running,
        out_of_memory: passing(out_of_memory),
    }
}

/// A write that was asked of a book.
#[derive(Debug, Drop)]
pub struct SessionWrite {
    /// What the book answered.
    pub answer: Answer,
    /// The session's own lack of memory after it, where there was one.
    pub out_of_memory: Option<Shortage>,
}

/// Asks the book for the write that a message wants which runs.
pub fn write_cell<B: Book>(runner: &mut MessageRunner, book: &mut B) -> SessionWrite
    requires wanted { (cell : cells.Cell) × (value : values.Value) ×
        (wants SessionStage.Running runner.old ≡ wishes.Book (calls.Write cell value)) }
    requires may { (cell : cells.Cell) (value : values.Value) → wants SessionStage.Running runner.old ≡ wishes.Book (calls.Write cell value) →
        MayWrite cell value (B.past book.old) }
    requires fit { IsFit runner.old }
    ensures made { (cell : cells.Cell) × (value : values.Value) ×
        (wants SessionStage.Running runner.old ≡ wishes.Book (calls.Write cell value)) ×
        IsWrite (B.past book.old) cell value result.answer (B.past book.new) }
    ensures goes { (startup : List ℕ) →
        Advances SessionStage.Running runner.old result.answer SessionStage.Running runner.new result.out_of_memory startup }
    ensures owed { owed_at SessionStage.Running runner.new ≡ owed_at SessionStage.Running runner.old }
    ensures message { message_work SessionStage.Running runner.new <
        message_work SessionStage.Running runner.old + statement_at SessionStage.Running runner.new }
    ensures left { left_at SessionStage.Running runner.new < left_at SessionStage.Running runner.old }
    ensures known { knowledge_of runner.new ≡ knowledge_of runner.old }
    ensures fit { IsFit runner.new }
    ensures under { IsUnder SessionStage.Running runner.new }
    ensures some { (startup : List ℕ) → HasReply SessionStage.Running runner.new startup }
    ensures legal { IsLegalChronicle (B.past book.new).seen }
    ensures stays { B.stays book.old book.new }
{
    let Written {
        answer,
        out_of_memory,
    } = runner.write(book);
    SessionWrite {
        answer,
        out_of_memory: passing(out_of_memory),
    }
}

/// The step after the answer to a stage's call.
pub fn answered(
    alloc: Global,
    stage: SessionStage,
    runner: &mut MessageRunner,
    answer: Answer,
    startup: &mut Vec<u8>,
) -> SessionStep
    requires fits { FitsWant (wants stage runner.old) answer }
    requires fit { IsFit runner.old }
    ensures goes { Advances stage runner.old answer result.stage runner.new result.out_of_memory startup.new.items }
    ensures owed { (c : Asked) → wants stage runner.old ≡ wishes.Book c →
        owed_at result.stage runner.new ≡ owed_after c answer (owed_at stage runner.old) }
    ensures outer { outer result.stage ≡ outer stage }
    ensures lacks { (lost : List ℕ) → Lacks stage lost → Lacks result.stage lost }
    ensures work { work_at result.stage < work_at stage + message_at result.stage }
    ensures message { stage ≡ SessionStage.Running →
        message_work result.stage runner.new < message_work stage runner.old + statement_at result.stage runner.new }
    ensures left { stage ≡ SessionStage.Running → Runs runner.old → left_at result.stage runner.new < left_at stage runner.old }
    ensures known { IsKnownAfter (knowledge_of runner.old) answer (knowledge_of runner.new) }
    ensures fit { IsFit runner.new }
    ensures under { IsUnder result.stage runner.new }
    ensures phase { (started : Bool) → InPhase stage started → InPhase result.stage started }
    ensures some { HasReply result.stage runner.new startup.new.items }
{
    match stage {
        SessionStage::Running => answer_message(runner, answer),
        stage => answer_own(alloc, stage, answer, startup),
    }
}

/// Whether an answer is a lack of memory of the book.
pub fn lacks_memory(answer: &Answer) -> bool
    ensures { result ≡ lacks_memory answer.now }
{
    matches!(answer, Answer::Refused(BookFault::Memory))
}

/// The session that is open after an answer.
pub fn number_after(number: Option<u32>, answer: &Answer) -> Option<u32>
    ensures { result ≡ opened_after number answer.now }
{
    match answer {
        Answer::Opened(session) => Some(*session),
        _ => number,
    }
}
