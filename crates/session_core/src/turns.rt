// The stages of a session that need no memory: what it owes, its ends, and what stands after an answer of its own.
ghost use Rattle.std.specs.Prelude.{◌≡◌, ℕ, ◌<◌, ◌≤◌, List, [], Bool, true, None};
ghost use Rattle.block_machine.specs.Calls.{Call as Asked};
ghost use Rattle.block_machine.specs.Messages as blocks;
ghost use Rattle.block_machine.specs.Script.{Said, Entry};
ghost use Rattle.block_machine.specs.Stages.{owed_after};
ghost use Rattle.block_machine.specs.Runners.{knowledge_of};
ghost use Rattle.block_machine.specs.declared.message_runner.MessageRunner.{MessageRunner};
ghost use Rattle.session_core.specs.Replies as replies_spec;
ghost use Rattle.session_core.specs.Wants as wishes;
ghost use Rattle.session_core.specs.Requests.{Requests};
ghost use Rattle.session_core.specs.Told as told_spec;
ghost use Rattle.session_core.specs.Told.{closed, ending, refuses, stop_end};
ghost use Rattle.session_core.specs.Ends.{LacksBy, outer_end};
ghost use Rattle.session_core.specs.Stands.{FitsWant, InPhase, IsBusy, IsStopped, IsUnder, Lacks, NoBuilt, end_of, goes_on, on, outer, own_want, owed_at, wants, work_at};
ghost use Rattle.session_core.specs.Steps.{LeadsTo, Advances, IsPlain};

use crate::phase::Phase;
use crate::stage::{Fatal, Finish, SessionReply, SessionStage};
use block_machine::{Answer, End, Owed, Stop, owed_between};
use cell_base::SqlState;
use history_core::BookFault;
use pg_framing::TransactionState;

/// A lack of memory, by whether the session goes on after it.
#[derive(Clone, Copy, Debug, PartialEq, Eq)]
pub enum Shortage {
    /// It goes on.
    Passing,
    /// It ends.
    Ending,
}

/// A stage, and the lack of memory on the way to it, where there was one.
#[derive(Clone, Copy, Debug, PartialEq, Eq)]
pub struct SessionStep {
    pub stage: SessionStage,
    pub out_of_memory: Option<Shortage>,
}

/// The step to a stage for which memory was there.
pub fn at_rest(stage: SessionStage) -> SessionStep
    ensures { result ≡ record { stage = stage; out_of_memory = None } }
{
    SessionStep {
        stage,
        out_of_memory: None,
    }
}

/// The end that a finish is.
pub fn end_at(finish: Finish) -> End
    ensures { result ≡ end_of finish }
{
    match finish {
        Finish::Terminated => End::Terminated,
        Finish::Closed => End::Closed,
        Finish::Cut => End::Cut,
        Finish::Cancelled => End::Cancelled,
        Finish::ReadFault => End::ReadFault,
        Finish::WriteFault => End::WriteFault,
        Finish::Memory => End::Memory,
        Finish::Fatal(Fatal::Protocol(fault)) => End::Protocol(fault),
        Finish::Fatal(Fatal::NoUser) => End::Refused(SqlState::S28000),
        Finish::Fatal(Fatal::OtherVersion) => End::Refused(SqlState::S0A000),
        Finish::Fatal(Fatal::Full) => End::Refused(SqlState::S54000),
        Finish::Fatal(Fatal::Spent) => End::Spent,
    }
}

/// The stage of an end after its close.
pub fn part(finish: Finish) -> SessionStage
    ensures leads { LeadsTo result (closed (end_of finish)) }
    ensures owed { (r : MessageRunner) → owed_at result r ≡ Owed.Nothing }
    ensures outer { outer result ≡ outer_end (end_of finish) }
    ensures work { work_at result ≤ 1 }
    ensures lacks { (lost : List ℕ) → LacksBy (end_of finish) lost → lost ≡ [] → Lacks result lost }
    ensures silent { finish ≡ Finish.WriteFault → work_at result ≡ 0 }
    ensures phase { (started : Bool) → InPhase result started }
    ensures under { (r : MessageRunner) → IsUnder result r }
    ensures constant { NoBuilt result }
{
    match finish {
        Finish::Fatal(fatal) => SessionStage::Parting(fatal),
        Finish::Terminated => SessionStage::Ended(finish),
        Finish::Closed => SessionStage::Ended(finish),
        Finish::Cut => SessionStage::Ended(finish),
        Finish::Cancelled => SessionStage::Ended(finish),
        Finish::ReadFault => SessionStage::Ended(finish),
        Finish::WriteFault => SessionStage::Ended(finish),
        Finish::Memory => SessionStage::Ended(finish),
    }
}

/// The stage of an end, given what is owed.
pub fn leave(owed: Owed, finish: Finish) -> SessionStage
    ensures leads { LeadsTo result (ending owed (end_of finish)) }
    ensures owed { (r : MessageRunner) → owed_at result r ≡ owed }
    ensures outer { outer result ≡ outer_end (end_of finish) }
    ensures work { work_at result ≤ 3 }
    ensures silent { owed ≡ Owed.Nothing → finish ≡ Finish.WriteFault → work_at result ≡ 0 }
    ensures lacks { (lost : List ℕ) → LacksBy (end_of finish) lost → lost ≡ [] → Lacks result lost }
    ensures phase { (started : Bool) → InPhase result started }
    ensures under { (r : MessageRunner) → IsUnder result r }
    ensures constant { NoBuilt result }
{
    match owed {
        Owed::Nothing => part(finish),
        Owed::Close => SessionStage::Closing(finish),
        Owed::Rollback => SessionStage::Leaving(finish),
    }
}

/// The phase after a reply of the session's own.
pub fn phase_after_reply(reply: SessionReply) -> Phase
    ensures { result ≡ replies_spec.phase_after_reply reply }
{
    match reply {
        SessionReply::NoEncryption => Phase::Startup,
        SessionReply::Startup => Phase::Normal(TransactionState::Idle),
        SessionReply::Ready(state) => Phase::Normal(state),
        SessionReply::Unsupported(state) => Phase::Discarding(state),
    }
}

/// What a session owes between two messages.
pub fn owed_by(phase: Phase) -> Owed
    ensures { result ≡ told_spec.owed_by phase }
{
    match phase {
        Phase::Startup => Owed::Nothing,
        Phase::Normal(state) | Phase::Discarding(state) => owed_between(state),
    }
}

/// The finish that a stop comes to, where so many bytes of a message are held.
pub fn finish_of(cause: Stop, held: usize) -> Finish
    ensures end { end_of result ≡ stop_end cause held }
    ensures outer { IsStopped cause (outer_end (end_of result)) }
    ensures lacks { LacksBy (end_of result) [] }
{
    match cause {
        Stop::EndOfInput => {
            if held == 0 {
                Finish::Closed
            } else {
                Finish::Cut
            }
        }
        Stop::ReadFault => Finish::ReadFault,
        Stop::Spent => Finish::Fatal(Fatal::Spent),
    }
}

/// The stage of a message of the extended query outside of discarding.
pub fn refuse(state: TransactionState) -> SessionStage
    ensures goes { (r : MessageRunner) (startup : List ℕ) (requests : Requests) (said : Said) (es : List Entry) →
        refuses state (knowledge_of r) (on requests) said es ≡ goes_on result r startup requests said es }
    ensures owed { (r : MessageRunner) → owed_at result r ≡ blocks.owed_between state }
    ensures outer { outer result ≡ None }
    ensures work { work_at result ≤ 7 }
    ensures lacks { Lacks result [] }
    ensures phase { InPhase result true }
    ensures under { (r : MessageRunner) → IsUnder result r }
    ensures busy { IsBusy result }
    ensures constant { NoBuilt result }
{
    match state {
        TransactionState::Idle => SessionStage::Telling(SessionReply::Unsupported(
            TransactionState::Idle,
        )),
        TransactionState::Block => SessionStage::Undoing,
        TransactionState::Failed => SessionStage::Telling(SessionReply::Unsupported(
            TransactionState::Failed,
        )),
    }
}

/// The stage after the answer to a call of the session's own, where no memory is needed for it.
pub fn advance(stage: SessionStage, answer: &Answer) -> SessionStage
    requires fits { FitsWant (own_want stage) answer.now }
    requires plain { IsPlain stage answer.now }
    ensures goes { (r : MessageRunner) (startup : List ℕ) → Advances stage r answer.now result r None startup }
    ensures owed { (c : Asked) (r : MessageRunner) → wants stage r ≡ wishes.Book c → owed_at result r ≡ owed_after c answer.now (owed_at stage r) }
    ensures outer { outer result ≡ outer stage }
    ensures lacks { (lost : List ℕ) → Lacks stage lost → Lacks result lost }
    ensures work { work_at result < work_at stage }
    ensures phase { (started : Bool) → InPhase stage started → InPhase result started }
    ensures under { (r : MessageRunner) → IsUnder result r }
    ensures constant { NoBuilt result }
{
    match (stage, answer) {
        (SessionStage::Opening, Answer::Refused(BookFault::Full(_))) => SessionStage::Parting(
            Fatal::Full,
        ),
        (SessionStage::Opening, Answer::Refused(BookFault::Memory)) => SessionStage::Ended(
            Finish::Memory,
        ),
        (SessionStage::Undoing, Answer::RolledBack) => {
            SessionStage::Telling(SessionReply::Unsupported(TransactionState::Failed))
        }
        (SessionStage::Leaving(finish), Answer::RolledBack) => SessionStage::Closing(finish),
        (SessionStage::Closing(finish), Answer::Closed) => part(finish),
        _ => unreachable!(),
    }
}
