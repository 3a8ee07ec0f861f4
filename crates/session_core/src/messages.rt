// The stages that messages lead to.
ghost use Rattle.std.specs.Prelude.{◌≡◌, ◌≢◌, ℕ, ◌+◌, ◌*◌, ◌<◌, ◌≤◌, ◌^◌, List, length, Bool, true, false, None, Some};
ghost use Rattle.cell_base.specs.Texts.{HasNoZero};
ghost use Rattle.client_framing.specs.Spelling.{phase_after};
ghost use Rattle.block_machine.specs.Messages as blocks;
ghost use Rattle.block_machine.specs.Script.{Said, Entry};
ghost use Rattle.block_machine.specs.Stages.{IsFrom, IsSoundMessage};
ghost use Rattle.block_machine.specs.Runners.{knowledge_of};
ghost use Rattle.block_machine.specs.declared.message_runner.MessageRunner.{MessageRunner as Machine};
ghost use Rattle.session_core.specs.Requests.{Requests};
ghost use Rattle.session_core.specs.Told as told_spec;
ghost use Rattle.session_core.specs.Told.{ending, outside_of};
ghost use Rattle.session_core.specs.Stands.{IsFit, InPhase, goes_on, has_started, on, work_at};
ghost use Rattle.session_core.specs.Steps.{Feeds, Steps, Meets, Leads, LeadsTo, IsHeard, IsPlainFront, IsReadable, IsPassing, is_main, with_out_of_memory};

use crate::phase::Phase;
use crate::stage::{Fatal, Finish, SessionReply, SessionStage};
use crate::turns::{SessionStep, Shortage, at_rest, leave, owed_by, refuse};
use crate::user::has_user;
use block_machine::{End, Message, MessageRunner, Owed, owed_between, read_message};
use cell_base::{Memory, SqlState};
use client_framing::{FrameFault, Frames, FrontendMessage};
use pg_framing::TransactionState;
use std::alloc::Global;

/// A lack of memory after which the session goes on, where there was one.
pub fn passing(out_of_memory: bool) -> Option<Shortage>
    ensures passing { IsPassing result }
    ensures at_rest { out_of_memory ≡ false → result ≡ None }
    ensures short { out_of_memory ≡ true → result ≡ Some Shortage.Passing }
{
    if out_of_memory {
        Some(Shortage::Passing)
    } else {
        None
    }
}

// The step to a message whose statements run.
fn run(message: Message, state: TransactionState, runner: &mut MessageRunner) -> SessionStep
    requires sound { IsSoundMessage message }
    requires fit { IsFit runner.old }
    ensures goes { (startup : List ℕ) (requests : Requests) (said : Said) (es : List Entry) → IsFrom 1 (length said.bytes) es →
        blocks.message message state (knowledge_of runner.old) (outside_of (on requests)) said
        (with_out_of_memory result.out_of_memory said.bytes es) ≡ goes_on SessionStage.Running runner.new startup requests said es }
    ensures stage { result.stage ≡ SessionStage.Running }
    ensures passing { IsPassing result.out_of_memory }
    ensures leads { Leads (blocks.owed_between state) runner.old SessionStage.Running runner.new }
{
    let out_of_memory = runner.begin(message, state);
    SessionStep {
        stage: SessionStage::Running,
        out_of_memory: passing(out_of_memory),
    }
}

// Runs a message that fails before its first statement, with this code.
fn fail(code: SqlState, state: TransactionState, runner: &mut MessageRunner)
    requires fit { IsFit runner.old }
    ensures goes { (startup : List ℕ) (requests : Requests) (said : Said) (es : List Entry) →
        blocks.message (Message.Unread code) state (knowledge_of runner.old) (outside_of (on requests)) said es ≡
        goes_on SessionStage.Running runner.new startup requests said es }
    ensures leads { Leads (blocks.owed_between state) runner.old SessionStage.Running runner.new }
{
    runner.refuse(code, state);
}

// The step that a query leads to.
fn query(
    alloc: Global,
    text: &[u8],
    state: TransactionState,
    runner: &mut MessageRunner,
) -> SessionStep
    requires fits { length text.now < 2 ^ 32 }
    requires no_zero { HasNoZero text.now }
    requires fit { IsFit runner.old }
    ensures goes { Meets (FrontendMessage.Query text.now) (Phase.Normal state) runner.old result.stage runner.new result.out_of_memory }
    ensures leads { Leads (blocks.owed_between state) runner.old result.stage runner.new }
    ensures stage { result.stage ≡ SessionStage.Running }
{
    match read_message(alloc, text) {
        Ok(message) => run(message, state, runner),
        Err(Memory) => {
            fail(SqlState::S53200, state, runner);
            SessionStep {
                stage: SessionStage::Running,
                out_of_memory: Some(Shortage::Passing),
            }
        }
    }
}

// The stage that a message before the startup leads to.
fn open(front: &FrontendMessage) -> SessionStage
    requires { is_main front.now ≡ false }
    ensures goes { (r : Machine) → Meets front.now Phase.Startup r result r None }
    ensures leads { (r : Machine) → IsFit r → Leads Owed.Nothing r result r }
    ensures work { work_at result ≤ 8 }
    ensures phase { InPhase result (phase_after false front.now) }
{
    match front {
        FrontendMessage::Ssl => SessionStage::Telling(SessionReply::NoEncryption),
        FrontendMessage::Gss => SessionStage::Telling(SessionReply::NoEncryption),
        FrontendMessage::Cancel(_, _) => SessionStage::Ended(Finish::Cancelled),
        FrontendMessage::Startup(pairs) => {
            if has_user(pairs.as_slice()) {
                SessionStage::Opening
            } else {
                SessionStage::Parting(Fatal::NoUser)
            }
        }
        FrontendMessage::Version(_) => SessionStage::Parting(Fatal::OtherVersion),
        _ => unreachable!(),
    }
}

// The stage that a message leads to which is served and runs no statement.
fn serve_plain(front: &FrontendMessage, state: TransactionState) -> SessionStage
    requires main { is_main front.now ≡ true }
    requires plain { IsPlainFront front.now }
    ensures goes { (r : Machine) → Meets front.now (Phase.Normal state) r result r None }
    ensures leads { (r : Machine) → IsFit r → Leads (blocks.owed_between state) r result r }
    ensures work { work_at result ≤ 8 }
    ensures phase { InPhase result true }
{
    match front {
        FrontendMessage::Terminate => leave(owed_between(state), Finish::Terminated),
        FrontendMessage::Sync => SessionStage::Telling(SessionReply::Ready(state)),
        FrontendMessage::Extended(_) => refuse(state),
        FrontendMessage::Flush => SessionStage::Taking(Phase::Normal(state)),
        FrontendMessage::Copy(_) => SessionStage::Taking(Phase::Normal(state)),
        _ => unreachable!(),
    }
}

// The step that a function call leads to.
fn call_function(state: TransactionState, runner: &mut MessageRunner) -> SessionStep
    requires fit { IsFit runner.old }
    ensures goes { Meets FrontendMessage.FunctionCall (Phase.Normal state) runner.old result.stage runner.new result.out_of_memory }
    ensures leads { Leads (blocks.owed_between state) runner.old result.stage runner.new }
    ensures stage { result.stage ≡ SessionStage.Running }
{
    fail(SqlState::S0A000, state, runner);
    at_rest(SessionStage::Running)
}

// The step that a message leads to which is served.
fn serve(
    alloc: Global,
    front: &FrontendMessage,
    state: TransactionState,
    runner: &mut MessageRunner,
) -> SessionStep
    requires main { is_main front.now ≡ true }
    requires readable { IsReadable front.now }
    requires fit { IsFit runner.old }
    ensures goes { Meets front.now (Phase.Normal state) runner.old result.stage runner.new result.out_of_memory }
    ensures leads { Leads (blocks.owed_between state) runner.old result.stage runner.new }
    ensures work { work_at result.stage ≤ 8 }
    ensures phase { InPhase result.stage true }
{
    match front {
        FrontendMessage::Query(text) => query(alloc, text.as_slice(), state, runner),
        FrontendMessage::FunctionCall => call_function(state, runner),
        _ => at_rest(serve_plain(front, state)),
    }
}

// The stage that a message leads to where messages are discarded.
fn discard(front: &FrontendMessage, state: TransactionState) -> SessionStage
    requires { is_main front.now ≡ true }
    ensures goes { (r : Machine) → Meets front.now (Phase.Discarding state) r result r None }
    ensures leads { (r : Machine) → IsFit r → Leads (blocks.owed_between state) r result r }
    ensures work { work_at result ≤ 8 }
    ensures phase { InPhase result true }
{
    match front {
        FrontendMessage::Terminate => leave(owed_between(state), Finish::Terminated),
        FrontendMessage::Sync => SessionStage::Telling(SessionReply::Ready(state)),
        FrontendMessage::Query(_) => SessionStage::Taking(Phase::Discarding(state)),
        FrontendMessage::Flush => SessionStage::Taking(Phase::Discarding(state)),
        FrontendMessage::Extended(_) => SessionStage::Taking(Phase::Discarding(state)),
        FrontendMessage::FunctionCall => SessionStage::Taking(Phase::Discarding(state)),
        FrontendMessage::Copy(_) => SessionStage::Taking(Phase::Discarding(state)),
        _ => unreachable!(),
    }
}

// The step that a message leads to.
fn enter(
    alloc: Global,
    front: &FrontendMessage,
    phase: Phase,
    runner: &mut MessageRunner,
) -> SessionStep
    requires heard { IsHeard phase front.now }
    requires fit { IsFit runner.old }
    ensures goes { Meets front.now phase runner.old result.stage runner.new result.out_of_memory }
    ensures leads { Leads (told_spec.owed_by phase) runner.old result.stage runner.new }
    ensures work { work_at result.stage ≤ 8 }
    ensures phase { InPhase result.stage (phase_after (has_started phase) front.now) }
{
    match phase {
        Phase::Startup => at_rest(open(front)),
        Phase::Normal(state) => serve(alloc, front, state, runner),
        Phase::Discarding(state) => at_rest(discard(front, state)),
    }
}

// The step that a fault of the stream leads to.
fn break_off(fault: FrameFault, phase: Phase) -> SessionStep
    ensures memory { fault ≡ FrameFault.Memory →
        (result.out_of_memory ≡ Some Shortage.Ending) × LeadsTo result.stage (ending (told_spec.owed_by phase) End.Memory) }
    ensures protocol { fault ≢ FrameFault.Memory →
        (result.out_of_memory ≡ None) × LeadsTo result.stage (ending (told_spec.owed_by phase) (End.Protocol fault)) }
    ensures leads { (r : Machine) → IsFit r → Leads (told_spec.owed_by phase) r result.stage r }
    ensures work { work_at result.stage ≤ 3 }
    ensures phase { (started : Bool) → InPhase result.stage started }
{
    match fault {
        FrameFault::Memory => SessionStep {
            stage: leave(owed_by(phase), Finish::Memory),
            out_of_memory: Some(Shortage::Ending),
        },
        _ => at_rest(leave(owed_by(phase), Finish::Fatal(Fatal::Protocol(fault)))),
    }
}

/// The step to the next message that is held whole, or to where bytes are wanted.
pub fn take_message(
    alloc: Global,
    frames: &mut Frames,
    phase: Phase,
    runner: &mut MessageRunner,
) -> SessionStep
    requires started { frames.old.started ≡ has_started phase }
    requires fit { IsFit runner.old }
    ensures goes { Steps phase runner.old frames.old result.stage runner.new result.out_of_memory frames.new }
    ensures leads { Leads (told_spec.owed_by phase) runner.old result.stage runner.new }
    ensures work { work_at result.stage + 16 * length frames.new.rest < 5 + 16 * length frames.old.rest }
    ensures phase { InPhase result.stage frames.new.started }
{
    match frames.next() {
        Ok(None) => at_rest(SessionStage::Waiting(phase)),
        Ok(Some(front)) => enter(alloc, &front, phase, runner),
        Err(fault) => break_off(fault, phase),
    }
}

/// The step after a piece that comes in where bytes are wanted.
pub fn feed_piece(frames: &mut Frames, phase: Phase, piece: &[u8]) -> SessionStep
    requires started { frames.old.started ≡ has_started phase }
    ensures feeds { Feeds phase piece.now frames.old result.stage result.out_of_memory frames.new }
    ensures leads { (r : Machine) → IsFit r → Leads (told_spec.owed_by phase) r result.stage r }
    ensures phase { InPhase result.stage frames.new.started }
{
    match frames.feed(piece) {
        Ok(()) => at_rest(SessionStage::Taking(phase)),
        Err(_) => SessionStep {
            stage: leave(owed_by(phase), Finish::Memory),
            out_of_memory: Some(Shortage::Ending),
        },
    }
}
