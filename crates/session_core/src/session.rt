// One session as a machine: bytes and answers come in, calls and replies go out. It keeps neither the bytes that it was fed
// nor what it was answered, but for the tables that it was shown and what its running message needs.
ghost use Rattle.std.specs.Prelude.{◌≡◌, ℕ, ◌+◌, ◌<◌, List, [], ◌∷◌, ◌++◌, length, IfOk, ◌||◌, Some, None, true, false, IsTrue, ◌↔◌};
ghost use Rattle.cell_base.specs.declared.cell.Cell as cells;
ghost use Rattle.cell_base.specs.declared.value.Value as values;
ghost use Rattle.sql_tree.specs.declared.table.Table.{Table as Defined};
ghost use Rattle.sound_table.specs.Sound.{IsSound};
ghost use Rattle.history_core.specs.declared.event.Event.{Event};
ghost use Rattle.history_core.specs.Chronicle.{IsLegalChronicle};
ghost use Rattle.block_machine.specs.Calls.{Call as Asked, asks_cells, call_for};
ghost use Rattle.block_machine.specs.Calls as calls;
ghost use Rattle.block_machine.specs.Knowledge.{at_start};
ghost use Rattle.block_machine.specs.Script.{Entry, Said, call as asking, unsent, stop as stopped, has_short};
ghost use Rattle.block_machine.specs.Messages.{Outside};
ghost use Rattle.block_machine.specs.Stages.{IsKnownAfter, IsSameButLevel, entry_for, owed_after};
ghost use Rattle.block_machine.specs.Runners.{Runs, follows, knowledge_of};
ghost use Rattle.block_machine.specs.Writes.{IsWrite, MayWrite};
ghost use Rattle.block_machine.specs.declared.message_runner.MessageRunner.{MessageRunner as Machine};
ghost use Rattle.session_core.specs.Wants as wishes;
ghost use Rattle.session_core.specs.Wants.{IsWant};
ghost use Rattle.session_core.specs.Told.{opened_in};
ghost use Rattle.session_core.specs.Stands.{FitsWant, InPhase, IsFit, IsHolding, IsLast, IsStopped, IsUnder, Lacks, Shows, Tells, left_at, message_at, message_work, outer, owed_at, reply_of, served_of, statement_at, wants};

use crate::answers::{
    SessionWrite, after_sent, answered, lacks_memory, number_after, owed_holding, write_cell,
};
use crate::messages::{feed_piece, take_message};
use crate::phase::Phase;
use crate::prepared::SessionReplies;
use crate::stage::{Finish, SessionStage};
use crate::turns::{end_at, finish_of, leave, owed_by};
use crate::want::Want;
use block_machine::{Answer, Call, End, MessageRunner, Stop};
use cell_base::{Level, Memory};
use client_framing::Frames;
use history_book::Book;
use sql_tree::Table;
use statement_course::Demand;
use std::alloc::Global;

/// One session, which was fed some bytes and answered some calls.
#[derive(Debug, Drop)]
pub struct Session {
    alloc: Global,
    frames: Frames,
    prepared: SessionReplies,
    // The startup reply, once it was built.
    startup: Vec<u8>,
    runner: MessageRunner,
    stage: SessionStage,
    number: Option<u32>,
    short: bool,
    ghost phase: { InPhase stage frames.started },
    ghost under: { IsUnder stage runner },
}

// The phase in which bytes are wanted.
fn phase_at(stage: SessionStage) -> Phase
    requires { (r : Machine) × (wants stage r ≡ wishes.Bytes) }
    ensures { stage ≡ SessionStage.Waiting result }
{
    match stage {
        SessionStage::Waiting(phase) => phase,
        _ => unreachable!(),
    }
}

// The phase in which a message is wanted.
fn phase_taking(stage: SessionStage) -> Phase
    requires { (r : Machine) × (wants stage r ≡ wishes.Message) }
    ensures { stage ≡ SessionStage.Taking result }
{
    match stage {
        SessionStage::Taking(phase) => phase,
        _ => unreachable!(),
    }
}

// Either of the two, as `||`.
fn either(a: bool, b: bool) -> bool
    ensures { result ≡ (a || b) }
{
    a || b
}

// What a session wants while a message runs.
fn want_of(runner: &MessageRunner) -> Want
    requires { IsUnder SessionStage.Running runner.now }
    ensures want { IsWant result (wants SessionStage.Running runner.now) }
    ensures holding { result ≡ Want.Send → IsHolding SessionStage.Running runner.now }
    ensures running { result ≡ Want.Cells → Runs runner.now }
    ensures at_rest { (result ≡ Want.Cells → ⊥) → statement_at SessionStage.Running runner.now ≡ 0 }
    ensures asks { (c : Asked) (outside : Outside) (said : Said) → wants SessionStage.Running runner.now ≡ wishes.Book c →
        follows runner.now outside said [] ≡ (said, asking c) }
{
    match runner.demand() {
        block_machine::MessageWant::Define => Want::Define,
        block_machine::MessageWant::Cells => Want::Cells,
        block_machine::MessageWant::Book(c) => Want::Book(c),
        block_machine::MessageWant::Send => Want::Send,
        block_machine::MessageWant::Nothing => unreachable!(),
    }
}

impl Session {
    ghost use Rattle.session_core.specs.Sessions.{Stands, StandsShort, wanted, work_of};

    /// A session at this level that was fed nothing.
    pub fn new(alloc: Global, level: Level) -> Result<Session, Memory>
        ensures empty { IfOk result (λ s. Stands s [] [] [] []) }
        ensures stage { IfOk result (λ s. s.stage ≡ SessionStage.Waiting Phase.Startup) }
        ensures level { IfOk result (λ s. served_of s.runner ≡ level) }
        ensures known { IfOk result (λ s. knowledge_of s.runner ≡ at_start level) }
        ensures fit { IfOk result (λ s. IsFit s.runner) }
    {
        Ok(Session {
            alloc,
            frames: Frames::new(alloc),
            prepared: SessionReplies::new(alloc)?,
            startup: Vec::new(alloc),
            runner: MessageRunner::new(alloc, level)?,
            stage: SessionStage::Waiting(Phase::Startup),
            number: None,
            short: false,
        })
    }

    /// What the session wants.
    pub fn demand(&self) -> Want
        ensures want { IsWant result (wanted self.now) }
        ensures holding { result ≡ Want.Send → IsHolding self.now.stage self.now.runner }
        ensures running { result ≡ Want.Cells → (self.now.stage ≡ SessionStage.Running) × Runs self.now.runner }
        ensures at_rest { (result ≡ Want.Cells → ⊥) → statement_at self.now.stage self.now.runner ≡ 0 }
        // Where bytes or a call are wanted, or the end is there, what was sent and what is wanted is told of all that came in.
        ensures told { (taken : List ℕ) (entries : List Entry) (asked : List Asked) (sent : List ℕ) →
            Stands self.now taken entries asked sent → Shows (served_of self.now.runner) (wanted self.now) taken entries asked sent }
    {
        match self.stage {
            SessionStage::Waiting(_) => Want::Bytes,
            SessionStage::Taking(_) => Want::Message,
            SessionStage::Opening => Want::Book(Call::Open),
            SessionStage::Running => want_of(&self.runner),
            SessionStage::Undoing => Want::Book(Call::Rollback),
            SessionStage::Telling(_) => Want::Send,
            SessionStage::Leaving(_) => Want::Book(Call::Rollback),
            SessionStage::Closing(_) => Want::Book(Call::Close),
            SessionStage::Parting(_) => Want::Send,
            SessionStage::Ended(finish) => Want::Ended(end_at(finish)),
        }
    }

    /// Whether a message runs.
    pub fn is_running(&self) -> bool
        ensures { IsTrue result ↔ (self.now.stage ≡ SessionStage.Running) }
    {
        matches!(self.stage, SessionStage::Running)
    }

    /// The table that is to be defined.
    pub fn table(&self) -> &Table
        requires wanted { (table : Defined) × (wanted self.now ≡ wishes.Book (calls.Define table)) }
        requires fit { IsFit self.now.runner }
        ensures table { wanted self.now ≡ wishes.Book (calls.Define result.now) }
        ensures sound { IsSound result.now }
    {
        self.runner.table()
    }

    /// What the running statement demands.
    pub fn demanded(&self) -> &Demand
        requires running { self.now.stage ≡ SessionStage.Running }
        requires runs { Runs self.now.runner }
        ensures wanted { wanted self.now ≡ wishes.Book (call_for result.now) }
        ensures asks { asks_cells result.now ≡ true }
    {
        self.runner.demanded()
    }

    /// The reply that is to be sent.
    pub fn reply(&self) -> &[u8]
        requires { IsHolding self.now.stage self.now.runner }
        ensures reply { result.now ≡ reply_of self.now.stage self.now.runner self.now.startup.items }
        // It is told next of all that came in.
        ensures told { (taken : List ℕ) (entries : List Entry) (asked : List Asked) (sent : List ℕ) →
            Stands self.now taken entries asked sent →
            Tells (served_of self.now.runner) (owed_at self.now.stage self.now.runner) result.now taken entries asked sent }
    {
        match self.stage {
            SessionStage::Running => self.runner.reply(),
            SessionStage::Telling(reply) => self.prepared.bytes(self.startup.as_slice(), reply),
            SessionStage::Parting(fatal) => self.prepared.last_bytes(fatal),
            _ => unreachable!(),
        }
    }

    /// The number of the session that was opened, if one was.
    pub fn number(&self) -> Option<u32>
        ensures { (taken : List ℕ) (entries : List Entry) (asked : List Asked) (sent : List ℕ) → Stands self.now taken entries asked sent →
            result ≡ opened_in entries }
    {
        self.number
    }

    /// Whether memory ran out.
    pub fn is_short(&self) -> bool
        ensures { (taken : List ℕ) (entries : List Entry) (asked : List Asked) (sent : List ℕ) → Stands self.now taken entries asked sent →
            result ≡ has_short entries }
    {
        self.short
    }

    /// Takes a piece of the stream. A lack of memory leads to the end by it.
    pub fn feed(&mut self, piece: &[u8])
        requires wanted { wanted self.old ≡ wishes.Bytes }
        requires fit { IsFit self.old.runner }
        ensures grown { (taken : List ℕ) (entries : List Entry) (asked : List Asked) (sent : List ℕ) →
            Stands self.old taken entries asked sent →
            StandsShort self.new (taken ++ piece.now) entries asked sent }
        ensures owed { owed_at self.new.stage self.new.runner ≡ owed_at self.old.stage self.old.runner }
        ensures outer { outer self.new.stage ≡ None }
        ensures lacks { Lacks self.new.stage [] }
        ensures runner { self.new.runner ≡ self.old.runner }
    {
        let phase = phase_at(self.stage);
        let step = feed_piece(&mut self.frames, phase, piece);
        self.short = either(self.short, step.out_of_memory.is_some());
        self.stage = step.stage;
    }

    /// Looks at the next message of those that are held.
    pub fn take(&mut self)
        requires wanted { wanted self.old ≡ wishes.Message }
        requires fit { IsFit self.old.runner }
        ensures grown { (taken : List ℕ) (entries : List Entry) (asked : List Asked) (sent : List ℕ) →
            Stands self.old taken entries asked sent →
            StandsShort self.new taken entries asked sent }
        ensures owed { owed_at self.new.stage self.new.runner ≡ owed_at self.old.stage self.old.runner }
        ensures outer { outer self.new.stage ≡ None }
        ensures lacks { Lacks self.new.stage [] }
        ensures work { work_of self.new < work_of self.old }
        ensures known { IsSameButLevel (knowledge_of self.old.runner) (knowledge_of self.new.runner) }
        ensures fit { IsFit self.new.runner }
    {
        let phase = phase_taking(self.stage);
        let step = take_message(self.alloc, &mut self.frames, phase, &mut self.runner);
        self.short = either(self.short, step.out_of_memory.is_some());
        self.stage = step.stage;
    }

    /// Takes the answer to the call that is wanted.
    pub fn answer(&mut self, answer: Answer)
        requires fits { FitsWant (wanted self.old) answer }
        requires fit { IsFit self.old.runner }
        ensures grown { (taken : List ℕ) (entries : List Entry) (asked : List Asked) (sent : List ℕ) (c : Asked) (e : Event) →
            Stands self.old taken entries asked sent →
            wanted self.old ≡ wishes.Book c → StandsShort self.new taken (entries ++ entry_for answer e ∷ []) (asked ++ c ∷ []) sent }
        ensures owed { (c : Asked) → wanted self.old ≡ wishes.Book c →
            owed_at self.new.stage self.new.runner ≡ owed_after c answer (owed_at self.old.stage self.old.runner) }
        ensures outer { outer self.new.stage ≡ outer self.old.stage }
        ensures lacks { (lost : List ℕ) → Lacks self.old.stage lost → Lacks self.new.stage lost }
        ensures work { work_of self.new < work_of self.old + message_at self.new.stage }
        ensures message { self.old.stage ≡ SessionStage.Running →
            message_work self.new.stage self.new.runner <
            message_work self.old.stage self.old.runner + statement_at self.new.stage self.new.runner }
        ensures left { self.old.stage ≡ SessionStage.Running → Runs self.old.runner →
            left_at self.new.stage self.new.runner < left_at self.old.stage self.old.runner }
        ensures known { IsKnownAfter (knowledge_of self.old.runner) answer (knowledge_of self.new.runner) }
        ensures fit { IsFit self.new.runner }
        ensures last { IsLast self.old.stage → IsLast self.new.stage }
    {
        let lacks = lacks_memory(&answer);
        let number = number_after(self.number, &answer);
        let step = answered(
            self.alloc,
            self.stage,
            &mut self.runner,
            answer,
            &mut self.startup,
        );
        self.short = either(self.short, either(lacks, step.out_of_memory.is_some()));
        self.number = number;
        self.stage = step.stage;
    }

    /// Asks the book for the write that is wanted, in place of a call and its answer: the cell and the value themselves go to the book, so the
    /// session needs no memory for them. Answers what the book did.
    pub fn write<B: Book>(&mut self, book: &mut B) -> Answer
        requires running { self.old.stage ≡ SessionStage.Running }
        requires wanted { (cell : cells.Cell) × (value : values.Value) × (wanted self.old ≡ wishes.Book (calls.Write cell value)) }
        requires may { (cell : cells.Cell) (value : values.Value) → wanted self.old ≡ wishes.Book (calls.Write cell value) →
            MayWrite cell value (B.past book.old) }
        requires fit { IsFit self.old.runner }
        ensures made { (cell : cells.Cell) × (value : values.Value) × (wanted self.old ≡ wishes.Book (calls.Write cell value)) ×
            IsWrite (B.past book.old) cell value result (B.past book.new) }
        ensures grown { (taken : List ℕ) (entries : List Entry) (asked : List Asked) (sent : List ℕ) (c : Asked) (e : Event) →
            Stands self.old taken entries asked sent →
            wanted self.old ≡ wishes.Book c → StandsShort self.new taken (entries ++ entry_for result e ∷ []) (asked ++ c ∷ []) sent }
        ensures stage { self.new.stage ≡ SessionStage.Running }
        ensures owed { owed_at self.new.stage self.new.runner ≡ owed_at self.old.stage self.old.runner }
        ensures work { work_of self.new < work_of self.old + message_at self.new.stage }
        ensures message { message_work self.new.stage self.new.runner <
            message_work self.old.stage self.old.runner + statement_at self.new.stage self.new.runner }
        ensures left { left_at self.new.stage self.new.runner < left_at self.old.stage self.old.runner }
        ensures known { knowledge_of self.new.runner ≡ knowledge_of self.old.runner }
        ensures fit { IsFit self.new.runner }
        ensures legal { IsLegalChronicle (B.past book.new).seen }
        ensures stays { B.stays book.old book.new }
    {
        let SessionWrite {
            answer,
            out_of_memory,
        } = write_cell(&mut self.runner, book);
        let lacks = lacks_memory(&answer);
        self.short = either(self.short, either(lacks, out_of_memory.is_some()));
        answer
    }

    /// The reply was sent.
    pub fn sent(&mut self)
        requires holding { IsHolding self.old.stage self.old.runner }
        requires fit { IsFit self.old.runner }
        ensures grown { (taken : List ℕ) (entries : List Entry) (asked : List Asked) (sent : List ℕ) →
            Stands self.old taken entries asked sent →
            StandsShort self.new taken entries asked (sent ++ reply_of self.old.stage self.old.runner self.old.startup.items) }
        ensures owed { owed_at self.new.stage self.new.runner ≡ owed_at self.old.stage self.old.runner }
        ensures outer { outer self.new.stage ≡ outer self.old.stage }
        ensures lacks { Lacks self.new.stage [] }
        ensures work { work_of self.new < work_of self.old + message_at self.new.stage }
        ensures message { self.old.stage ≡ SessionStage.Running →
            message_work self.new.stage self.new.runner < message_work self.old.stage self.old.runner }
        ensures known { IsSameButLevel (knowledge_of self.old.runner) (knowledge_of self.new.runner) }
        ensures fit { IsFit self.new.runner }
        ensures last { IsLast self.old.stage → IsLast self.new.stage }
    {
        let step = after_sent(self.stage, &mut self.runner);
        self.short = either(self.short, step.out_of_memory.is_some());
        self.stage = step.stage;
    }

    /// The reply could not be sent whole.
    pub fn unsent(&mut self)
        requires { IsHolding self.old.stage self.old.runner }
        ensures grown { (taken : List ℕ) (entries : List Entry) (asked : List Asked) (sent : List ℕ) →
            Stands self.old taken entries asked sent →
            Stands self.new taken (entries ++ unsent (length sent) ∷ []) asked
            (sent ++ reply_of self.old.stage self.old.runner self.old.startup.items) }
        ensures owed { owed_at self.new.stage self.new.runner ≡ owed_at self.old.stage self.old.runner }
        ensures outer { outer self.new.stage ≡ Some End.WriteFault }
        ensures lacks { (lost : List ℕ) → Lacks self.new.stage lost }
        ensures work { work_of self.new < work_of self.old }
        ensures runner { self.new.runner ≡ self.old.runner }
        ensures last { IsLast self.new.stage }
    {
        let owed = owed_holding(self.stage, &self.runner);
        self.stage = leave(owed, Finish::WriteFault);
    }

    /// No more bytes come.
    pub fn stop(&mut self, cause: Stop)
        requires { wanted self.old ≡ wishes.Bytes }
        ensures grown { (taken : List ℕ) (entries : List Entry) (asked : List Asked) (sent : List ℕ) →
            Stands self.old taken entries asked sent →
            Stands self.new taken (entries ++ stopped cause ∷ []) asked sent }
        ensures owed { owed_at self.new.stage self.new.runner ≡ owed_at self.old.stage self.old.runner }
        ensures outer { IsStopped cause (outer self.new.stage) }
        ensures lacks { Lacks self.new.stage [] }
        ensures runner { self.new.runner ≡ self.old.runner }
        ensures last { IsLast self.new.stage }
    {
        let phase = phase_at(self.stage);
        let finish = finish_of(cause, self.frames.rest());
        self.stage = leave(owed_by(phase), finish);
    }
}
