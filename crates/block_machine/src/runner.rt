// The single statements of a session as a machine: answers come in, calls and replies go out. It keeps what the session knows, and what its
// running statement needs.
ghost use Rattle.std.specs.Prelude.{◌≡◌, ℕ, ◌+◌, ◌<◌, ◌≤◌, ◌^◌, List, [], ◌∷◌, length, All, true, IfOk, IfSome, IsNone};
ghost use Rattle.cell_base.specs.declared.cell.Cell as cells;
ghost use Rattle.cell_base.specs.declared.value.Value as values;
ghost use Rattle.sql_tree.specs.declared.table.Table.{Table as Defined};
ghost use Rattle.sound_table.specs.Sound.{IsSound};
ghost use Rattle.history_core.specs.declared.event.Event.{Event};
ghost use Rattle.history_core.specs.Chronicle.{IsLegalChronicle};
ghost use Rattle.block_machine.specs.Calls as calls;
ghost use Rattle.block_machine.specs.Calls.{Call as Asked, IsWant, asks_cells, call_for};
ghost use Rattle.block_machine.specs.Knowledge.{at_start};
ghost use Rattle.block_machine.specs.Replies.{empty_reply};
ghost use Rattle.block_machine.specs.Script.{Said, Entry, call as asking, with_call, tell};
ghost use Rattle.block_machine.specs.Messages.{Outside, finishes};
ghost use Rattle.block_machine.specs.Statements.{Around, fails, owed_in, refreshes, succeeds, told_of};
ghost use Rattle.block_machine.specs.Stages.{FitsWant, IsFrom, IsAtRest, IsBetween, IsHolding, IsKnownAfter, IsReady, IsSameButLevel, IsBusy, IsRunning, IsSoundStage, IsSoundStatement, KnowsTables, HasReply, breaks, entry_for, is_driven, is_skipping, left_at, owed_after, owed_at, running_at, with_short, work_at};
ghost use Rattle.block_machine.specs.Stages as stages_spec;
ghost use Rattle.block_machine.specs.Writes.{IsWrite, MayWrite};

use crate::actions::take;
use crate::advance::want_of;
use crate::block::{Block, Owed};
use crate::blocks::{block_in, finish, owed_between};
use crate::call::Answer;
use crate::ending::ReadyForQuery;
use crate::known::Known;
use crate::prepared::StatementReplies;
use crate::reply::{Fixed, StatementReply};
use crate::stage::MessageStage;
use crate::step::fail;
use crate::turns::{after_sent, answered};
use crate::want::MessageWant;
use crate::writes::{WriteStep, Written, ask_write};
use cell_base::{Level, Memory, SqlState};
use history_book::Book;
use outcome_replies::RowDescription;
use pg_framing::TransactionState;
use sql_tree::{Statement, Table};
use statement_course::Demand;
use std::alloc::Global;

/// The single statements of a session. One is run after another, in the block that the one before it left: implicit, regular or failed. A
/// message ends where [`Runner::finish`] says so, and an implicit block goes on until then.
#[derive(Debug, Drop)]
pub struct Runner {
    alloc: Global,
    prepared: StatementReplies,
    built: Vec<u8>,
    known: Known,
    stage: MessageStage,
    ghost few: { length known.tables.items < 2 ^ 32 },
}

// What a session owes its book in a block.
fn owed_in_block(block: Block) -> Owed
    ensures { result ≡ owed_in block }
{
    match block {
        Block::Implicit(true) | Block::Regular => Owed::Rollback,
        Block::Implicit(false) | Block::Failed => Owed::Close,
    }
}

// What a session owes its book.
fn owed_of(stage: &MessageStage) -> Owed
    ensures { result ≡ owed_at stage.now }
{
    match stage {
        MessageStage::Over(state) | MessageStage::Readying(state) => owed_between(*state),
        MessageStage::Resting(block) | MessageStage::Refreshing(block) => owed_in_block(*block),
        MessageStage::Defining(_, block) | MessageStage::Looking(_, _, block) => owed_in_block(
            *block,
        ),
        MessageStage::Showing(_, block) | MessageStage::Telling(_, block) => owed_in_block(*block),
        MessageStage::Beginning(_, _) | MessageStage::Starting(_) => Owed::Close,
        MessageStage::Failing(_, _) | MessageStage::Skipping(_) => Owed::Close,
        MessageStage::Running(_, _) | MessageStage::Committing(_) | MessageStage::RollingBack(_) =>
            Owed::Rollback,
        MessageStage::Undoing(_, _) | MessageStage::Finishing(_) => Owed::Rollback,
    }
}

impl Runner {
    ghost use Rattle.block_machine.specs.StatementRunners.{knowledge_of, tables_of, follows, follows_reply, wanted, held};

    /// Runs no statement yet, and knows no tables. Its transactions are at this level, the level of the server, until a SET chooses another.
    pub fn new(alloc: Global, level: Level) -> Result<Runner, Memory>
        ensures stage { IfOk result (λ r. r.stage ≡ MessageStage.Over TransactionState.Idle) }
        ensures known { IfOk result (λ r. knowledge_of r ≡ at_start level) }
    {
        Ok(Runner {
            alloc,
            prepared: StatementReplies::new(alloc)?,
            built: Vec::new(alloc),
            known: Known {
                tables: Vec::new(alloc),
                level,
                served: level,
            },
            stage: MessageStage::Over(TransactionState::Idle),
        })
    }

    /// The tables that the session was shown.
    pub fn tables(&self) -> &[Table]
        ensures { result.now ≡ tables_of self.now }
    {
        self.known.tables.as_slice()
    }

    /// The block in which the next statement stands.
    pub fn block(&self) -> Block
        requires { IsAtRest self.now.stage }
        ensures { result ≡ stages_spec.block_in self.now.stage }
    {
        block_in(&self.stage)
    }

    /// Whether what follows in the message is skipped: a statement failed, and the end of the message didn't come yet.
    pub fn skipping(&self) -> bool
        ensures { result ≡ is_skipping self.now.stage }
    {
        match &self.stage {
            MessageStage::Skipping(_) => true,
            _ => false,
        }
    }

    /// The state in which the last message left the session; none where a statement or its end is under way, or follows in the message.
    pub fn left(&self) -> Option<TransactionState>
        ensures some { IfSome result (λ state. self.now.stage ≡ MessageStage.Over state) }
        ensures none { IsNone result → IsAtRest self.now.stage → IsBetween self.now.stage }
        ensures driven { IsNone result → is_driven self.now.stage ≡ true → IsBusy self.now.stage }
    {
        match &self.stage {
            MessageStage::Over(state) => Some(*state),
            _ => None,
        }
    }

    /// What the session owes its book.
    pub fn owed(&self) -> Owed
        ensures { result ≡ owed_at self.now.stage }
    {
        owed_of(&self.stage)
    }

    /// What the statement, or the end of the message, wants. Where it wants nothing the next one may begin.
    pub fn demand(&self) -> MessageWant
        ensures stage { IsWant result (wanted self.now) }
        ensures holding { result ≡ MessageWant.Send → IsHolding self.now.stage }
        ensures running { result ≡ MessageWant.Cells → IsRunning self.now.stage }
        ensures at_rest { (result ≡ MessageWant.Cells → ⊥) → running_at self.now.stage ≡ 0 }
        ensures idle { result ≡ MessageWant.Nothing → IsAtRest self.now.stage }
        // The call that is wanted is the one that the script asks.
        ensures asks { (c : Asked) (around : Around) (outside : Outside) (said : Said) → wanted self.now ≡ calls.Book c →
            follows self.now around outside said [] ≡ (said, asking c) }
    {
        want_of(
            &self.stage,
            self.known.tables.len() as u32,
            self.known.level,
        )
    }

    /// The table that is to be defined.
    pub fn table(&self) -> &Table
        requires wanted { (table : Defined) × (wanted self.now ≡ calls.Book (calls.Define table)) }
        requires sound { IsSoundStage self.now.stage }
        ensures table { wanted self.now ≡ calls.Book (calls.Define result.now) }
        ensures sound { IsSound result.now }
    {
        match &self.stage {
            MessageStage::Defining(table, _) => table.get(),
            _ => unreachable!(),
        }
    }

    /// What the running statement demands.
    pub fn demanded(&self) -> &Demand
        requires { IsRunning self.now.stage }
        ensures wanted { wanted self.now ≡ calls.Book (call_for result.now) }
        ensures asks { asks_cells result.now ≡ true }
    {
        match &self.stage {
            MessageStage::Running(run, _) => run.plan.get().demand(),
            _ => unreachable!(),
        }
    }

    /// The reply that is to be sent.
    pub fn reply(&self) -> &[u8]
        requires { IsHolding self.now.stage }
        ensures held { result.now ≡ held self.now }
        // The reply is what the script tells next.
        ensures tells { (around : Around) (outside : Outside) (said : Said) (es : List Entry) →
            follows self.now around outside said es ≡ tell (held self.now)
            (breaks self.now.stage around outside (owed_at self.now.stage)) (follows_reply self.now around outside) said es }
    {
        match &self.stage {
            MessageStage::Telling(reply, _) => self.prepared.bytes(self.built.as_slice(), *reply),
            MessageStage::Failing(code, _) => self.prepared.error(*code),
            MessageStage::Readying(state) => self.prepared.ready(*state),
            _ => unreachable!(),
        }
    }

    /// Begins a statement; the reply of a SELECT or a SHOW has its RowDescription where it is asked for. Answers whether the session was out
    /// of memory.
    pub fn start(&mut self, statement: Statement, description: RowDescription) -> bool
        requires ready { IsReady self.old.stage }
        requires sound { IsSoundStatement statement }
        ensures goes { (around : Around) (outside : Outside) (said : Said) (es : List Entry) → IsFrom 1 (length said.bytes) es →
            told_of description statement (stages_spec.block_in self.old.stage) (knowledge_of self.old) around said
            (with_short result said.bytes es) ≡ follows self.new around outside said es }
        ensures known { IsSameButLevel (knowledge_of self.old) (knowledge_of self.new) }
        ensures owed { owed_at self.new.stage ≡ owed_at self.old.stage }
        ensures work { work_at self.new.stage ≤ 7 }
        ensures knows { KnowsTables self.new.stage (tables_of self.new) }
        ensures silent { IsRunning self.new.stage → ⊥ }
        ensures sound { IsSoundStage self.new.stage }
        ensures busy { IsBusy self.new.stage }
        ensures some { HasReply self.new.stage self.new.built.items }
    {
        let block = block_in(&self.stage);
        let step = take(
            self.alloc,
            statement,
            description,
            block,
            &mut self.known,
            &mut self.built,
        );
        self.stage = step.stage;
        step.out_of_memory
    }

    /// Looks at the tables, so that those which are known are up to date. A history that is full is the fault 54000.
    pub fn look(&mut self)
        requires { IsReady self.old.stage }
        ensures goes { (around : Around) (outside : Outside) (said : Said) (es : List Entry) →
            refreshes (stages_spec.block_in self.old.stage) (knowledge_of self.old) around said es ≡ follows self.new around outside said es }
        ensures known { knowledge_of self.new ≡ knowledge_of self.old }
        ensures owed { owed_at self.new.stage ≡ owed_at self.old.stage }
        ensures work { work_at self.new.stage ≤ 4 }
        ensures knows { KnowsTables self.new.stage (tables_of self.new) }
        ensures silent { IsRunning self.new.stage → ⊥ }
        ensures sound { IsSoundStage self.new.stage }
        ensures some { HasReply self.new.stage self.new.built.items }
    {
        let block = block_in(&self.stage);
        self.stage = MessageStage::Refreshing(block);
    }

    /// A fault outside of a statement, with this code: what a statement that fails by it is told, and then the rest of the message is skipped.
    pub fn fail(&mut self, code: SqlState)
        requires { IsAtRest self.old.stage }
        ensures goes { (around : Around) (outside : Outside) (said : Said) (es : List Entry) →
            fails code (stages_spec.block_in self.old.stage) (knowledge_of self.old) around said es ≡ follows self.new around outside said es }
        ensures known { knowledge_of self.new ≡ knowledge_of self.old }
        ensures owed { owed_at self.new.stage ≡ owed_at self.old.stage }
        ensures work { work_at self.new.stage ≤ 3 }
        ensures knows { KnowsTables self.new.stage (tables_of self.new) }
        ensures silent { IsRunning self.new.stage → ⊥ }
        ensures sound { IsSoundStage self.new.stage }
        ensures busy { IsBusy self.new.stage }
        ensures some { HasReply self.new.stage self.new.built.items }
    {
        let next = fail(code, block_in(&self.stage));
        self.stage = next;
    }

    /// A text without a statement: EmptyQueryResponse.
    pub fn answer_empty(&mut self)
        requires { IsReady self.old.stage }
        ensures goes { (around : Around) (outside : Outside) (said : Said) (es : List Entry) →
            succeeds empty_reply (stages_spec.block_in self.old.stage) (knowledge_of self.old) around said es
            ≡ follows self.new around outside said es }
        ensures known { knowledge_of self.new ≡ knowledge_of self.old }
        ensures owed { owed_at self.new.stage ≡ owed_at self.old.stage }
        ensures work { work_at self.new.stage ≤ 3 }
        ensures knows { KnowsTables self.new.stage (tables_of self.new) }
        ensures silent { IsRunning self.new.stage → ⊥ }
        ensures sound { IsSoundStage self.new.stage }
        ensures busy { IsBusy self.new.stage }
        ensures some { HasReply self.new.stage self.new.built.items }
    {
        let block = block_in(&self.stage);
        self.stage = MessageStage::Telling(StatementReply::Fixed(Fixed::Empty), block);
    }

    /// The end of a message: commits its own transaction, where one is pending, and then tells ReadyForQuery, where it is asked for.
    pub fn finish(&mut self, ready: ReadyForQuery)
        requires { IsAtRest self.old.stage }
        ensures goes { (around : Around) (outside : Outside) (said : Said) (es : List Entry) →
            finishes ready (stages_spec.block_in self.old.stage) (knowledge_of self.old) outside said es
            ≡ follows self.new around outside said es }
        ensures known { knowledge_of self.new ≡ knowledge_of self.old }
        ensures owed { owed_at self.new.stage ≡ owed_at self.old.stage }
        ensures work { work_at self.new.stage ≤ 2 }
        ensures closed { owed_at self.old.stage ≡ Owed.Close → work_at self.new.stage ≤ 1 }
        ensures knows { KnowsTables self.new.stage (tables_of self.new) }
        ensures silent { IsRunning self.new.stage → ⊥ }
        ensures sound { IsSoundStage self.new.stage }
        ensures busy { ready ≡ ReadyForQuery.Told → IsBusy self.new.stage }
        ensures some { HasReply self.new.stage self.new.built.items }
    {
        let next = finish(ready, block_in(&self.stage));
        self.stage = next;
    }

    /// Takes the answer to the call that is wanted. Answers whether the session was out of memory.
    pub fn answer(&mut self, answer: Answer) -> bool
        requires fits { FitsWant (wanted self.old) answer }
        requires tables { All IsSound (tables_of self.old) }
        requires sound { IsSoundStage self.old.stage }
        ensures goes { (c : Asked) (around : Around) (outside : Outside) (said : Said) (es : List Entry) (e : Event) →
            wanted self.old ≡ calls.Book c → IsFrom 1 (length said.bytes) es →
            follows self.old around outside said (entry_for answer e ∷ with_short result said.bytes es)
            ≡ follows self.new around outside (with_call said c) es }
        ensures known { IsKnownAfter (knowledge_of self.old) answer (knowledge_of self.new) }
        ensures owed { (c : Asked) → wanted self.old ≡ calls.Book c →
            owed_at self.new.stage ≡ owed_after c answer (owed_at self.old.stage) }
        ensures work { work_at self.new.stage < work_at self.old.stage + running_at self.new.stage }
        ensures left { IsRunning self.old.stage → left_at self.new.stage < left_at self.old.stage }
        ensures knows { KnowsTables self.old.stage (tables_of self.old) → KnowsTables self.new.stage (tables_of self.new) }
        ensures sound { IsSoundStage self.new.stage }
        ensures tables { All IsSound (tables_of self.new) }
        ensures busy { IsBusy self.old.stage → IsBusy self.new.stage }
        ensures driven { is_driven self.old.stage ≡ true → is_driven self.new.stage ≡ true }
        ensures some { HasReply self.new.stage self.new.built.items }
    {
        let stage = std::mem::replace(&mut self.stage, MessageStage::Over(TransactionState::Idle));
        let step = answered(self.alloc, stage, &mut self.known, &mut self.built, answer);
        self.stage = step.stage;
        step.out_of_memory
    }

    /// Asks the book for the write that is wanted, in place of a call and its answer: the cell and the value themselves go to the book, so the
    /// session needs no memory for them.
    pub fn write<B: Book>(&mut self, book: &mut B) -> Written
        requires wanted { (cell : cells.Cell) × (value : values.Value) × (wanted self.old ≡ calls.Book (calls.Write cell value)) }
        requires may { (cell : cells.Cell) (value : values.Value) → wanted self.old ≡ calls.Book (calls.Write cell value) →
            MayWrite cell value (B.past book.old) }
        requires tables { All IsSound (tables_of self.old) }
        requires sound { IsSoundStage self.old.stage }
        ensures made { (cell : cells.Cell) × (value : values.Value) × (wanted self.old ≡ calls.Book (calls.Write cell value)) ×
            IsWrite (B.past book.old) cell value result.answer (B.past book.new) }
        ensures goes { (c : Asked) (around : Around) (outside : Outside) (said : Said) (es : List Entry) (e : Event) →
            wanted self.old ≡ calls.Book c → IsFrom 1 (length said.bytes) es →
            follows self.old around outside said (entry_for result.answer e ∷ with_short result.out_of_memory said.bytes es)
            ≡ follows self.new around outside (with_call said c) es }
        ensures known { knowledge_of self.new ≡ knowledge_of self.old }
        ensures owed { owed_at self.new.stage ≡ owed_at self.old.stage }
        ensures work { work_at self.new.stage < work_at self.old.stage + running_at self.new.stage }
        ensures left { left_at self.new.stage < left_at self.old.stage }
        ensures knows { KnowsTables self.old.stage (tables_of self.old) → KnowsTables self.new.stage (tables_of self.new) }
        ensures sound { IsSoundStage self.new.stage }
        ensures tables { All IsSound (tables_of self.new) }
        ensures busy { IsBusy self.new.stage }
        ensures driven { is_driven self.new.stage ≡ true }
        ensures some { HasReply self.new.stage self.new.built.items }
        ensures legal { IsLegalChronicle (B.past book.new).seen }
        ensures stays { B.stays book.old book.new }
    {
        let stage = std::mem::replace(&mut self.stage, MessageStage::Over(TransactionState::Idle));
        let WriteStep { answer, step } = ask_write(self.alloc, stage, book, &mut self.built);
        self.stage = step.stage;
        Written {
            answer,
            out_of_memory: step.out_of_memory,
        }
    }

    /// The reply was sent.
    pub fn sent(&mut self)
        requires { IsHolding self.old.stage }
        ensures goes { (around : Around) (outside : Outside) (said : Said) (es : List Entry) →
            follows_reply self.old around outside said es ≡ follows self.new around outside said es }
        ensures known { knowledge_of self.new ≡ knowledge_of self.old }
        ensures owed { owed_at self.new.stage ≡ owed_at self.old.stage }
        ensures work { work_at self.new.stage < work_at self.old.stage }
        ensures rest { IsAtRest self.new.stage }
        ensures knows { KnowsTables self.new.stage (tables_of self.new) }
        ensures silent { IsRunning self.new.stage → ⊥ }
        ensures sound { IsSoundStage self.new.stage }
        ensures some { HasReply self.new.stage self.new.built.items }
    {
        let next = after_sent(&self.stage);
        self.stage = next;
    }

    // A message finds the session in this state.
    pub(crate) fn stand(&mut self, state: TransactionState)
        ensures stage { self.new.stage ≡ MessageStage.Over state }
        ensures known { knowledge_of self.new ≡ knowledge_of self.old }
    {
        self.stage = MessageStage::Over(state);
    }
}
