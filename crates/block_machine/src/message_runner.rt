// The statements of a session's query messages as a machine: answers come in, calls and replies go out.
ghost use Rattle.std.specs.Prelude.{◌≡◌, ℕ, ◌+◌, ◌*◌, ◌<◌, ◌≤◌, ◌^◌, List, [], ◌∷◌, length, All, true, IfOk, IfSome, IsNone};
ghost use Rattle.cell_base.specs.declared.cell.Cell as cells;
ghost use Rattle.cell_base.specs.declared.value.Value as values;
ghost use Rattle.sql_tree.specs.declared.table.Table.{Table as Defined};
ghost use Rattle.sound_table.specs.Sound.{IsSound};
ghost use Rattle.history_core.specs.declared.event.Event.{Event};
ghost use Rattle.history_core.specs.Chronicle.{IsLegalChronicle};
ghost use Rattle.block_machine.specs.Calls as calls;
ghost use Rattle.block_machine.specs.Calls.{Call as Asked, IsWant, asks_cells, call_for};
ghost use Rattle.block_machine.specs.Knowledge.{at_start};
ghost use Rattle.block_machine.specs.Script.{Said, Entry, call as asking, with_call, tell};
ghost use Rattle.block_machine.specs.Messages.{Outside, message as told, owed_between};
ghost use Rattle.block_machine.specs.Stages.{FitsWant, IsFrom, IsHolding, IsKnownAfter, IsSameButLevel, IsBusy, IsRunning, IsSoundMessage, IsSoundStage, IsSoundStatement, KnowsTables, HasReply, entry_for, is_driven, least, left_at, length_of, owed_after, owed_at, running_at, with_short};
ghost use Rattle.block_machine.specs.Writes.{IsWrite, MayWrite};

use crate::block::Owed;
use crate::call::Answer;
use crate::driving::{begin, go_on, refuse};
use crate::message::Message;
use crate::runner::Runner;
use crate::stage::MessageStage;
use crate::want::MessageWant;
use crate::writes::Written;
use cell_base::{Level, Memory, SqlState};
use history_book::Book;
use pg_framing::TransactionState;
use sql_tree::{Statement, Table};
use statement_course::Demand;
use std::alloc::Global;
use std::vec::IntoIter;

/// The statements of a session's query messages. One message is run after another, by a [`Runner`] of their statements: the reply of each
/// SELECT and SHOW has its RowDescription, and each message ends with ReadyForQuery.
#[derive(Debug, Drop)]
pub struct MessageRunner {
    alloc: Global,
    runner: Runner,
    rest: IntoIter<Statement>,
    ghost driven: { is_driven runner.stage ≡ true },
}

impl MessageRunner {
    ghost use Rattle.block_machine.specs.Runners.{stage_of, knowledge_of, tables_of, statements_of, follows, follows_reply, wanted, held, work_of};

    /// Runs no message yet, and knows no tables. Its transactions are at this level, the level of the server, until a SET chooses another.
    pub fn new(alloc: Global, level: Level) -> Result<MessageRunner, Memory>
        ensures stage { IfOk result (λ r. stage_of r ≡ MessageStage.Over TransactionState.Idle) }
        ensures known { IfOk result (λ r. knowledge_of r ≡ at_start level) }
        ensures rest { IfOk result (λ r. All IsSoundStatement (statements_of r)) }
    {
        Ok(MessageRunner {
            alloc,
            runner: Runner::new(alloc, level)?,
            rest: Vec::new(alloc).into_iter(),
        })
    }

    /// What the message wants.
    pub fn demand(&self) -> MessageWant
        ensures stage { IsWant result (wanted self.now) }
        ensures holding { result ≡ MessageWant.Send → IsHolding (stage_of self.now) }
        ensures running { result ≡ MessageWant.Cells → IsRunning (stage_of self.now) }
        ensures at_rest { (result ≡ MessageWant.Cells → ⊥) → running_at (stage_of self.now) ≡ 0 }
        // The call that is wanted is the one that the script asks.
        ensures asks { (c : Asked) (outside : Outside) (said : Said) → wanted self.now ≡ calls.Book c →
            follows self.now outside said [] ≡ (said, asking c) }
    {
        self.runner.demand()
    }

    /// The table that is to be defined.
    pub fn table(&self) -> &Table
        requires wanted { (table : Defined) × (wanted self.now ≡ calls.Book (calls.Define table)) }
        requires sound { IsSoundStage (stage_of self.now) }
        ensures table { wanted self.now ≡ calls.Book (calls.Define result.now) }
        ensures sound { IsSound result.now }
    {
        self.runner.table()
    }

    /// What the running statement demands.
    pub fn demanded(&self) -> &Demand
        requires { IsRunning (stage_of self.now) }
        ensures wanted { wanted self.now ≡ calls.Book (call_for result.now) }
        ensures asks { asks_cells result.now ≡ true }
    {
        self.runner.demanded()
    }

    /// The reply that is to be sent.
    pub fn reply(&self) -> &[u8]
        requires { IsHolding (stage_of self.now) }
        ensures held { result.now ≡ held self.now }
        // The reply is what the script tells next.
        ensures tells { (outside : Outside) (said : Said) (es : List Entry) → follows self.now outside said es ≡
            tell (held self.now) (outside.broken (owed_at (stage_of self.now))) (follows_reply self.now outside) said es }
    {
        self.runner.reply()
    }

    /// Begins with a message that finds the session in this state. Answers whether the session was out of memory.
    pub fn begin(&mut self, message: Message, state: TransactionState) -> bool
        requires { IsSoundMessage message }
        ensures goes { (outside : Outside) (said : Said) (es : List Entry) →
            IsFrom 1 (length said.bytes) es →
            told message state (knowledge_of self.old) outside said (with_short result said.bytes es) ≡ follows self.new outside said es }
        ensures known { IsSameButLevel (knowledge_of self.old) (knowledge_of self.new) }
        ensures rest { All IsSoundStatement (statements_of self.new) }
        ensures owed { owed_at (stage_of self.new) ≡ owed_between state }
        ensures work { work_of self.new ≤ 8 + 8 * length_of message }
        ensures knows { KnowsTables (stage_of self.new) (tables_of self.new) }
        ensures silent { IsRunning (stage_of self.new) → ⊥ }
        ensures sound { IsSoundStage (stage_of self.new) }
        ensures busy { IsBusy (stage_of self.new) }
        ensures some { HasReply (stage_of self.new) self.new.runner.built.items }
    {
        begin(self.alloc, &mut self.runner, &mut self.rest, message, state)
    }

    /// Takes the answer to the call that is wanted. Answers whether the session was out of memory.
    pub fn answer(&mut self, answer: Answer) -> bool
        requires fits { FitsWant (wanted self.old) answer }
        requires tables { All IsSound (tables_of self.old) }
        requires sound { IsSoundStage (stage_of self.old) }
        ensures goes { (c : Asked) (outside : Outside) (said : Said) (es : List Entry) (e : Event) →
            wanted self.old ≡ calls.Book c → IsFrom 1 (length said.bytes) es →
            follows self.old outside said (entry_for answer e ∷ with_short result said.bytes es)
            ≡ follows self.new outside (with_call said c) es }
        ensures known { IsKnownAfter (knowledge_of self.old) answer (knowledge_of self.new) }
        ensures rest { statements_of self.new ≡ statements_of self.old }
        ensures owed { (c : Asked) → wanted self.old ≡ calls.Book c →
            owed_at (stage_of self.new) ≡ owed_after c answer (owed_at (stage_of self.old)) }
        ensures work { work_of self.new < work_of self.old + running_at (stage_of self.new) }
        ensures left { IsRunning (stage_of self.old) → left_at (stage_of self.new) < left_at (stage_of self.old) }
        ensures knows { KnowsTables (stage_of self.old) (tables_of self.old) → KnowsTables (stage_of self.new) (tables_of self.new) }
        ensures sound { IsSoundStage (stage_of self.new) }
        ensures tables { All IsSound (tables_of self.new) }
        ensures busy { IsBusy (stage_of self.new) }
        ensures some { HasReply (stage_of self.new) self.new.runner.built.items }
    {
        self.runner.answer(answer)
    }

    /// Asks the book for the write that is wanted, in place of a call and its answer: the cell and the value themselves go to the book, so the
    /// session needs no memory for them.
    pub fn write<B: Book>(&mut self, book: &mut B) -> Written
        requires wanted { (cell : cells.Cell) × (value : values.Value) × (wanted self.old ≡ calls.Book (calls.Write cell value)) }
        requires may { (cell : cells.Cell) (value : values.Value) → wanted self.old ≡ calls.Book (calls.Write cell value) →
            MayWrite cell value (B.past book.old) }
        requires tables { All IsSound (tables_of self.old) }
        requires sound { IsSoundStage (stage_of self.old) }
        ensures made { (cell : cells.Cell) × (value : values.Value) × (wanted self.old ≡ calls.Book (calls.Write cell value)) ×
            IsWrite (B.past book.old) cell value result.answer (B.past book.new) }
        ensures goes { (c : Asked) (outside : Outside) (said : Said) (es : List Entry) (e : Event) →
            wanted self.old ≡ calls.Book c → IsFrom 1 (length said.bytes) es →
            follows self.old outside said (entry_for result.answer e ∷ with_short result.out_of_memory said.bytes es)
            ≡ follows self.new outside (with_call said c) es }
        ensures known { knowledge_of self.new ≡ knowledge_of self.old }
        ensures rest { statements_of self.new ≡ statements_of self.old }
        ensures owed { owed_at (stage_of self.new) ≡ owed_at (stage_of self.old) }
        ensures work { work_of self.new < work_of self.old + running_at (stage_of self.new) }
        ensures left { left_at (stage_of self.new) < left_at (stage_of self.old) }
        ensures knows { KnowsTables (stage_of self.old) (tables_of self.old) → KnowsTables (stage_of self.new) (tables_of self.new) }
        ensures sound { IsSoundStage (stage_of self.new) }
        ensures tables { All IsSound (tables_of self.new) }
        ensures busy { IsBusy (stage_of self.new) }
        ensures some { HasReply (stage_of self.new) self.new.runner.built.items }
        ensures legal { IsLegalChronicle (B.past book.new).seen }
        ensures stays { B.stays book.old book.new }
    {
        self.runner.write(book)
    }

    /// The reply was sent. Answers whether the session was out of memory for what follows it.
    pub fn sent(&mut self) -> bool
        requires holding { IsHolding (stage_of self.old) }
        requires rest { All IsSoundStatement (statements_of self.old) }
        ensures goes { (outside : Outside) (said : Said) (es : List Entry) →
            IsFrom (least (stage_of self.new)) (length said.bytes) es →
            follows_reply self.old outside said (with_short result said.bytes es) ≡ follows self.new outside said es }
        ensures known { IsSameButLevel (knowledge_of self.old) (knowledge_of self.new) }
        ensures rest { All IsSoundStatement (statements_of self.new) }
        ensures owed { owed_at (stage_of self.new) ≡ owed_at (stage_of self.old) }
        ensures work { work_of self.new < work_of self.old }
        ensures knows { KnowsTables (stage_of self.new) (tables_of self.new) }
        ensures silent { IsRunning (stage_of self.new) → ⊥ }
        ensures sound { IsSoundStage (stage_of self.new) }
        ensures some { HasReply (stage_of self.new) self.new.runner.built.items }
    {
        go_on(&mut self.runner, &mut self.rest)
    }

    /// Begins with a message that finds the session in this state and fails before its first statement, with this code.
    pub fn refuse(&mut self, code: SqlState, state: TransactionState)
        ensures goes { (outside : Outside) (said : Said) (es : List Entry) →
            told (Message.Unread code) state (knowledge_of self.old) outside said es ≡ follows self.new outside said es }
        ensures known { knowledge_of self.new ≡ knowledge_of self.old }
        ensures rest { All IsSoundStatement (statements_of self.new) }
        ensures owed { owed_at (stage_of self.new) ≡ owed_between state }
        ensures work { work_of self.new ≤ 8 }
        ensures knows { KnowsTables (stage_of self.new) (tables_of self.new) }
        ensures silent { IsRunning (stage_of self.new) → ⊥ }
        ensures sound { IsSoundStage (stage_of self.new) }
        ensures busy { IsBusy (stage_of self.new) }
        ensures some { HasReply (stage_of self.new) self.new.runner.built.items }
    {
        refuse(self.alloc, &mut self.runner, &mut self.rest, code, state)
    }

    /// The state in which the last message left the session; none while a message is under way.
    pub fn left(&self) -> Option<TransactionState>
        ensures some { IfSome result (λ state. (stage_of self.now) ≡ MessageStage.Over state) }
        ensures none { IsNone result → IsBusy (stage_of self.now) }
    {
        self.runner.left()
    }

    /// What the session owes its book.
    pub fn owed(&self) -> Owed
        ensures { result ≡ owed_at (stage_of self.now) }
    {
        self.runner.owed()
    }
}
