// A book: one session's way to a history.
use crate::words::Words;
use cell_base::{Cell, Items, Key, Level, Value};
use history_core::{BookFault, DefineAnswer};
use sql_tree::Table;

/// One session's way to a history, which others may add to as well. Each call adds just one event after what others added, that of its
/// name, and a call that is refused adds none. A touch adds an own read or a read, and a definition of a name that is taken a look.
/// A call answers `Full` only where the history is full for it, tested in the order load, name, count, memory. The history
/// seen after a call is legal: each read in it was offered exactly what the level of its transaction permits.
pub trait Book {
    ghost use Rattle.std.specs.Prelude.{◌≡◌, ◌≢◌, ◌≤◌, [], ◌∷◌, ◌++◌, ℕ, length, Some, IfOk, OnOk, OnErr, Contains};
    ghost use Rattle.sound_table.specs.Sound.{IsSound};
    ghost use Rattle.history_core.specs.declared.event.Event.TheVariants as events;
    ghost use Rattle.history_core.specs.declared.fault.Limit.{Limit};
    ghost use Rattle.history_core.specs.declared.fault.Limit.TheVariants as limits;
    ghost use Rattle.history_core.specs.Events.{table_of, begun, names};
    ghost use Rattle.history_core.specs.Initial.{IsStorable};
    ghost use Rattle.history_core.specs.Legal.{IsKeyList, full_for, full_load};
    ghost use Rattle.history_core.specs.Chronicle.{IsLegalChronicle};
    ghost use Rattle.history_book.specs.Book.{Past, SessionState, no_session, in_session, pending, HasSession, IsIdle, IsInTransaction, HasTable, session_of, writes_of, GoesOn, Adds, AnswersTables, AnswersDefine, AnswersTouch};

    /// The history seen, the own events, and where the session stands.
    ghost past: { Self → Past };

    /// What no call changes, as the lock and the way to it.
    ghost stays: { Self → Self → Type 0 };

    /// Starts a session and answers its number.
    fn open(&mut self) -> Result<u32, BookFault>
        requires { (past self.old).state ≡ no_session }
        ensures ok { IfOk result (λ s. Adds (past self.old) (events.Open s) (past self.new)) }
        ensures state { IfOk result (λ s. (past self.new).state ≡ in_session s) }
        ensures err { OnErr result (GoesOn (past self.old) (past self.new)) }
        ensures full { (limit : Limit) → result ≡ Err (BookFault.Full limit) → full_for (past self.new).seen.initial (past self.new).seen.events (events.Open 0) ≡ Some limit }
        ensures legal { IsLegalChronicle (past self.new).seen }
        ensures stays { stays self.old self.new };

    /// Ends the session. Takes no memory.
    fn close(&mut self)
        requires { IsIdle (past self.old).state }
        ensures adds { Adds (past self.old) (events.Close (session_of (past self.old).state)) (past self.new) }
        ensures state { (past self.new).state ≡ no_session }
        ensures legal { IsLegalChronicle (past self.new).seen }
        ensures stays { stays self.old self.new };

    /// Looks at the tables, and answers those from the number `known` on.
    fn look(&mut self, known: u32) -> Result<Items<Table>, BookFault>
        requires open { HasSession (past self.old).state }
        requires known { known ≤ length (past self.old).seen.tables }
        ensures ok { IfOk result (λ tables. AnswersTables (past self.old) known tables (past self.new)) }
        ensures state { (past self.new).state ≡ (past self.old).state }
        ensures err { OnErr result (GoesOn (past self.old) (past self.new)) }
        ensures full { (limit : Limit) → result ≡ Err (BookFault.Full limit) → full_load (past self.new).seen.initial (past self.new).seen.events ≡ Some limit }
        ensures legal { IsLegalChronicle (past self.new).seen }
        ensures stays { stays self.old self.new };

    /// Defines a table, or looks where its name is taken.
    fn define(&mut self, table: &Table) -> Result<DefineAnswer, BookFault>
        requires open { HasSession (past self.old).state }
        requires sound { IsSound table.now }
        ensures ok { IfOk result (λ answer. AnswersDefine (past self.old) table.now answer (past self.new)) }
        ensures state { (past self.new).state ≡ (past self.old).state }
        ensures err { OnErr result (GoesOn (past self.old) (past self.new)) }
        ensures full { (limit : Limit) → result ≡ Err (BookFault.Full limit) → full_for (past self.new).seen.initial (past self.new).seen.events (events.Define 0 table.now.name) ≡ Some limit }
        ensures load_first { (limit : Limit) → limit ≢ limits.Load → result ≡ Err (BookFault.Full limit) → ¬ (Contains (names (past self.new).seen.events) table.now.name) }
        ensures legal { IsLegalChronicle (past self.new).seen }
        ensures stays { stays self.old self.new };

    /// Starts a transaction at the level and answers its number.
    fn begin(&mut self, level: Level) -> Result<u32, BookFault>
        requires { IsIdle (past self.old).state }
        ensures ok { IfOk result (λ n. Adds (past self.old) (events.Begin (session_of (past self.old).state) level) (past self.new)) }
        ensures number { IfOk result (λ n. n ≡ begun (past self.new).seen.events) }
        ensures state { OnOk result ((past self.new).state ≡ pending (session_of (past self.old).state) []) }
        ensures err { OnErr result (GoesOn (past self.old) (past self.new)) }
        ensures full { (limit : Limit) → result ≡ Err (BookFault.Full limit) → full_for (past self.new).seen.initial (past self.new).seen.events (events.Begin 0 level) ≡ Some limit }
        ensures legal { IsLegalChronicle (past self.new).seen }
        ensures stays { stays self.old self.new };

    /// Lists the keys of a table, ascending, whose row the initial state has, or a committed transaction or the pending one has made or
    /// removed.
    fn scan(&mut self, table: u32) -> Result<Items<Key>, BookFault>
        requires pending { IsInTransaction (past self.old).state }
        requires defined { HasTable (past self.old) table }
        ensures ok { IfOk result (λ keys. Adds (past self.old) (events.Scan (session_of (past self.old).state) table keys) (past self.new)) }
        ensures listed { IfOk result IsKeyList }
        ensures state { (past self.new).state ≡ (past self.old).state }
        ensures err { OnErr result (GoesOn (past self.old) (past self.new)) }
        ensures full { (limit : Limit) → result ≡ Err (BookFault.Full limit) → full_load (past self.new).seen.initial (past self.new).seen.events ≡ Some limit }
        ensures legal { IsLegalChronicle (past self.new).seen }
        ensures stays { stays self.old self.new };

    /// Reads a cell: what the pending transaction wrote to it last, or where it wrote nothing to it, the committed write that a word
    /// picks of those that the level of the transaction permits. That word is the next one, drawn also where the read is refused; for an
    /// own write none is drawn.
    fn touch<W: Words>(&mut self, words: &mut W, cell: &Cell) -> Result<Value, BookFault>
        requires pending { IsInTransaction (past self.old).state }
        requires defined { HasTable (past self.old) (table_of cell.now) }
        ensures answers { AnswersTouch W.gives (past self.old) words.old cell.now result (past self.new) words.new }
        ensures state { (past self.new).state ≡ (past self.old).state }
        ensures err { OnErr result (GoesOn (past self.old) (past self.new)) }
        ensures full { (limit : Limit) → result ≡ Err (BookFault.Full limit) → full_load (past self.new).seen.initial (past self.new).seen.events ≡ Some limit }
        ensures legal { IsLegalChronicle (past self.new).seen }
        ensures stays { stays self.old self.new };

    /// Writes a cell. The write is seen by others once the transaction has committed.
    fn write(&mut self, cell: Cell, value: Value) -> Result<(), BookFault>
        requires pending { IsInTransaction (past self.old).state }
        requires storable { IsStorable value }
        requires defined { HasTable (past self.old) (table_of cell) }
        ensures ok { OnOk result (Adds (past self.old) (events.Write (session_of (past self.old).state) cell value) (past self.new)) }
        ensures state { OnOk result ((past self.new).state ≡ pending (session_of (past self.old).state) (writes_of (past self.old).state ++ (cell, value) ∷ [])) }
        ensures err { OnErr result (GoesOn (past self.old) (past self.new)) }
        ensures full { (limit : Limit) → result ≡ Err (BookFault.Full limit) → full_load (past self.new).seen.initial (past self.new).seen.events ≡ Some limit }
        ensures legal { IsLegalChronicle (past self.new).seen }
        ensures stays { stays self.old self.new };

    /// Commits the pending transaction. Takes no memory and always succeeds.
    fn commit(&mut self)
        requires { IsInTransaction (past self.old).state }
        ensures adds { Adds (past self.old) (events.Commit (session_of (past self.old).state)) (past self.new) }
        ensures state { (past self.new).state ≡ in_session (session_of (past self.old).state) }
        ensures legal { IsLegalChronicle (past self.new).seen }
        ensures stays { stays self.old self.new };

    /// Rolls the pending transaction back. Takes no memory and always succeeds.
    fn rollback(&mut self)
        requires { IsInTransaction (past self.old).state }
        ensures adds { Adds (past self.old) (events.Rollback (session_of (past self.old).state)) (past self.new) }
        ensures state { (past self.new).state ≡ in_session (session_of (past self.old).state) }
        ensures legal { IsLegalChronicle (past self.new).seen }
        ensures stays { stays self.old self.new };

    /// Tells the number of the event that tells it. Events are numbered from 1.
    fn show(&mut self) -> Result<u32, BookFault>
        requires { HasSession (past self.old).state }
        ensures ok { IfOk result (λ number. Adds (past self.old) (events.Show (session_of (past self.old).state) number) (past self.new)) }
        ensures number { IfOk result (λ number. number ≡ length (past self.new).seen.events) }
        ensures state { (past self.new).state ≡ (past self.old).state }
        ensures err { OnErr result (GoesOn (past self.old) (past self.new)) }
        ensures full { (limit : Limit) → result ≡ Err (BookFault.Full limit) → full_load (past self.new).seen.initial (past self.new).seen.events ≡ Some limit }
        ensures legal { IsLegalChronicle (past self.new).seen }
        ensures stays { stays self.old self.new };

    ghost stays_same: { (book : Self) → stays book book };

    ghost stays_trans: { (a b c : Self) → stays a b → stays b c → stays a c };
}
