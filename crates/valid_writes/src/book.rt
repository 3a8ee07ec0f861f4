// The book of one session of a store.
ghost use Rattle.std.specs.Prelude.{◌≡◌, ◌⊎◌, ℕ, Some, IfSome, IfNone};
ghost use Rattle.history_core.specs.Transactions.{HasPending};
ghost use Rattle.history_core.specs.Legal.{IsOpen};
ghost use Rattle.history_book.specs.Book.{no_session, in_session, pending};
ghost use Rattle.valid_writes.specs.declared.desk.Stage.TheVariants as stages;
ghost use Rattle.valid_writes.specs.Store.{IsStore};
ghost use Rattle.valid_writes.specs.Desk.{given_events, last_writes};

use crate::calls::{
    begin_transaction, close_session, commit_transaction, open_session, roll_back_transaction,
    show_number, write_cell,
};
use crate::desk::{Desk, Stage};
use crate::kept::Kept;
use crate::scanning::scan_table;
use crate::store::Store;
use crate::tables::{define_table, look_at_tables};
use crate::touching::touch_cell;
use cell_base::{Cell, Items, Key, Level, Value};
use history_book::{Book, Words};
use history_core::{BookFault, DefineAnswer, History};
use sql_tree::Table;
use std::marker::Model;

/// The book of one session of a store, which it holds. It has seen the store's history; its own events are those of the session that was
/// given, and all that were added through it.
#[derive(Debug, Drop)]
pub struct SeatBook {
    desk: Desk,
}

impl Model for SeatBook {
    ghost use Rattle.std.specs.Coded.{codes};
    ghost use Rattle.sql_tree.specs.contracts.typed_expr.TypedNode as typed_node;
    ghost use Rattle.history_book.specs.Book.{Past};

    ghost Value = { Past };

    ghost coded = { Prim.hlevel (codes, typed_node.the_row.coded) };

    ghost use Rattle.valid_writes.specs.Desk.{past_of, IsDesk};

    ghost view = { λ b. past_of b.desk };

    ghost invariant = { λ b. IsDesk b.desk };
}

/// A seat in the store, for a session that is open or one that is still to open.
pub fn seated(store: Kept, session: Option<u32>) -> SeatBook
    requires kept { IsStore store }
    requires open { IfSome session (λ s. IsOpen store.history.events s) }
    ensures seen { result.seen ≡ store.history }
    ensures own { result.own ≡ given_events session store.history.events }
    ensures none { IfNone session (result.state ≡ no_session) }
    ensures idle { (s : ℕ) → session ≡ Some s → ¬ HasPending store.history.events s → result.state ≡ in_session s }
    ensures pending { (s : ℕ) → session ≡ Some s → HasPending store.history.events s → result.state ≡ pending s (last_writes store.history.events s) }
{
    let from = store.history.history().events().len();
    let stage = stage_of(store.history.history(), session);
    SeatBook {
        desk: Desk {
            store,
            given: session,
            from,
            session: number_of(session),
            stage,
        },
    }
}

/// The number of the session, and 0 where none is given.
fn number_of(session: Option<u32>) -> u32
    ensures some { (s : ℕ) → session ≡ Some s → result ≡ s }
{
    match session {
        Some(session) => session,
        None => 0,
    }
}

/// Where the session stands, if one is given.
fn stage_of(history: &History, session: Option<u32>) -> Stage
    ensures none { IfNone session (result ≡ stages.NoSession) }
    ensures idle { (s : ℕ) → session ≡ Some s → ¬ HasPending history.now.events s → result ≡ stages.InSession }
    ensures pending { (s : ℕ) → session ≡ Some s → HasPending history.now.events s → result ≡ stages.Pending }
    ensures either { (s : ℕ) → session ≡ Some s → HasPending history.now.events s ⊎ (¬ HasPending history.now.events s) }
{
    let Some(session) = session else {
        return Stage::NoSession;
    };
    match history.pending(session) {
        Some(_) => Stage::Pending,
        None => Stage::InSession,
    }
}

impl SeatBook {
    ghost use Rattle.std.specs.Prelude.{◌≡◌};
    ghost use Rattle.history_core.specs.Chronicle.{IsLegalChronicle};
    ghost use Rattle.history_core.specs.Legal.{IsOpen};
    ghost use Rattle.history_book.specs.Book.{HasSession, session_of};
    ghost use Rattle.valid_writes.specs.Seats.{StandsIn};

    /// The history that the book has seen, which is the store's, and legal.
    pub fn history(&self) -> &History
        ensures seen { result.now ≡ self.now.seen }
        ensures legal { IsLegalChronicle self.now.seen }
    {
        self.desk.store.history.history()
    }

    /// Gives the store back. A session that the book has is open in it, and may be seated again.
    pub fn into_store(self) -> Store
        ensures is { result ≡ self.seen }
        ensures open { HasSession self.state → IsOpen self.seen.events (session_of self.state) }
        ensures stands { StandsIn self.state self.seen.events }
    {
        Store::of(self.desk.store)
    }
}

impl Book for SeatBook {
    ghost use Rattle.valid_writes.specs.Owning.{OwnsAllThatComes, owns_all_of_none, owns_all_of_both};

    ghost past = { λ book. book };

    ghost stays = { OwnsAllThatComes };

    fn open(&mut self) -> Result<u32, BookFault> {
        open_session(&mut self.desk)
    }

    fn close(&mut self) {
        close_session(&mut self.desk);
    }

    fn look(&mut self, known: u32) -> Result<Items<Table>, BookFault> {
        look_at_tables(&mut self.desk, known)
    }

    fn define(&mut self, table: &Table) -> Result<DefineAnswer, BookFault> {
        define_table(&mut self.desk, table)
    }

    fn begin(&mut self, level: Level) -> Result<u32, BookFault> {
        begin_transaction(&mut self.desk, level)
    }

    fn scan(&mut self, table: u32) -> Result<Items<Key>, BookFault> {
        scan_table(&mut self.desk, table)
    }

    fn touch<W: Words>(&mut self, words: &mut W, cell: &Cell) -> Result<Value, BookFault> {
        touch_cell(&mut self.desk, words, cell)
    }

    fn write(&mut self, cell: Cell, value: Value) -> Result<(), BookFault> {
        write_cell(&mut self.desk, cell, value)
    }

    fn commit(&mut self) {
        commit_transaction(&mut self.desk);
    }

    fn rollback(&mut self) {
        roll_back_transaction(&mut self.desk);
    }

    fn show(&mut self) -> Result<u32, BookFault> {
        show_number(&mut self.desk)
    }

    ghost stays_same = { owns_all_of_none };

    ghost stays_trans = { owns_all_of_both };
}
