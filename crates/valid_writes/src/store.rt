// The store, as its callers use it.
ghost use Rattle.std.specs.Prelude.{◌≡◌, ◌≤◌, ◌<◌, ◌+◌, ◌↔◌, ◌⊎◌, ℕ, List, [], length, Some, IfOk, IfSome, IfNone};
ghost use Rattle.graph_base.specs.declared.Edge.{Edge};
ghost use Rattle.graph_base.specs.Walk.{Reaches};
ghost use Rattle.graph_base.specs.Order.{IsLeastOrder, IsLower};
ghost use Rattle.saturation.specs.Laws.{AreForced};
ghost use Rattle.graph_base.specs.Chain.{Chained};
ghost use Rattle.history_core.specs.Events.{begun};
ghost use Rattle.history_core.specs.Transactions.{HasPending};
ghost use Rattle.history_core.specs.Relations.{Meets};
ghost use Rattle.history_core.specs.Legal.{IsOffer, IsOpen};
ghost use Rattle.history_core.specs.Forced.{IsForced};
ghost use Rattle.history_core.specs.Chronicle.{IsLegalChronicle};
ghost use Rattle.history_book.specs.Book.{no_session, in_session, pending};
ghost use Rattle.valid_writes.specs.Desk.{given_events, last_writes};
ghost use Rattle.valid_writes.specs.Store.{IsStore};

use crate::book::{self, SeatBook};
use crate::choosing::offered;
use crate::kept::Kept;
use cell_base::{Cell, Level, Memory};
use forced_rows::ForcedRows;
use history_core::{History, InitialState};
use indexed_history::IndexedHistory;
use reach_rows::Reach;
use std::alloc::Global;
use std::marker::Model;

/// One history of any number of sessions, which is legal, with the rows of its forced pairs. Contracts see the history.
#[derive(Debug, Drop)]
pub struct Store {
    kept: Kept,
}

impl Model for Store {
    ghost use Rattle.history_core.specs.Chronicle.{Chronicle};
    ghost use Rattle.std.specs.Coded.{codes};
    ghost use Rattle.sql_tree.specs.contracts.typed_expr.TypedNode as typed_node;

    ghost Value = { Chronicle };

    ghost coded = { Prim.hlevel (codes, typed_node.the_row.coded) };

    ghost use Rattle.valid_writes.specs.Store.{IsStore};

    ghost view = { λ s. s.kept.history };

    ghost invariant = { λ s. IsStore s.kept };
}

impl Store {
    /// A store whose history has the served level and the initial state, and no events yet.
    pub fn new(alloc: Global, level: Level, initial: InitialState) -> Result<Store, Memory>
        ensures { IfOk result (λ store. store ≡ record { level = level; initial = initial; events = []; tables = [] }) }
    {
        let history = IndexedHistory::new(alloc, level, initial)?;
        let rows = ForcedRows::new(alloc)?;
        Ok(Store {
            kept: Kept {
                alloc,
                history,
                rows,
                sessions: 0,
            },
        })
    }

    /// The history, which is legal: each read in it was offered exactly what the level of its transaction permits.
    pub fn history(&self) -> &History
        ensures is { result.now ≡ self.now }
        ensures legal { IsLegalChronicle self.now }
    {
        self.kept.history.history()
    }

    /// The writes that the pending transaction of the session may read next, ascending, at the transaction's own level; there is always
    /// one. An error is out of memory.
    pub fn offer(&self, session: u32, cell: &Cell) -> Result<Vec<u32>, Memory>
        requires { HasPending self.now.events session }
        ensures exact { IfOk result (λ offer. IsOffer self.now.events session cell.now offer.items) }
        ensures some { IfOk result (λ offer. 0 < length offer.items) }
        ensures few { IfOk result (λ offer. length offer.items ≤ 65536) }
    {
        let writers = self.kept.history.writers(cell);
        offered(&self.kept, session, cell, writers)
    }

    /// The rows of the forced pairs, one number for each transaction and 0 for the initial one: which transaction each commit order has before
    /// which. Takes no memory.
    pub fn reach(&self) -> &Reach
        ensures size { result.now.size ≡ begun self.now.events + 1 }
        ensures closure { (a b : ℕ) → Reaches result.now.pairs a b ↔ Chained (IsForced self.now.events) a b }
    {
        self.kept.rows.reach()
    }

    /// The first of all orders that meet the history, compared number by number, which is the least order of its forced pairs. An error is out
    /// of memory.
    pub fn order(&self) -> Result<Vec<u32>, Memory>
        ensures meets { IfOk result (λ order. Meets self.now.events order.items) }
        ensures first { IfOk result (λ order. (other : List ℕ) → Meets self.now.events other → (order.items ≡ other) ⊎ IsLower order.items other) }
        ensures least { IfOk result (λ order. (edges : List Edge) → AreForced self.now.events edges → IsLeastOrder (begun self.now.events + 1) edges order.items) }
    {
        self.kept.rows.order(self.kept.alloc, &self.kept.history)
    }

    /// The book of a session that is open, or of one that is still to open.
    pub fn seat(self, session: Option<u32>) -> SeatBook
        requires { IfSome session (λ s. IsOpen self.events s) }
        ensures seen { result.seen ≡ self }
        ensures own { result.own ≡ given_events session self.events }
        ensures none { IfNone session (result.state ≡ no_session) }
        ensures idle { (s : ℕ) → session ≡ Some s → ¬ HasPending self.events s → result.state ≡ in_session s }
        ensures pending { (s : ℕ) → session ≡ Some s → HasPending self.events s → result.state ≡ pending s (last_writes self.events s) }
    {
        book::seated(self.kept, session)
    }

    /// The store of these parts.
    pub(crate) fn of(kept: Kept) -> Store
        requires { IsStore kept }
        ensures { result ≡ kept.history }
    {
        Store { kept }
    }
}
