// The history, as callers use it.
ghost use Rattle.std.specs.Prelude.{◌≡◌, ◌≤◌, ◌<◌, ◌+◌, ◌↔◌, ℕ, [], length, Some, Err, OnOk, OnErr, IsTrue};
ghost use Rattle.sound_table.specs.Sound.{IsSound};
ghost use Rattle.history_core.specs.declared.event.Event.{Event};
ghost use Rattle.history_core.specs.declared.fault.Limit.{Limit};
ghost use Rattle.history_core.specs.Events.{begun};
ghost use Rattle.history_core.specs.Initial.{load_of};
ghost use Rattle.history_core.specs.Transactions.{IsPending};
ghost use Rattle.history_core.specs.Legal.{Follows, full_for};
ghost use Rattle.history_core.specs.Chronicle.{followed_by, with_table, IsFormedChronicle};
ghost use Rattle.history_core.specs.Records.{IsNoDefinition, IsRecordOf, is_any_end};

use crate::ends::end_event;
use crate::kept::{self, Kept, count_begun, next_number, pending_of, txn_of};
use crate::limits::{define_limit, limit_for};
use crate::notes::without;
use crate::pushes::{push_event, push_table};
use crate::{BookFault, Event, InitialState, Limit, Txn};
use cell_base::Level;
use sql_tree::Table;
use std::alloc::Global;
use std::marker::Model;

/// A history: its level, its initial state, its events and its tables. Contracts see these four. Beside them it keeps the load and a record
/// of each transaction, so that no answer goes through the events.
#[derive(Debug, Drop)]
pub struct History {
    kept: Kept,
}

impl Model for History {
    ghost use Rattle.history_core.specs.Chronicle.{Chronicle};
    ghost use Rattle.std.specs.Coded.{codes};
    ghost use Rattle.sql_tree.specs.contracts.typed_expr.TypedNode as typed_node;

    ghost Value = { Chronicle };

    ghost coded = { Prim.hlevel (codes, typed_node.the_row.coded) };

    ghost use Rattle.history_core.specs.Kept.{IsKept};

    ghost view = { λ h. record { level = h.kept.level; initial = h.kept.initial; events = h.kept.events.items; tables = h.kept.tables.items } };

    ghost invariant = { λ h. IsKept h.kept };
}

impl History {
    /// A history of the level and the initial state, without events. Takes no memory.
    pub fn new(alloc: Global, level: Level, initial: InitialState) -> History
        ensures { result ≡ record { level = level; initial = initial; events = []; tables = [] } }
    {
        History {
            kept: kept::new(alloc, level, initial),
        }
    }

    /// Appends an event that fits what came before, any but a definition. `Full` comes exactly where the history is full
    /// for the event: at a load of 1,048,576, then at an Open after 4,096 Opens and at a Begin after 65,535 Begins. What
    /// ends a transaction or a session is never refused. On an error nothing changes.
    pub fn push(&mut self, event: Event) -> Result<(), BookFault>
        requires follows { Follows self.old.initial self.old.events event }
        requires pushed { IsNoDefinition event }
        ensures ok { OnOk result (self.new ≡ followed_by self.old event) }
        ensures full { (limit : Limit) → (result ≡ Err (BookFault.Full limit)) ↔ (full_for self.old.initial self.old.events event ≡ Some limit) }
        ensures err { OnErr result (self.new ≡ self.old) }
    {
        if let Some(limit) = limit_for(&self.kept, &event) {
            return without(event, Err(BookFault::Full(limit)));
        }
        match push_event(&mut self.kept, event) {
            Ok(()) => Ok(()),
            Err(_) => Err(BookFault::Memory),
        }
    }

    /// Appends the definition of a sound table, whose name isn't taken. `Full` comes exactly at a load of 1,048,576, and
    /// then after 64 definitions. On an error nothing changes.
    pub fn push_define(&mut self, session: u32, table: Table) -> Result<(), BookFault>
        requires follows { Follows self.old.initial self.old.events (Event.Define session table.name) }
        requires sound { IsSound table }
        ensures ok { OnOk result (self.new ≡ with_table self.old session table) }
        ensures full { (limit : Limit) → (result ≡ Err (BookFault.Full limit)) ↔ (full_for self.old.initial self.old.events (Event.Define session table.name) ≡ Some limit) }
        ensures err { OnErr result (self.new ≡ self.old) }
    {
        if let Some(limit) = define_limit(&self.kept, session, &table) {
            return without(table, Err(BookFault::Full(limit)));
        }
        match push_table(&mut self.kept, session, table) {
            Ok(()) => Ok(()),
            Err(_) => Err(BookFault::Memory),
        }
    }

    /// Appends a Commit, a Rollback or a Close. Takes no memory and always succeeds, since the Open or the Begin took the
    /// room.
    pub fn end(&mut self, event: Event)
        requires follows { Follows self.old.initial self.old.events event }
        requires end { IsTrue (is_any_end event) }
        ensures { self.new ≡ followed_by self.old event }
    {
        end_event(&mut self.kept, event);
    }

    /// The served level.
    pub fn level(&self) -> Level
        ensures { result ≡ self.now.level }
    {
        self.kept.level
    }

    /// The initial state, which nothing changes.
    pub fn initial(&self) -> &InitialState
        ensures { result.now ≡ self.now.initial }
    {
        &self.kept.initial
    }

    /// The events, in order; the first one is event 1. Each fits what came before.
    pub fn events(&self) -> &[Event]
        ensures items { result.now ≡ self.now.events }
        ensures formed { IsFormedChronicle self.now }
    {
        self.kept.events.as_slice()
    }

    /// The number that the next event takes.
    pub fn next_number(&self) -> u32
        ensures { result ≡ length self.now.events + 1 }
    {
        next_number(&self.kept)
    }

    /// The tables, by their numbers from 0.
    pub fn tables(&self) -> &[Table]
        ensures items { result.now ≡ self.now.tables }
        ensures few { length result.now ≤ 64 }
        ensures formed { IsFormedChronicle self.now }
    {
        self.kept.tables.as_slice()
    }

    /// The load, which is that of the initial state and the sum of the events' weights.
    pub fn load(&self) -> u64
        ensures { result ≡ load_of self.now.initial self.now.events }
    {
        self.kept.load
    }

    /// How many transactions have begun. They are numbered from 1.
    pub fn begun(&self) -> u32
        ensures number { result ≡ begun self.now.events }
        ensures small { result ≤ 65535 }
    {
        count_begun(&self.kept)
    }

    /// The record of the transaction of the number, which is from 1 to `begun`.
    pub fn txn(&self, number: u32) -> &Txn
        requires some { 0 < number }
        requires begun { number ≤ begun self.now.events }
        ensures { IsRecordOf self.now.events number result.now }
    {
        txn_of(&self.kept, number)
    }

    /// The number of the session's pending transaction. None where nothing is pending in it.
    pub fn pending(&self, session: u32) -> Option<u32>
        ensures { (number : ℕ) → (result ≡ Some number) ↔ IsPending self.now.events number session }
    {
        pending_of(&self.kept, session)
    }
}
