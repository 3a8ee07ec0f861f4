// A history with an index of the writers by cell, and one of the keys by table.
ghost use Rattle.std.specs.Prelude.{◌≡◌, ◌↔◌, ◌≤◌, ◌<◌, [], length, Some, Err, IfOk, OnOk, OnErr, IsTrue};
ghost use Rattle.sound_table.specs.Sound.{IsSound};
ghost use Rattle.history_core.specs.declared.event.Event.{Event};
ghost use Rattle.history_core.specs.declared.fault.Limit.{Limit};
ghost use Rattle.history_core.specs.Initial.{IsInitialState};
ghost use Rattle.history_core.specs.Legal.{Follows, ListsKeys, full_for};
ghost use Rattle.history_core.specs.Chronicle.{followed_by, with_table};
ghost use Rattle.history_core.specs.Records.{is_any_end};
ghost use Rattle.history_core.specs.Legal.{IsKeyList};
ghost use Rattle.indexed_history.specs.Writers.{ListsWriters, IsPlain};

use crate::index::{self, numbers_of};
use crate::keys::initial_keys;
use crate::parts::Parts;
use crate::pushes::{push_end, push_plain, push_table, push_write};
use crate::scanning::listed_keys;
use cell_base::{Cell, Items, Key, Level, Memory, Value};
use history_core::{BookFault, Event, History, InitialState};
use sql_tree::Table;
use std::alloc::Global;
use std::marker::Model;

/// A history, for each cell the transactions that wrote it, and for each table its keys. Any number of sessions may have a
/// pending transaction. Contracts see the history alone.
#[derive(Debug, Drop)]
pub struct IndexedHistory {
    parts: Parts,
}

impl Model for IndexedHistory {
    ghost use Rattle.history_core.specs.Chronicle.{Chronicle};
    ghost use Rattle.std.specs.Coded.{codes};
    ghost use Rattle.sql_tree.specs.contracts.typed_expr.TypedNode as typed_node;

    ghost Value = { Chronicle };

    ghost coded = { Prim.hlevel (codes, typed_node.the_row.coded) };

    ghost use Rattle.indexed_history.specs.Parts.{AreIndexed};

    ghost view = { λ h. h.parts.history };

    ghost invariant = { λ h. AreIndexed h.parts };
}

impl IndexedHistory {
    /// A history of the level and the initial state, without events. It takes memory for the keys of the initial rows alone.
    pub fn new(alloc: Global, level: Level, initial: InitialState) -> Result<IndexedHistory, Memory>
        ensures ok { IfOk result (λ history. history ≡ record { level = level; initial = initial; events = []; tables = [] }) }
        ensures is { IsInitialState initial }
    {
        let keys = initial_keys(alloc, &initial)?;
        Ok(IndexedHistory {
            parts: Parts {
                alloc,
                history: History::new(alloc, level, initial),
                index: index::new(alloc),
                keys,
            },
        })
    }

    /// Appends an event, any but a definition, a write and an end, as `History::push` does: `Full` comes exactly where the
    /// history is full for it, and on an error nothing changes.
    pub fn push(&mut self, event: Event) -> Result<(), BookFault>
        requires follows { Follows self.old.initial self.old.events event }
        requires plain { IsPlain event }
        ensures ok { OnOk result (self.new ≡ followed_by self.old event) }
        ensures full { (limit : Limit) → (result ≡ Err (BookFault.Full limit)) ↔ (full_for self.old.initial self.old.events event ≡ Some limit) }
        ensures err { OnErr result (self.new ≡ self.old) }
    {
        push_plain(&mut self.parts, event)
    }

    /// Appends a write of the session's pending transaction, as `History::push` does. Its places in both indexes are taken
    /// first, so that the Commit takes no memory.
    pub fn push_write(&mut self, session: u32, cell: Cell, value: Value) -> Result<(), BookFault>
        requires follows { Follows self.old.initial self.old.events (Event.Write session cell value) }
        ensures ok { OnOk result (self.new ≡ followed_by self.old (Event.Write session cell value)) }
        ensures full { (limit : Limit) → (result ≡ Err (BookFault.Full limit)) ↔ (full_for self.old.initial self.old.events (Event.Write session cell value) ≡ Some limit) }
        ensures err { OnErr result (self.new ≡ self.old) }
    {
        push_write(&mut self.parts, session, cell, value)
    }

    /// Appends the definition of a sound table, as `History::push_define` does.
    pub fn push_define(&mut self, session: u32, table: Table) -> Result<(), BookFault>
        requires follows { Follows self.old.initial self.old.events (Event.Define session table.name) }
        requires sound { IsSound table }
        ensures ok { OnOk result (self.new ≡ with_table self.old session table) }
        ensures full { (limit : Limit) → (result ≡ Err (BookFault.Full limit)) ↔ (full_for self.old.initial self.old.events (Event.Define session table.name) ≡ Some limit) }
        ensures err { OnErr result (self.new ≡ self.old) }
    {
        push_table(&mut self.parts, session, table)
    }

    /// Appends a Commit, a Rollback or a Close. Takes no memory and always succeeds. A rollback costs a search for each cell
    /// that its transaction wrote.
    pub fn end(&mut self, event: Event)
        requires follows { Follows self.old.initial self.old.events event }
        requires end { IsTrue (is_any_end event) }
        ensures { self.new ≡ followed_by self.old event }
    {
        push_end(&mut self.parts, event);
    }

    /// The history without the indexes.
    pub fn history(&self) -> &History
        ensures { result.now ≡ self.now }
    {
        &self.parts.history
    }

    /// The transactions but the initial one that wrote the cell and have committed or may commit yet, ascending. Which of them
    /// have committed, their records say.
    pub fn writers(&self, cell: &Cell) -> &[u32]
        ensures writers { ListsWriters self.now.events cell.now result.now }
        ensures few { length result.now ≤ 65535 }
    {
        let _ = self.parts.history.begun();
        numbers_of(&self.parts.index, cell)
    }

    /// The keys that a scan of the table in the session lists, ascending: each whose row is there from the start, whose presence
    /// has a committed writer, or that the session's pending transaction wrote.
    pub fn listed_keys(&self, alloc: Global, session: u32, table: u32) -> Result<Items<Key>, Memory>
        ensures lists { IfOk result (λ keys. ListsKeys self.now.initial self.now.events session table keys) }
        ensures listed { IfOk result IsKeyList }
    {
        let _ = self.parts.history.events();
        listed_keys(alloc, &self.parts, session, table)
    }
}
