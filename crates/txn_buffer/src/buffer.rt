// The buffer, kept as a vector of cells with their values, and an index by the cells' hashes.
ghost use Rattle.std.specs.Prelude.{◌≡◌, ◌≤◌, ◌<◌, ◌+◌, ◌-◌, ◌∷◌, ◌++◌, [], length, slice_set, vec_capacity, OnOk, OnErr, IsOk, IfSome, IfNone, Contains};
ghost use Rattle.txn_buffer.specs.Buffer.{IsMap, Puts, KeepsOrder, StandsAt, IsAbsent};
ghost use Rattle.txn_buffer.specs.Index.{last_of, hash_of, IsIndexed};

use crate::index::{Index, hash};
use cell_base::{Cell, Memory, Value};
use std::alloc::Global;
use std::marker::Model;

/// A map from cells to last values, in order of first write. Contracts see it as the list of its writes, and the number
/// of cells that it has spare room for.
#[derive(Debug, Drop)]
pub struct TxnBuffer {
    entries: Vec<(Cell, Value)>,
    index: Index,
    // For how many further cells all three lists have room.
    room: usize,
}

impl Model for TxnBuffer {
    ghost use Rattle.std.specs.Prelude.{◌+◌, ◌≤◌, length, vec_capacity};
    ghost use Rattle.std.specs.HashMap.{spare};
    ghost use Rattle.txn_buffer.specs.Buffer.{Buffer, IsMap};
    ghost use Rattle.txn_buffer.specs.Index.{last_of, IsIndexed};

    ghost Value = { Buffer };

    ghost view = { λ b. record { writes = b.entries.items; spare = b.room } };

    ghost invariant = { λ b. IsMap b.entries.items × IsIndexed b.entries.items (last_of b.index.last) b.index.before.items
        × (length b.entries.items + b.room ≤ vec_capacity b.entries)
        × (length b.index.before.items + b.room ≤ vec_capacity b.index.before)
        × (b.room ≤ spare b.index.last) };
}

impl TxnBuffer {
    /// No write. Takes no memory.
    pub fn new(alloc: Global) -> TxnBuffer
        ensures { result.writes ≡ [] }
    {
        TxnBuffer {
            entries: Vec::new(alloc),
            index: Index::new(alloc),
            room: 0,
        }
    }

    /// Takes the room for `more` cells. Out of memory, nothing changes.
    pub fn reserve(&mut self, more: usize) -> Result<(), Memory>
        ensures writes { self.new.writes ≡ self.old.writes }
        ensures ok { OnOk result (more ≤ self.new.spare) }
        ensures more { self.old.spare ≤ self.new.spare }
        ensures succeeds { more ≤ self.old.spare → IsOk result }
        ensures err { OnErr result (self.new ≡ self.old) }
    {
        if more <= self.room {
            return Ok(());
        }
        self.entries.reserve(more)?;
        self.index.reserve(more)?;
        self.room = more;
        Ok(())
    }

    /// Puts the value at the cell, after all others where the cell is new. Takes no memory, and at most one spare place.
    pub fn put(&mut self, cell: Cell, value: Value)
        requires { 0 < self.old.spare }
        ensures value { Puts self.old.writes self.new.writes cell value }
        ensures order { KeepsOrder self.old.writes self.new.writes cell }
        ensures spare { self.old.spare ≤ self.new.spare + 1 }
    {
        let hash = hash(&cell);
        match find(&self.entries, &self.index, &cell, hash) {
            Some(at) => replace(&mut self.entries, at, cell, value),
            None => {
                self.room -= 1;
                self.index.push(hash);
                append(&mut self.entries, cell, value);
            }
        }
    }

    /// The value at the cell. It is `None` exactly where the cell isn't there.
    pub fn get(&self, cell: &Cell) -> Option<&Value>
        ensures there { IfSome result (λ value. Contains self.now.writes (cell.now, value.now)) }
        ensures absent { IfNone result (IsAbsent self.now.writes cell.now) }
    {
        if self.entries.is_empty() {
            return None;
        }
        match find(&self.entries, &self.index, cell, hash(cell)) {
            Some(at) => Some(&self.entries[at].1),
            None => None,
        }
    }

    /// The cells with their values, in order of first write. Each cell stands once.
    pub fn writes(&self) -> &[(Cell, Value)]
        ensures items { result.now ≡ self.now.writes }
        ensures distinct { IsMap self.now.writes }
    {
        self.entries.as_slice()
    }
}

/// Where the cell stands: a walk over the cells of its hash, the last one first.
fn find(entries: &[(Cell, Value)], index: &Index, cell: &Cell, hash: u64) -> Option<usize>
    requires indexed { IsIndexed entries.now (last_of index.now.last) index.now.before.items }
    requires hash { hash ≡ hash_of cell.now }
    ensures found { IfSome result (λ at. StandsAt entries.now cell.now at) }
    ensures absent { IfNone result (IsAbsent entries.now cell.now) }
{
    let mut place = index.last_place(hash);
    while place > 0 {
        let at = place - 1;
        if entries[at].0.is_same(cell) {
            return Some(at);
        }
        place = index.before[at];
    }
    None
}

/// Puts the value in place of the one that stands there.
fn replace(entries: &mut Vec<(Cell, Value)>, at: usize, cell: Cell, value: Value)
    requires map { IsMap entries.old.items }
    requires at { StandsAt entries.old.items cell at }
    ensures items { entries.new.items ≡ slice_set entries.old.items at (cell, value) }
    ensures map { IsMap entries.new.items }
    ensures value { Puts entries.old.items entries.new.items cell value }
    ensures order { KeepsOrder entries.old.items entries.new.items cell }
    ensures capacity { vec_capacity entries.new ≡ vec_capacity entries.old }
    ensures length { length entries.new.items ≡ length entries.old.items }
{
    entries[at] = (cell, value);
}

/// Appends a cell that isn't there yet, in the room that was taken.
fn append(entries: &mut Vec<(Cell, Value)>, cell: Cell, value: Value)
    requires map { IsMap entries.old.items }
    requires absent { IsAbsent entries.old.items cell }
    requires room { length entries.old.items < vec_capacity entries.old }
    ensures items { entries.new.items ≡ entries.old.items ++ (cell, value) ∷ [] }
    ensures map { IsMap entries.new.items }
    ensures value { Puts entries.old.items entries.new.items cell value }
    ensures order { KeepsOrder entries.old.items entries.new.items cell }
    ensures capacity { vec_capacity entries.old ≤ vec_capacity entries.new }
    ensures length { length entries.new.items ≡ length entries.old.items + 1 }
{
    push_in_room(entries, (cell, value));
}

/// Appends the entry, in the room that was taken.
fn push_in_room(entries: &mut Vec<(Cell, Value)>, entry: (Cell, Value))
    requires { length entries.old.items < vec_capacity entries.old }
    ensures items { entries.new.items ≡ entries.old.items ++ entry ∷ [] }
    ensures capacity { vec_capacity entries.old ≤ vec_capacity entries.new }
{
    match entries.push(entry) {
        Ok(()) => {}
        Err(_) => unreachable!(),
    }
}
