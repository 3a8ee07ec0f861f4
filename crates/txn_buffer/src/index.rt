// Where the cells of one hash stand, so that a cell is found without a walk over all of them.
ghost use Rattle.std.specs.Prelude.{◌≡◌, ◌≤◌, ◌<◌, ◌+◌, ◌∷◌, ◌++◌, [], ℕ, length, vec_capacity, slice_index, OnOk};
ghost use Rattle.std.specs.HashMap.{spare};
ghost use Rattle.txn_buffer.specs.Index.{last_of, hash_of, GainsLast};

use cell_base::{Cell, Memory};
use std::alloc::Global;
use std::collections::HashMap;
use std::hash::{FoldHasher, Hash, Hasher};

/// The places of the cells of each hash, each place given as one more, and 0 where there is none.
#[derive(Debug, Drop)]
pub(crate) struct Index {
    /// For each hash the last place.
    pub(crate) last: HashMap<u64, usize>,
    /// For each place the last place before it with the same hash.
    pub(crate) before: Vec<usize>,
}

impl Index {
    /// The index of no cells. Takes no memory.
    pub(crate) fn new(alloc: Global) -> Index
        ensures last { (hash : ℕ) → last_of result.last hash ≡ 0 }
        ensures before { result.before.items ≡ [] }
    {
        Index {
            last: HashMap::new(alloc),
            before: Vec::new(alloc),
        }
    }

    /// Takes the room for `more` cells.
    pub(crate) fn reserve(&mut self, more: usize) -> Result<(), Memory>
        ensures last { (hash : ℕ) → last_of self.new.last hash ≡ last_of self.old.last hash }
        ensures before { self.new.before.items ≡ self.old.before.items }
        ensures room { OnOk result ((more ≤ spare self.new.last) × (length self.new.before.items + more ≤ vec_capacity self.new.before)) }
        ensures more_last { spare self.old.last ≤ spare self.new.last }
        ensures more_before { vec_capacity self.old.before ≤ vec_capacity self.new.before }
    {
        self.before.reserve(more)?;
        self.last.reserve(more)?;
        Ok(())
    }

    /// One more than the last place of the hash, or 0.
    pub(crate) fn last_place(&self, hash: u64) -> usize
        ensures { result ≡ last_of self.now.last hash }
    {
        match self.last.get(&hash) {
            Some(place) => *place,
            None => 0,
        }
    }

    /// Puts one more cell of the hash after all others, in the room that was taken.
    pub(crate) fn push(&mut self, hash: u64)
        requires last { 0 < spare self.old.last }
        requires before { length self.old.before.items < vec_capacity self.old.before }
        ensures last { GainsLast self.old.last self.new.last hash (length self.old.before.items + 1) }
        ensures before { self.new.before.items ≡ self.old.before.items ++ (last_of self.old.last hash) ∷ [] }
        ensures spare { spare self.old.last ≤ spare self.new.last + 1 }
        ensures capacity { vec_capacity self.old.before ≤ vec_capacity self.new.before }
    {
        let place = self.before.len() + 1;
        let before = self.last_place(hash);
        push_in_room(&mut self.before, before);
        insert_in_room(&mut self.last, hash, place);
    }
}

/// Appends the place, in the room that was taken.
fn push_in_room(places: &mut Vec<usize>, place: usize)
    requires { length places.old.items < vec_capacity places.old }
    ensures items { places.new.items ≡ places.old.items ++ place ∷ [] }
    ensures capacity { vec_capacity places.old ≤ vec_capacity places.new }
{
    match places.push(place) {
        Ok(()) => {}
        Err(_) => unreachable!(),
    }
}

/// Sets the place of the hash, in the room that was taken.
fn insert_in_room(last: &mut HashMap<u64, usize>, hash: u64, place: usize)
    requires { 0 < spare last.old }
    ensures last { GainsLast last.old last.new hash place }
    ensures spare { spare last.old ≤ spare last.new + 1 }
{
    match last.insert(hash, place) {
        Ok(_) => {}
        Err(_) => unreachable!(),
    }
}

/// The hash of a cell, by std's hasher.
pub(crate) fn hash(cell: &Cell) -> u64
    ensures { result ≡ hash_of cell.now }
{
    let mut state = FoldHasher::default();
    cell.hash(&mut state);
    state.finish()
}
