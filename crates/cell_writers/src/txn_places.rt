// Where each transaction has something, by its number.
ghost use Rattle.std.specs.Prelude.{◌≡◌, ◌≤◌, ◌<◌, ◌-◌, [], IsSome, IfOk, IfErr, IsTrue, OnOk, OnErr, length};
ghost use Rattle.cell_writers.specs.Pairs.{Pairs, get, key_at, IsStrictlySorted, IsAt, IsGapFor, SetsOnly};

use cell_base::Memory;
use std::alloc::Global;
use std::marker::Model;

/// For each of some transactions a place. Contracts see the pairs of a transaction and its place.
#[derive(Debug, Drop)]
pub struct TxnPlaces {
    pairs: Vec<(u32, u32)>,
}

impl Model for TxnPlaces {
    ghost Value = { Pairs };

    ghost view = { λ m. m.pairs.items };

    ghost invariant = { λ m. IsStrictlySorted m.pairs.items };
}

impl TxnPlaces {
    /// No transaction. Takes no memory.
    pub fn new(alloc: Global) -> TxnPlaces
        ensures { result ≡ [] }
    {
        TxnPlaces {
            pairs: Vec::new(alloc),
        }
    }

    /// The place of the transaction. `None` where it has none.
    pub fn get(&self, txn: u32) -> Option<u32>
        ensures { result ≡ get self.now txn }
    {
        match self.search(txn) {
            Ok(at) => Some(self.pairs[at].1),
            Err(_gap) => None,
        }
    }

    /// Sets the place of the transaction. Out of memory nothing changes.
    pub fn set(&mut self, txn: u32, place: u32) -> Result<(), Memory>
        ensures ok { OnOk result (SetsOnly self.old self.new txn place) }
        ensures err { OnErr result (self.new ≡ self.old) }
    {
        match self.search(txn) {
            Ok(at) => {
                self.pairs[at] = (txn, place);
                Ok(())
            }
            Err(gap) => Ok(self.pairs.insert(gap, (txn, place))?),
        }
    }

    /// Where the transaction stands, or where it would. Most are asked for that stand last or after all, which takes no search.
    fn search(&self, txn: u32) -> Result<usize, usize>
        ensures found { IfOk result (IsAt self.now txn) }
        ensures absent { IfErr result (IsGapFor self.now txn) }
    {
        if self.is_after_all(txn) {
            return Err(self.pairs.len());
        }
        if self.stands_last(txn) {
            return Ok(self.pairs.len() - 1);
        }
        self.pairs.binary_search_by_key(&txn, |&(number, _)| number)
    }

    /// Whether the transaction stands last.
    fn stands_last(&self, txn: u32) -> bool
        ensures some { IsTrue result → 0 < length self.now }
        ensures last { IsTrue result → IsAt self.now txn (length self.now - 1) }
    {
        match self.pairs.last() {
            Some(&(last, _)) => last == txn,
            None => false,
        }
    }

    /// Whether the transaction's number is above all that stand here.
    fn is_after_all(&self, txn: u32) -> bool
        ensures { IsTrue result → IsGapFor self.now txn (length self.now) }
    {
        match self.pairs.last() {
            Some(&(last, _)) => last < txn,
            None => true,
        }
    }
}
