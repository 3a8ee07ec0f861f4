// A history that many sessions share.
ghost use Rattle.std.specs.Prelude.{◌≡◌, ◌-◌, ◌≤◌, IfOk, IfErr};
ghost use Rattle.turn_lock.specs.Passes.{first_pass, split_off, SeesStart, Joined};
ghost use Rattle.turn_lock.specs.Views.{all_parts};
ghost use Rattle.shared_book.specs.Entries.{entries_of, key_of, chronicle_of, event_lists};
ghost use Rattle.shared_book.specs.Books.{HasSeenLegal, fresh_book};
ghost use Rattle.shared_book.specs.Finish.{Finished};
ghost use Rattle.shared_book.specs.Fronts.{IsFrontOf, GoesOnFrom};
ghost use Rattle.history_core.specs.Chronicle.{Chronicle, IsLegalChronicle};

use crate::book::SharedBook;
use crate::kept::Kept;
use std::alloc::Global;
use std::marker::Model;
use std::sync::Wait;
use turn_lock::TurnLock;
use valid_writes::Store;

/// The leave to take turns at one shared history.
pub type Pass = turn_lock::Pass<Kept>;

/// A history that many sessions share. Contracts see the lock, with the entries of the history that it was made with.
#[derive(Drop)]
pub struct Shared {
    lock: TurnLock<Kept>,
}

impl Model for Shared {
    ghost use Rattle.std.specs.Coded.{codes};
    ghost use Rattle.sql_tree.specs.contracts.typed_expr.TypedNode as typed_node;
    ghost use Rattle.turn_lock.specs.Passes.{LockValue};
    ghost use Rattle.shared_book.specs.declared.entry.Entry.{Entry};
    ghost use Rattle.shared_book.specs.Books.{StartsLegal};

    ghost Value = { LockValue Entry };

    ghost coded = { Prim.hlevel (codes, typed_node.the_row.coded) };

    ghost view = { λ s. s.lock };

    ghost invariant = { λ s. StartsLegal s.lock.start };
}

impl Shared {
    /// A shared history that goes on from the store's, and the pass that has all parts. When out of memory, it gives the store back.
    #[tactic(auto, using(crate::proofs::Found::legal_same))]
    pub fn new(alloc: Global, store: Store) -> Result<(Shared, Pass), Store>
        ensures start { IfOk result (λ made. made.0.start ≡ entries_of store) }
        ensures is { IfOk result (λ made. chronicle_of made.0.start ≡ store) }
        ensures pass { IfOk result (λ made. (made.1 ≡ first_pass made.0) × SeesStart made.1 × HasSeenLegal made.1) }
        ensures err { IfErr result (λ back. back ≡ store) }
    {
        // Only for its contract: the history is legal.
        let _ = store.history();
        match TurnLock::new(alloc, Kept { store: Some(store) }) {
            Ok((lock, pass)) => Ok((Shared { lock }, pass)),
            Err(kept) => Err(kept.into_store()),
        }
    }

    /// Gives one part of the pass to a new one, which has seen the same and owns nothing. It takes no memory.
    pub fn split(&self, pass: &mut Pass) -> Pass
        requires lock { pass.old.lock ≡ self.now }
        requires parts { 2 ≤ pass.old.parts }
        ensures old { pass.new ≡ record pass.old { parts = pass.old.parts - 1 } }
        ensures new { result ≡ split_off pass.old }
        ensures start { SeesStart pass.new × SeesStart result }
        ensures legal { HasSeenLegal pass.old → HasSeenLegal pass.new × HasSeenLegal result }
    {
        self.lock.split(pass)
    }

    /// A book of the pass, in which no session is open.
    pub fn book<'a, R: Wait>(&'a self, rt: &'a R, pass: Pass) -> SharedBook<'a, R>
        requires lock { pass.lock ≡ self.now }
        ensures is { result ≡ fresh_book pass }
    {
        SharedBook::new(&self.lock, rt, pass)
    }

    /// Takes in what the other pass has seen, its own list, the lists that it keeps, and its parts. It doesn't wait. What either had seen is a
    /// front of each legal history that goes on from what the joined pass has seen.
    pub fn join(&self, into: &mut Pass, from: Pass)
        requires lock { (into.old.lock ≡ self.now) × (from.lock ≡ self.now) }
        ensures joined { Joined key_of into.old from into.new }
        ensures fronts { (history : Chronicle) → IsLegalChronicle history → GoesOnFrom history into.new →
            IsFrontOf (chronicle_of into.old.seen) history × IsFrontOf (chronicle_of from.seen) history }
        ensures legal { HasSeenLegal into.old → HasSeenLegal from → HasSeenLegal into.new }
    {
        // Only for its contract: both have seen the history that the lock was made with.
        into.sees_start();
        from.sees_start();
        self.lock.join(into, from);
    }

    /// Gives the store, once all passes are joined into one. Its history goes on from what the pass has seen. It takes no memory and doesn't
    /// wait.
    #[tactic(auto, using(crate::proofs::Ending::finished))]
    pub fn finish(self, pass: Pass) -> Store
        requires lock { pass.lock ≡ self }
        requires parts { pass.parts ≡ all_parts }
        ensures finished { Finished (chronicle_of self.start) (event_lists pass) result }
        ensures goes_on { GoesOnFrom result pass }
        ensures front { IsFrontOf (chronicle_of pass.seen) result }
    {
        let Shared { lock } = self;
        // Only for its contract: the pass has seen the history that the lock was made with.
        pass.sees_start();
        let store = lock.close(pass).into_store();
        // Only for its contract: the history is legal.
        let _ = store.history();
        store
    }
}
