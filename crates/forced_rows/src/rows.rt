// The rows of a history.
ghost use Rattle.std.specs.Prelude.{◌≡◌, ◌<◌, ◌+◌, ◌∷◌, ◌++◌, [], ℕ, List, length, IfOk, OnOk, OnErr};
ghost use Rattle.history_core.specs.declared.event.Event.{Event};
ghost use Rattle.history_core.specs.Events.{begun};
ghost use Rattle.history_core.specs.Transactions.{HasPending};
ghost use Rattle.history_core.specs.Relations.{Writes};
ghost use Rattle.history_core.specs.Legal.{IsLegal, IsOffer, IsOpen};
ghost use Rattle.indexed_history.specs.Writers.{ListsWriters};
ghost use Rattle.graph_base.specs.Closure.{SameClosure};
ghost use Rattle.bit_rows.specs.declared.TheConstants.{ROW_BITS};
ghost use Rattle.reach_rows.specs.Ancestry.{IsLast};
ghost use Rattle.forced_rows.specs.Rows.{AreRowsOf, HaveRoom, AddsBegin, Grows, begin_edges};
ghost use Rattle.forced_rows.specs.Stars.{AreStarsOf, AddsRead};

use crate::ReadStars;
use crate::reader::reader_of;
use crate::seats::{Seat, add_seats, add_source, forget_sources, last_of, set_last};
use cell_base::{Cell, Memory};
use indexed_history::IndexedHistory;
use reach_rows::Reach;
use std::alloc::Global;

/// The forced pairs of a history and what is in the causal past of what, as rows of bits. It is kept beside the history: a clause says of which
/// events the rows are, and each event that adds pairs is told to them.
#[derive(Debug, Drop)]
pub struct ForcedRows {
    alloc: Global,
    /// Which transaction is before which by the forced pairs.
    pub(crate) reach: Reach,
    /// Which transaction is in the causal past of which.
    pub(crate) past: Reach,
    /// What is kept of each session, by its number.
    pub(crate) seats: Vec<Seat>,
}

/// Adds one number to both, or to none.
fn grow_both(reach: &mut Reach, past: &mut Reach) -> Result<(), Memory>
    requires few { reach.old.size < ROW_BITS }
    requires past_few { past.old.size < ROW_BITS }
    ensures ok { OnOk result (Grows reach.old reach.new × Grows past.old past.new) }
    ensures err { OnErr result ((reach.new ≡ reach.old) × (past.new ≡ past.old)) }
{
    let _size = reach.size();
    let _past_size = past.size();
    reach.grow()?;
    match past.grow() {
        Ok(()) => Ok(()),
        Err(_) => {
            reach.take_back();
            Err(Memory)
        }
    }
}

/// Adds the initial transaction and the last one of the session before the one that has begun.
fn link_begun(reach: &mut Reach, last: u32, number: u32)
    requires some { 0 < number }
    requires number { number < reach.old.size }
    requires last { last < number }
    requires none_after { IsLast reach.old.pairs number }
    ensures size { reach.new.size ≡ reach.old.size }
    ensures closure { SameClosure reach.new.pairs (reach.old.pairs ++ begin_edges last number) }
{
    reach.add_into_last(0, number);
    reach.add_into_last(last, number);
}

impl ForcedRows {
    /// The rows of a history without events.
    pub fn new(alloc: Global) -> Result<ForcedRows, Memory>
        ensures { IfOk result (AreRowsOf []) }
    {
        let reach = Reach::new(alloc)?;
        let past = Reach::new(alloc)?;
        Ok(ForcedRows {
            alloc,
            reach,
            past,
            seats: Vec::new(alloc),
        })
    }

    /// Takes the room for one transaction more, which the session may then begin. Out of memory, the rows stay those of the history.
    pub fn make_room(&mut self, history: &IndexedHistory, session: u32) -> Result<(), Memory>
        requires kept { AreRowsOf history.now.events self.old }
        requires idle { ¬ HasPending history.now.events session }
        requires few { begun history.now.events < 65535 }
        ensures ok { OnOk result (HaveRoom history.now.events session self.new) }
        ensures err { OnErr result (AreRowsOf history.now.events self.new) }
    {
        add_seats(self.alloc, &mut self.seats, session)?;
        forget_sources(&mut self.seats, session);
        grow_both(&mut self.reach, &mut self.past)
    }

    /// Gives the room back, where the history refused the Begin.
    pub fn give_back_room(&mut self, history: &IndexedHistory, session: u32)
        requires room { HaveRoom history.now.events session self.old }
        ensures { AreRowsOf history.now.events self.new }
    {
        let _begun = history.history().begun();
        self.reach.take_back();
        self.past.take_back();
    }

    /// The session has begun the next transaction, for which there is room. Takes no memory.
    pub fn begin(&mut self, history: &IndexedHistory, session: u32)
        requires begun { AddsBegin history.now.initial history.now.events session self.old }
        ensures { AreRowsOf history.now.events self.new }
    {
        let last = last_of(&self.seats, session);
        let number = self.reach.size() - 1;
        link_begun(&mut self.reach, last, number);
        link_begun(&mut self.past, last, number);
        set_last(&mut self.seats, session, number);
    }

    /// The writes of a cell that the pending transaction of the session may read next, ascending, of the cell's writers. An error is out of
    /// memory.
    pub fn offer(
        &self,
        alloc: Global,
        history: &IndexedHistory,
        session: u32,
        cell: &Cell,
        writers: &[u32],
    ) -> Result<Vec<u32>, Memory>
        requires kept { AreRowsOf history.now.events self.now }
        requires legal { IsLegal history.now.initial history.now.events }
        requires pending { HasPending history.now.events session }
        requires writers { ListsWriters history.now.events cell.now writers.now }
        ensures exact { IfOk result (λ offer. IsOffer history.now.events session cell.now offer.items) }
        ensures some { IfOk result (λ offer. 0 < length offer.items) }
    {
        let reader = reader_of(history.history(), session);
        let offer = self.offer_for(alloc, history, reader, cell, writers)?;
        Ok(offer)
    }

    /// The pairs that a further read of a cell, of which these are the writers, demands of the pending transaction, as stars. An error is out of
    /// memory.
    pub fn stars_of_read(
        &self,
        alloc: Global,
        history: &IndexedHistory,
        session: u32,
        cell: &Cell,
        source: u32,
        writers: &[u32],
    ) -> Result<ReadStars, Memory>
        requires kept { AreRowsOf history.now.events self.now }
        requires pending { HasPending history.now.events session }
        requires writes { Writes history.now.events source cell.now }
        requires writers { ListsWriters history.now.events cell.now writers.now }
        ensures { IfOk result (AreStarsOf history.now.events session cell.now source) }
    {
        let reader = reader_of(history.history(), session);
        let stars = self.stars_for(alloc, history, reader, cell, source, writers)?;
        Ok(stars)
    }

    /// The session has read from the source, and these are the stars of that read. Takes no memory.
    pub fn read(&mut self, history: &IndexedHistory, session: u32, source: u32, stars: &ReadStars)
        requires read { AddsRead history.now.initial history.now.events session source stars.now self.old }
        ensures { AreRowsOf history.now.events self.new }
    {
        let reader = last_of(&self.seats, session);
        let _size = self.reach.size();
        self.reach.add_stars(&stars.stars);
        self.reach.add_into_last(source, reader);
        self.past.add_into_last(source, reader);
        add_source(&mut self.seats, session, source);
    }

    /// Which transaction is before which by the forced pairs: where the rows are those of a history, their closure is that of its forced pairs.
    pub fn reach(&self) -> &Reach
        ensures { result.now ≡ self.now.reach }
    {
        &self.reach
    }
}
