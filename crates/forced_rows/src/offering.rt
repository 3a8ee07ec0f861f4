// Which writes a read may see.
ghost use Rattle.std.specs.Prelude.{◌<◌, ◌≤◌, ◌↔◌, ℕ, List, All, Any, IsTrue, IfOk};
ghost use Rattle.graph_base.specs.Walk.{Reaches};
ghost use Rattle.history_core.specs.Events.{begun};
ghost use Rattle.history_core.specs.Relations.{HasWritten, Writes};
ghost use Rattle.history_core.specs.Legal.{IsPermitted, IsOffer};
ghost use Rattle.indexed_history.specs.Writers.{ListsWriters};
ghost use Rattle.forced_rows.specs.Rows.{AreRowsOf};
ghost use Rattle.forced_rows.specs.Sights.{IsReader, AreBeforeSome, AreOvertaken, IsOfferAmong};

use crate::ForcedRows;
use crate::reader::Reader;
use crate::sight::{Sight, is_committed};
use bit_rows::Row;
use cell_base::{Cell, Memory};
use history_core::History;
use indexed_history::IndexedHistory;
use std::alloc::Global;

/// How many writers are asked one by one what is before them.
const FEW: usize = 8;

/// The writers of a cell that a reader sees, and where they are more than a few, all that is before one of them as one row.
#[derive(Debug, Drop)]
pub struct Overtaken {
    pub seen: Vec<u32>,
    pub before: Option<Row>,
}

impl ForcedRows {
    /// All that is before one of the numbers, where these are more than a few.
    fn union_of_many(&self, numbers: &[u32]) -> Result<Option<Row>, Memory>
        requires { All (λ m. m < self.now.reach.size) numbers.now }
        ensures { IfOk result (AreBeforeSome self.now.reach.pairs numbers.now) }
    {
        if numbers.len() <= FEW {
            return Ok(None);
        }
        let row = self.reach.union_of(numbers)?;
        Ok(Some(row))
    }

    /// Whether a number is before one of the writers.
    fn is_overtaken(&self, overtaken: &Overtaken, number: u32) -> bool
        requires number { number < self.now.reach.size }
        requires seen { All (λ m. m < self.now.reach.size) overtaken.now.seen.items }
        requires before { AreBeforeSome self.now.reach.pairs overtaken.now.seen.items overtaken.now.before }
        ensures { IsTrue result ↔ Any (λ m. Reaches self.now.reach.pairs number m) overtaken.now.seen.items }
    {
        let _size = self.reach.size();
        match &overtaken.before {
            Some(row) => row.has(number),
            None => overtaken
                .seen
                .iter()
                .any(|writer| self.reach.reaches(number, *writer)),
        }
    }

    /// Those of the writers of the cell that the reader sees, with what is before them.
    fn overtaken(
        &self,
        alloc: Global,
        history: &History,
        reader: Reader,
        cell: &Cell,
        writers: &[u32],
    ) -> Result<Overtaken, Memory>
        requires kept { AreRowsOf history.now.events self.now }
        requires reader { IsReader history.now.events reader }
        requires writers { ListsWriters history.now.events cell.now writers.now }
        ensures { IfOk result (AreOvertaken history.now.events self.now.reach.pairs reader cell.now) }
    {
        let seen = self.rivals_among(alloc, history, reader, cell, Sight::SoFar, 0, writers)?;
        let before = self.union_of_many(&seen)?;
        Ok(Overtaken { seen, before })
    }

    /// Whether the stars of a further read from the source close no cycle.
    fn closes_none(
        &self,
        alloc: Global,
        history: &IndexedHistory,
        reader: Reader,
        cell: &Cell,
        source: u32,
    ) -> Result<bool, Memory>
        requires kept { AreRowsOf history.now.events self.now }
        requires reader { IsReader history.now.events reader }
        requires writes { Writes history.now.events source cell.now }
        ensures { IfOk result (λ permitted. IsTrue permitted ↔ IsPermitted history.now.events reader.session cell.now source) }
    {
        let _events = history.history().events();
        let _size = self.reach.size();
        let writers = history.writers(cell);
        let read = self.stars_for(alloc, history, reader, cell, source, writers)?;
        let close = self.reach.stars_close_cycle(&read.stars)?;
        Ok(!close)
    }

    /// Whether the reader may read the cell from the source next. Where that brings no news, a bit tells for each of a few
    /// writers, and one bit for all of many.
    fn permits(
        &self,
        alloc: Global,
        history: &IndexedHistory,
        reader: Reader,
        cell: &Cell,
        overtaken: &Overtaken,
        source: u32,
    ) -> Result<bool, Memory>
        requires kept { AreRowsOf history.now.events self.now }
        requires reader { IsReader history.now.events reader }
        requires overtaken { AreOvertaken history.now.events self.now.reach.pairs reader cell.now overtaken.now }
        requires writes { Writes history.now.events source cell.now }
        ensures { IfOk result (λ permitted. IsTrue permitted ↔ IsPermitted history.now.events reader.session cell.now source) }
    {
        let _events = history.history().events();
        let _size = self.reach.size();
        if self.brings_news(history.history(), reader, source) {
            let permitted = self.closes_none(alloc, history, reader, cell, source)?;
            return Ok(permitted);
        }
        Ok(!self.is_overtaken(overtaken, source))
    }

    /// The same for a transaction that wrote the cell, and may have been rolled back.
    fn permits_writer(
        &self,
        alloc: Global,
        history: &IndexedHistory,
        reader: Reader,
        cell: &Cell,
        overtaken: &Overtaken,
        source: u32,
    ) -> Result<bool, Memory>
        requires kept { AreRowsOf history.now.events self.now }
        requires reader { IsReader history.now.events reader }
        requires overtaken { AreOvertaken history.now.events self.now.reach.pairs reader cell.now overtaken.now }
        requires some { 0 < source }
        requires begun { source ≤ begun history.now.events }
        requires wrote { HasWritten history.now.events source cell.now }
        ensures { IfOk result (λ permitted. IsTrue permitted ↔ IsPermitted history.now.events reader.session cell.now source) }
    {
        if !is_committed(history.history(), source) {
            return Ok(false);
        }
        let permitted = self.permits(alloc, history, reader, cell, overtaken, source)?;
        Ok(permitted)
    }

    /// The initial transaction, where it is permitted.
    fn first_permitted(
        &self,
        alloc: Global,
        history: &IndexedHistory,
        reader: Reader,
        cell: &Cell,
        overtaken: &Overtaken,
    ) -> Result<Vec<u32>, Memory>
        requires kept { AreRowsOf history.now.events self.now }
        requires reader { IsReader history.now.events reader }
        requires overtaken { AreOvertaken history.now.events self.now.reach.pairs reader cell.now overtaken.now }
        ensures { (writers : List ℕ) → IfOk result (λ offer. IsOfferAmong history.now.events reader.session cell.now writers 0 offer.items) }
    {
        let mut offer = Vec::new(alloc);
        let initial = self.permits(alloc, history, reader, cell, overtaken, 0)?;
        if initial {
            offer.push(0)?;
        }
        Ok(offer)
    }

    /// The permitted ones of the initial transaction and the writers of the cell, ascending.
    fn permitted(
        &self,
        alloc: Global,
        history: &IndexedHistory,
        reader: Reader,
        cell: &Cell,
        overtaken: &Overtaken,
        writers: &[u32],
    ) -> Result<Vec<u32>, Memory>
        requires kept { AreRowsOf history.now.events self.now }
        requires reader { IsReader history.now.events reader }
        requires overtaken { AreOvertaken history.now.events self.now.reach.pairs reader cell.now overtaken.now }
        requires writers { ListsWriters history.now.events cell.now writers.now }
        ensures { IfOk result (λ offer. IsOffer history.now.events reader.session cell.now offer.items) }
    {
        let mut offer = self.first_permitted(alloc, history, reader, cell, overtaken)?;
        for writer in writers {
            let yes = self.permits_writer(alloc, history, reader, cell, overtaken, *writer)?;
            if yes {
                offer.push(*writer)?;
            }
        }
        Ok(offer)
    }

    /// The writes that the reader may see next, ascending.
    pub(crate) fn offer_for(
        &self,
        alloc: Global,
        history: &IndexedHistory,
        reader: Reader,
        cell: &Cell,
        writers: &[u32],
    ) -> Result<Vec<u32>, Memory>
        requires kept { AreRowsOf history.now.events self.now }
        requires reader { IsReader history.now.events reader }
        requires writers { ListsWriters history.now.events cell.now writers.now }
        ensures { IfOk result (λ offer. IsOffer history.now.events reader.session cell.now offer.items) }
    {
        let overtaken = self.overtaken(alloc, history.history(), reader, cell, writers)?;
        let offer = self.permitted(alloc, history, reader, cell, &overtaken, writers)?;
        Ok(offer)
    }
}
