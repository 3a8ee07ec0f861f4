// Which writers a pending transaction sees, by bit tests.
ghost use Rattle.std.specs.Prelude.{◌≡◌, ◌≢◌, ◌<◌, ◌≤◌, ◌↔◌, ℕ, false, length, IsTrue, IfOk};
ghost use Rattle.history_core.specs.Events.{begun};
ghost use Rattle.history_core.specs.Transactions.{IsCommitted};
ghost use Rattle.history_core.specs.Relations.{IsSessionOrdered, Precedes};
ghost use Rattle.indexed_history.specs.Writers.{ListsWriters};
ghost use Rattle.further_reads.specs.Further.{Sees, SeesWith};
ghost use Rattle.forced_rows.specs.Rows.{AreRowsOf};
ghost use Rattle.forced_rows.specs.Sights.{IsReader, Brings, IsInSight, IsOfBegun, AreBegun, Counts, AreCounted, AreRivals};

use crate::ForcedRows;
use crate::reader::Reader;
use crate::seats::has_source;
use cell_base::{Cell, Level, Memory};
use history_core::{History, TxnState};
use indexed_history::IndexedHistory;
use std::alloc::Global;

/// Which writers count.
#[derive(Clone, Copy, Debug)]
pub enum Sight {
    /// Those that the reads so far let the transaction see.
    SoFar,
    /// Those that it sees with a further read from this source.
    With(u32),
    /// Those that it sees with a further read from this source, and not without.
    Newly(u32),
}

/// Whether the transaction has committed.
pub fn is_committed(history: &History, number: u32) -> bool
    requires some { 0 < number }
    requires begun { number ≤ begun history.now.events }
    ensures { IsTrue result ↔ IsCommitted history.now.events number }
{
    matches!(history.txn(number).state, TxnState::Committed)
}

/// Whether the transaction is an earlier one of the reader's session.
fn is_earlier(history: &History, reader: Reader, number: u32) -> bool
    requires reader { IsReader history.now.events reader }
    requires some { 0 < number }
    requires begun { number ≤ begun history.now.events }
    ensures { IsTrue result ↔ IsSessionOrdered history.now.events number reader.number }
{
    number < reader.number && history.txn(number).session == reader.session
}

impl ForcedRows {
    /// Whether the transaction precedes the reader.
    fn precedes(&self, history: &History, reader: Reader, number: u32) -> bool
        requires kept { AreRowsOf history.now.events self.now }
        requires reader { IsReader history.now.events reader }
        requires some { 0 < number }
        requires begun { number ≤ begun history.now.events }
        ensures { IsTrue result ↔ Precedes history.now.events number reader.number }
    {
        let _begun = history.begun();
        has_source(&self.seats, reader.session, number) || is_earlier(history, reader, number)
    }

    /// Whether the reads so far let the reader see the transaction.
    fn sees(&self, history: &History, reader: Reader, number: u32) -> bool
        requires kept { AreRowsOf history.now.events self.now }
        requires reader { IsReader history.now.events reader }
        requires some { 0 < number }
        requires begun { number ≤ begun history.now.events }
        ensures { IsTrue result ↔ Sees reader.level history.now.events reader.number number }
    {
        let _begun = history.begun();
        match reader.level {
            Level::Rc => has_source(&self.seats, reader.session, number),
            Level::Ra => self.precedes(history, reader, number),
            Level::Cc => self.past.reaches(number, reader.number),
        }
    }

    /// Whether a further read from the source lets a transaction of the level see the other one by the source itself.
    fn brings(&self, history: &History, level: Level, source: u32, number: u32) -> bool
        requires kept { AreRowsOf history.now.events self.now }
        requires source { source ≤ begun history.now.events }
        requires begun { number ≤ begun history.now.events }
        ensures { IsTrue result ↔ Brings level history.now.events source number }
    {
        match level {
            Level::Rc => false,
            Level::Ra => number == source,
            Level::Cc => number == source || self.past.reaches(number, source),
        }
    }

    /// Whether the transaction is in the reader's sight.
    pub(crate) fn is_in_sight(
        &self,
        history: &History,
        reader: Reader,
        sight: Sight,
        number: u32,
    ) -> bool
        requires kept { AreRowsOf history.now.events self.now }
        requires reader { IsReader history.now.events reader }
        requires sources { IsOfBegun (begun history.now.events) sight }
        requires some { 0 < number }
        requires begun { number ≤ begun history.now.events }
        ensures { IsTrue result ↔ IsInSight sight history.now.events reader number }
    {
        match sight {
            Sight::SoFar => self.sees(history, reader, number),
            Sight::With(source) => {
                self.sees(history, reader, number)
                    || self.brings(history, reader.level, source, number)
            }
            Sight::Newly(source) => {
                self.brings(history, reader.level, source, number)
                    && !self.sees(history, reader, number)
            }
        }
    }

    /// Whether a further read from the source may let the reader see more than the source's own writes.
    pub(crate) fn brings_news(&self, history: &History, reader: Reader, source: u32) -> bool
        requires kept { AreRowsOf history.now.events self.now }
        requires reader { IsReader history.now.events reader }
        requires source { source ≤ begun history.now.events }
        ensures { (result ≡ false) → (n : ℕ) → SeesWith reader.level history.now.events reader.number source n → Sees reader.level history.now.events reader.number n }
    {
        match reader.level {
            Level::Rc => false,
            Level::Ra => source != 0 && !self.sees(history, reader, source),
            Level::Cc => source != 0 && !self.sees(history, reader, source),
        }
    }

    /// Whether the transaction counts among the writers of a cell that it wrote.
    pub(crate) fn counts(
        &self,
        history: &History,
        reader: Reader,
        sight: Sight,
        except: u32,
        number: u32,
    ) -> bool
        requires kept { AreRowsOf history.now.events self.now }
        requires reader { IsReader history.now.events reader }
        requires sources { IsOfBegun (begun history.now.events) sight }
        requires some { 0 < number }
        requires begun { number ≤ begun history.now.events }
        ensures { IsTrue result ↔ Counts sight history.now.events reader except number }
    {
        number != except
            && self.is_in_sight(history, reader, sight, number)
            && is_committed(history, number)
    }

    /// Those of the writers that count.
    fn counted(
        &self,
        alloc: Global,
        history: &History,
        reader: Reader,
        sight: Sight,
        except: u32,
        writers: &[u32],
    ) -> Result<Vec<u32>, Memory>
        requires kept { AreRowsOf history.now.events self.now }
        requires reader { IsReader history.now.events reader }
        requires sources { IsOfBegun (begun history.now.events) sight }
        requires writers { AreBegun (begun history.now.events) writers.now }
        ensures { IfOk result (λ numbers. AreCounted sight history.now.events reader except writers.now (length writers.now) numbers.items) }
    {
        let mut numbers = Vec::new(alloc);
        for number in writers {
            if self.counts(history, reader, sight, except, *number) {
                numbers.push(*number)?;
            }
        }
        Ok(numbers)
    }

    /// Those of the writers of the cell, but the initial transaction and one more, that are in the reader's sight.
    pub(crate) fn rivals_among(
        &self,
        alloc: Global,
        history: &History,
        reader: Reader,
        cell: &Cell,
        sight: Sight,
        except: u32,
        writers: &[u32],
    ) -> Result<Vec<u32>, Memory>
        requires kept { AreRowsOf history.now.events self.now }
        requires reader { IsReader history.now.events reader }
        requires sources { IsOfBegun (begun history.now.events) sight }
        requires writers { ListsWriters history.now.events cell.now writers.now }
        ensures { IfOk result (λ numbers. AreRivals sight history.now.events reader cell.now except numbers.items) }
    {
        let numbers = self.counted(alloc, history, reader, sight, except, writers)?;
        Ok(numbers)
    }

    /// The writers of the cell, but the initial transaction and one more, that are in the reader's sight.
    pub(crate) fn rivals(
        &self,
        alloc: Global,
        history: &IndexedHistory,
        reader: Reader,
        cell: &Cell,
        sight: Sight,
        except: u32,
    ) -> Result<Vec<u32>, Memory>
        requires kept { AreRowsOf history.now.events self.now }
        requires reader { IsReader history.now.events reader }
        requires sources { IsOfBegun (begun history.now.events) sight }
        ensures { IfOk result (λ numbers. AreRivals sight history.now.events reader cell.now except numbers.items) }
    {
        let writers = history.writers(cell);
        let own = history.history();
        let numbers = self.rivals_among(alloc, own, reader, cell, sight, except, writers)?;
        Ok(numbers)
    }
}
