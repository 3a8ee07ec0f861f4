// The stars of a further read.
ghost use Rattle.std.specs.Prelude.{◌≡◌, ◌≤◌, ◌↔◌, ℕ, Contains, IfOk, OnOk};
ghost use Rattle.history_core.specs.Events.{begun};
ghost use Rattle.history_core.specs.Relations.{Writes};
ghost use Rattle.indexed_history.specs.Writers.{ListsWriters};
ghost use Rattle.saturation.specs.Views.{source_of};
ghost use Rattle.forced_rows.specs.Rows.{AreRowsOf};
ghost use Rattle.forced_rows.specs.Sights.{IsReader, IsSeenLate};
ghost use Rattle.forced_rows.specs.Stars.{GainsEdges, IsLateDemand, IsDemandOfSome, IsLaterDemand, AreStarsFor};

use crate::ForcedRows;
use crate::reader::Reader;
use crate::sight::Sight;
use cell_base::{Cell, Memory};
use history_core::Seen;
use indexed_history::IndexedHistory;
use reach_rows::Star;
use std::alloc::Global;

/// The pairs that a further read demands, as stars.
#[derive(Debug, Drop)]
pub struct ReadStars {
    pub(crate) stars: Vec<Star>,
}

/// Adds the star of the members and the target, where there are members.
fn add_star(stars: &mut Vec<Star>, members: Vec<u32>, target: u32) -> Result<(), Memory>
    ensures { OnOk result (GainsEdges (λ a b. Contains members.items a × (b ≡ target)) stars.old.items stars.new.items) }
{
    if members.is_empty() {
        return Ok(());
    }
    stars.push(Star { members, target })?;
    Ok(())
}

/// The transaction from which it was seen.
fn target_of(seen: &Seen) -> u32
    ensures { result ≡ source_of seen.now }
{
    match seen {
        Seen::Read { source, .. } => *source,
        Seen::Scan { .. } => 0,
    }
}

impl ForcedRows {
    /// The writers that an earlier read or scan sees late: only with a further read from the source.
    fn late_to(
        &self,
        alloc: Global,
        history: &IndexedHistory,
        reader: Reader,
        source: u32,
        seen: &Seen,
    ) -> Result<Vec<u32>, Memory>
        requires kept { AreRowsOf history.now.events self.now }
        requires reader { IsReader history.now.events reader }
        requires source { source ≤ begun history.now.events }
        ensures { IfOk result (λ numbers. (n : ℕ) → Contains numbers.items n ↔ IsSeenLate history.now.events reader source seen.now n) }
    {
        match seen {
            Seen::Read {
                cell,
                source: from,
                ..
            } => {
                let late = self.rivals(alloc, history, reader, cell, Sight::Newly(source), *from)?;
                Ok(late)
            }
            Seen::Scan { table, keys, .. } => {
                let keys = keys.as_slice();
                let late = self.late_to_scan(
                    alloc,
                    history.history(),
                    reader,
                    source,
                    *table,
                    keys,
                )?;
                Ok(late)
            }
        }
    }

    /// Adds the star of what an earlier read or scan sees late.
    fn add_late(
        &self,
        alloc: Global,
        history: &IndexedHistory,
        reader: Reader,
        source: u32,
        seen: &Seen,
        stars: &mut Vec<Star>,
    ) -> Result<(), Memory>
        requires kept { AreRowsOf history.now.events self.now }
        requires reader { IsReader history.now.events reader }
        requires source { source ≤ begun history.now.events }
        ensures { OnOk result (GainsEdges (IsLateDemand history.now.events reader source seen.now) stars.old.items stars.new.items) }
    {
        let members = self.late_to(alloc, history, reader, source, seen)?;
        add_star(stars, members, target_of(seen))?;
        Ok(())
    }

    /// Adds the stars of what these reads and scans see late.
    fn add_all_late(
        &self,
        alloc: Global,
        history: &IndexedHistory,
        reader: Reader,
        source: u32,
        all: &[Seen],
        stars: &mut Vec<Star>,
    ) -> Result<(), Memory>
        requires kept { AreRowsOf history.now.events self.now }
        requires reader { IsReader history.now.events reader }
        requires source { source ≤ begun history.now.events }
        ensures { OnOk result (GainsEdges (IsDemandOfSome history.now.events reader source all.now) stars.old.items stars.new.items) }
    {
        for seen in all {
            self.add_late(alloc, history, reader, source, seen, stars)?;
        }
        Ok(())
    }

    /// Adds the stars of what the reader sees late with a further read from the source. Only where that brings news are the earlier reads looked
    /// at.
    fn add_later(
        &self,
        alloc: Global,
        history: &IndexedHistory,
        reader: Reader,
        source: u32,
        stars: &mut Vec<Star>,
    ) -> Result<(), Memory>
        requires kept { AreRowsOf history.now.events self.now }
        requires reader { IsReader history.now.events reader }
        requires source { source ≤ begun history.now.events }
        ensures { OnOk result (GainsEdges (IsLaterDemand history.now.events reader source) stars.old.items stars.new.items) }
    {
        if !self.brings_news(history.history(), reader, source) {
            return Ok(());
        }
        let txn = history.history().txn(reader.number);
        self.add_all_late(alloc, history, reader, source, txn.seen.as_slice(), stars)?;
        Ok(())
    }

    /// The stars of a further read of the reader.
    pub(crate) fn stars_for(
        &self,
        alloc: Global,
        history: &IndexedHistory,
        reader: Reader,
        cell: &Cell,
        source: u32,
        writers: &[u32],
    ) -> Result<ReadStars, Memory>
        requires kept { AreRowsOf history.now.events self.now }
        requires reader { IsReader history.now.events reader }
        requires writes { Writes history.now.events source cell.now }
        requires writers { ListsWriters history.now.events cell.now writers.now }
        ensures { IfOk result (λ stars. AreStarsFor reader.level history.now.events reader.number cell.now source stars.stars.items) }
    {
        let own = history.history();
        let _events = own.events();
        let sight = Sight::With(source);
        let members = self.rivals_among(alloc, own, reader, cell, sight, source, writers)?;
        let mut stars = Vec::new(alloc);
        add_star(&mut stars, members, source)?;
        self.add_later(alloc, history, reader, source, &mut stars)?;
        Ok(ReadStars { stars })
    }
}
