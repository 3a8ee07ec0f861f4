// Which writers an earlier scan sees late: those of rows that it didn't list.
ghost use Rattle.std.specs.Prelude.{◌≡◌, ◌<◌, ◌≤◌, ◌↔◌, ℕ, Any, Contains, IsTrue, IfOk};
ghost use Rattle.history_core.specs.declared.txn.Seen.{Seen};
ghost use Rattle.history_core.specs.Events.{begun};
ghost use Rattle.saturation.specs.Views.{IsUnlisted, IsRival};
ghost use Rattle.forced_rows.specs.Rows.{AreRowsOf};
ghost use Rattle.forced_rows.specs.Sights.{IsReader, IsSeenLate};

use crate::ForcedRows;
use crate::reader::Reader;
use crate::sight::{Sight, is_committed};
use cell_base::{Cell, Key, Memory};
use history_core::{History, Txn};
use std::alloc::Global;

/// Whether the key is listed.
fn contains_key(keys: &[Key], key: &Key) -> bool
    ensures { IsTrue result ↔ Contains keys.now key.now }
{
    keys.iter().any(|own| own.is_same(key))
}

/// Whether the cell is the presence of a key that the scan of the table doesn't list.
fn is_unlisted(table: u32, keys: &[Key], cell: &Cell) -> bool
    ensures { IsTrue result ↔ IsUnlisted table keys.now cell.now }
{
    match cell {
        Cell::Presence(of_table, key) => *of_table == table && !contains_key(keys, key),
        Cell::Field(_, _, _) => false,
    }
}

/// Whether the transaction wrote a cell that the scan of the table doesn't list.
fn writes_unlisted(txn: &Txn, table: u32, keys: &[Key]) -> bool
    ensures { IsTrue result ↔ Any (λ entry. IsUnlisted table keys.now entry.0) txn.now.buffer.writes }
{
    txn.buffer
        .writes()
        .iter()
        .any(|entry| is_unlisted(table, keys, &entry.0))
}

/// Whether the transaction has committed and wrote a cell that the scan of the table doesn't list.
fn breaks_scan(history: &History, number: u32, table: u32, keys: &[Key]) -> bool
    requires some { 0 < number }
    requires begun { number ≤ begun history.now.events }
    ensures { (at : ℕ) → IsTrue result ↔ IsRival history.now.events (Seen.Scan at table keys.now) number }
{
    is_committed(history, number) && writes_unlisted(history.txn(number), table, keys)
}

impl ForcedRows {
    /// Whether the scan of the table sees the transaction late: it sees it only with a further read from the source.
    fn is_late(
        &self,
        history: &History,
        reader: Reader,
        source: u32,
        number: u32,
        table: u32,
        keys: &[Key],
    ) -> bool
        requires kept { AreRowsOf history.now.events self.now }
        requires reader { IsReader history.now.events reader }
        requires source { source ≤ begun history.now.events }
        requires some { 0 < number }
        requires begun { number ≤ begun history.now.events }
        ensures { (at : ℕ) → IsTrue result ↔ IsSeenLate history.now.events reader source (Seen.Scan at table keys.now) number }
    {
        self.is_in_sight(history, reader, Sight::Newly(source), number)
            && breaks_scan(history, number, table, keys)
    }

    /// The transactions that a scan of the table sees late. No row has them by their writes, so this passes over all transactions, by a bit test
    /// or two for each that the source doesn't see.
    pub(crate) fn late_to_scan(
        &self,
        alloc: Global,
        history: &History,
        reader: Reader,
        source: u32,
        table: u32,
        keys: &[Key],
    ) -> Result<Vec<u32>, Memory>
        requires kept { AreRowsOf history.now.events self.now }
        requires reader { IsReader history.now.events reader }
        requires source { source ≤ begun history.now.events }
        ensures { IfOk result (λ numbers. (at n : ℕ) → Contains numbers.items n ↔ IsSeenLate history.now.events reader source (Seen.Scan at table keys.now) n) }
    {
        let mut numbers = Vec::new(alloc);
        for number in 1..history.begun() + 1 {
            if self.is_late(history, reader, source, number, table, keys) {
                numbers.push(number)?;
            }
        }
        Ok(numbers)
    }
}
