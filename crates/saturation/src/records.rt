// Tests on the records of transactions.
ghost use Rattle.std.specs.Prelude.{◌≡◌, ◌<◌, ◌↔◌, ℕ, Contains, Any, IsTrue};
ghost use Rattle.saturation.specs.Views.{IsUnlisted, Shows, ShowsOneOf, WritesCell, IsReadFrom, number_of, source_of};

use cell_base::{Cell, Key};
use history_core::{Seen, Txn, TxnState};
use txn_buffer::TxnBuffer;

/// Whether the key is listed.
fn contains_key(keys: &[Key], key: &Key) -> bool
    ensures { IsTrue result ↔ Contains keys.now key.now }
{
    keys.iter().any(|own| own.is_same(key))
}

/// Whether the cell is the presence of a key that the scan of the table doesn't list.
fn is_unlisted(table: u32, keys: &[Key], cell: &Cell) -> bool
    ensures { IsTrue result ↔ IsUnlisted table keys.now cell.now }
{
    match cell {
        Cell::Presence(of_table, key) => *of_table == table && !contains_key(keys, key),
        Cell::Field(_, _, _) => false,
    }
}

/// Whether the cell is one that was seen.
fn shows(seen: &Seen, cell: &Cell) -> bool
    ensures { IsTrue result ↔ Shows seen.now cell.now }
{
    match seen {
        Seen::Read { cell: own, .. } => own.is_same(cell),
        Seen::Scan { table, keys, .. } => is_unlisted(*table, keys.as_slice(), cell),
    }
}

/// Whether the buffer holds a cell that was seen.
pub fn shows_one_of(seen: &Seen, buffer: &TxnBuffer) -> bool
    ensures { IsTrue result ↔ ShowsOneOf seen.now buffer.now.writes }
{
    buffer.writes().iter().any(|entry| shows(seen, &entry.0))
}

/// Whether the buffer holds the cell.
pub fn writes_cell(buffer: &TxnBuffer, cell: &Cell) -> bool
    ensures { IsTrue result ↔ WritesCell buffer.now.writes cell.now }
{
    match buffer.get(cell) {
        Some(_) => true,
        None => false,
    }
}

/// The number of the event that showed it.
pub fn number(seen: &Seen) -> u32
    ensures { result ≡ number_of seen.now }
{
    match seen {
        Seen::Read { number, .. } => *number,
        Seen::Scan { number, .. } => *number,
    }
}

/// The transaction whose writes were seen.
pub fn source(seen: &Seen) -> u32
    ensures { result ≡ source_of seen.now }
{
    match seen {
        Seen::Read { source, .. } => *source,
        Seen::Scan { .. } => 0,
    }
}

/// Whether what was seen is a read of a cell from the source.
fn is_read_from(seen: &Seen, source: u32) -> bool
    ensures { IsTrue result ↔ IsReadFrom seen.now source }
{
    match seen {
        Seen::Read { source: from, .. } => *from == source,
        Seen::Scan { .. } => false,
    }
}

/// Whether the source was read before the event of the number.
pub fn has_read_before(all: &[Seen], before: u32, source: u32) -> bool
    ensures { IsTrue result ↔ Any (λ s. (number_of s < before) × IsReadFrom s source) all.now }
{
    all.iter()
        .any(|seen| number(seen) < before && is_read_from(seen, source))
}

/// Whether the reader has read a cell from the source.
pub fn reads_from(reader: &Txn, source: u32) -> bool
    ensures { IsTrue result ↔ Any (λ s. IsReadFrom s source) reader.now.seen }
{
    reader
        .seen
        .as_slice()
        .iter()
        .any(|seen| is_read_from(seen, source))
}

/// Whether the transaction has committed.
pub fn is_committed(txn: &Txn) -> bool
    ensures { IsTrue result ↔ (txn.now.state ≡ TxnState.Committed) }
{
    match txn.state {
        TxnState::Committed => true,
        TxnState::Pending => false,
        TxnState::RolledBack => false,
    }
}
