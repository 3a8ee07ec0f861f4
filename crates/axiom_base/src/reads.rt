// What the records of transactions show of one read.
ghost use Rattle.std.specs.Prelude.{◌≡◌, ◌<◌, ◌≤◌, ◌↔◌, Any, Contains, IsTrue};
ghost use Rattle.history_core.specs.Events.{begun};
ghost use Rattle.saturation.specs.Views.{IsUnlisted, IsRival, number_of, source_of};
ghost use Rattle.axiom_base.specs.Sights.{WritesUnlisted};

use cell_base::{Cell, Key};
use history_core::{History, Seen, TxnState};
use saturation::is_writer;
use txn_buffer::TxnBuffer;

/// The number of the event that showed it.
pub fn number(seen: &Seen) -> u32
    ensures { result ≡ number_of seen.now }
{
    match seen {
        Seen::Read { number, .. } => *number,
        Seen::Scan { number, .. } => *number,
    }
}

/// The transaction whose writes it showed; a scan shows that the keys which it doesn't list aren't there from the start.
pub fn source(seen: &Seen) -> u32
    ensures { result ≡ source_of seen.now }
{
    match seen {
        Seen::Read { source, .. } => *source,
        Seen::Scan { .. } => 0,
    }
}

/// Whether the key is listed.
fn lists_key(keys: &[Key], key: &Key) -> bool
    ensures { IsTrue result ↔ Contains keys.now key.now }
{
    keys.iter().any(|listed| listed.is_same(key))
}

/// Whether the cell is the presence of a key that the scan of the table doesn't list.
fn is_unlisted(table: u32, keys: &[Key], cell: &Cell) -> bool
    ensures { IsTrue result ↔ IsUnlisted table keys.now cell.now }
{
    match cell {
        Cell::Presence(of_table, key) => *of_table == table && !lists_key(keys, key),
        Cell::Field(_, _, _) => false,
    }
}

/// Whether the buffer holds the presence of a key that the scan of the table doesn't list.
fn has_unlisted(buffer: &TxnBuffer, table: u32, keys: &[Key]) -> bool
    ensures { IsTrue result ↔ Any (λ entry. IsUnlisted table keys.now entry.0) buffer.now.writes }
{
    buffer
        .writes()
        .iter()
        .any(|entry| is_unlisted(table, keys, &entry.0))
}

/// Whether the transaction has committed.
fn is_committed(state: TxnState) -> bool
    ensures { IsTrue result ↔ (state ≡ TxnState.Committed) }
{
    match state {
        TxnState::Committed => true,
        TxnState::Pending => false,
        TxnState::RolledBack => false,
    }
}

/// Whether the transaction has committed, and writes the presence of a key that the scan of the table doesn't list.
fn writes_unlisted(history: &History, table: u32, keys: &[Key], writer: u32) -> bool
    requires some { 0 < writer }
    requires begun { writer ≤ begun history.now.events }
    ensures { IsTrue result ↔ WritesUnlisted history.now.events table keys.now writer }
{
    let txn = history.txn(writer);
    if !is_committed(txn.state) {
        return false;
    }
    has_unlisted(&txn.buffer, table, keys)
}

/// Whether the transaction, which isn't the source of the read, writes a cell that it gave.
pub fn is_rival(history: &History, seen: &Seen, writer: u32) -> bool
    requires { writer ≤ begun history.now.events }
    ensures { IsTrue result ↔ IsRival history.now.events seen.now writer }
{
    if writer == source(seen) {
        return false;
    }
    match seen {
        Seen::Read { cell, .. } => is_writer(history, writer, cell),
        Seen::Scan { table, keys, .. } => {
            writes_unlisted(history, *table, keys.as_slice(), writer)
        }
    }
}
