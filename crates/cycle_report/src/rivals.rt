// Which cell of a read another transaction writes.
ghost use Rattle.std.specs.Prelude.{◌≡◌, ◌≢◌, ◌≤◌, ◌<◌, ◌+◌, ◌↔◌, ℕ, IsTrue, IfSome, IfNone, Some, Contains, length, slice_get};
ghost use Rattle.std.specs.declared.cmp.Ordering.TheVariants.{Less};
ghost use Rattle.cell_base.specs.declared.cell.Cell.{Cell as CellOf};
ghost use Rattle.cell_base.specs.declared.value.Value.{Value as ValueOf};
ghost use Rattle.cell_base.specs.contracts.cell.CellOrd.TheImpl as cell_order;
ghost use Rattle.txn_buffer.specs.Buffer.{IsAbsent};
ghost use Rattle.saturation.specs.Views.{IsUnlisted};
ghost use Rattle.order_test.specs.Sights.{IsReading, origin_of, IsRivalCell, IsFirstRivalCell, IsFirstUnlisted, IsLeastUnlisted, IsLeastUpTo};

use cell_base::{Cell, Key, Value};
use history_core::{Event, Txn, TxnState};
use std::cmp::Ordering;

/// The transaction that a read is from; a scan reads from the initial one.
pub fn origin(event: &Event) -> u32
    ensures { result ≡ origin_of event.now }
{
    match event {
        Event::Read { source, .. } => *source,
        Event::Scan { .. } => 0,
        Event::Open { .. } => 0,
        Event::Close { .. } => 0,
        Event::Define { .. } => 0,
        Event::Look { .. } => 0,
        Event::Begin { .. } => 0,
        Event::Own { .. } => 0,
        Event::Write { .. } => 0,
        Event::Commit { .. } => 0,
        Event::Rollback { .. } => 0,
        Event::Show { .. } => 0,
    }
}

/// The transaction that a read is from, and the initial one for a scan. `None` where nothing is read.
pub fn source_of(event: &Event) -> Option<u32>
    ensures some { IfSome result (λ source. IsReading event.now × (source ≡ origin_of event.now)) }
    ensures none { IfNone result (¬ IsReading event.now) }
{
    match event {
        Event::Read { source, .. } => Some(*source),
        Event::Scan { .. } => Some(0),
        Event::Open { .. } => None,
        Event::Close { .. } => None,
        Event::Define { .. } => None,
        Event::Look { .. } => None,
        Event::Begin { .. } => None,
        Event::Own { .. } => None,
        Event::Write { .. } => None,
        Event::Commit { .. } => None,
        Event::Rollback { .. } => None,
        Event::Show { .. } => None,
    }
}

/// Whether the event is a read or a scan.
pub fn is_reading(event: &Event) -> bool
    ensures { IsTrue result ↔ IsReading event.now }
{
    match event {
        Event::Read { .. } => true,
        Event::Scan { .. } => true,
        Event::Open { .. } => false,
        Event::Close { .. } => false,
        Event::Define { .. } => false,
        Event::Look { .. } => false,
        Event::Begin { .. } => false,
        Event::Own { .. } => false,
        Event::Write { .. } => false,
        Event::Commit { .. } => false,
        Event::Rollback { .. } => false,
        Event::Show { .. } => false,
    }
}

/// Whether the transaction has committed.
pub fn is_committed(txn: &Txn) -> bool
    ensures { IsTrue result ↔ (txn.now.state ≡ TxnState.Committed) }
{
    match txn.state {
        TxnState::Committed => true,
        TxnState::Pending => false,
        TxnState::RolledBack => false,
    }
}

/// The cell, where the transaction has written it.
fn written<'a>(cell: &'a Cell, writer: &Txn) -> Option<&'a Cell>
    ensures same { IfSome result (λ found. found.now ≡ cell.now) }
    ensures some { IfSome result (λ found. (value : ValueOf) × Contains writer.now.buffer.writes (cell.now, value)) }
    ensures none { IfNone result (IsAbsent writer.now.buffer.writes cell.now) }
{
    match writer.buffer.get(cell) {
        Some(_value) => Some(cell),
        None => None,
    }
}

/// Whether a search among keys that ascend finds the key.
fn is_found(keys: &[Key], key: &Key) -> bool
    ensures { IsTrue result → Contains keys.now key.now }
{
    match keys.binary_search(key) {
        Ok(at) => keys[at].is_same(key),
        Err(_at) => false,
    }
}

/// Whether the key is listed. Keys of a right history ascend, so that a search finds it at once.
pub fn contains_key(keys: &[Key], key: &Key) -> bool
    ensures { IsTrue result ↔ Contains keys.now key.now }
{
    if is_found(keys, key) {
        return true;
    }
    keys.iter().any(|own| own.is_same(key))
}

/// Whether the cell is the presence of a key that the scan of the table doesn't list.
fn is_unlisted(table: u32, keys: &[Key], cell: &Cell) -> bool
    ensures { IsTrue result ↔ IsUnlisted table keys.now cell.now }
{
    match cell {
        Cell::Presence(of_table, key) => *of_table == table && !contains_key(keys, key),
        Cell::Field(_table, _key, _column) => false,
    }
}

/// Whether the one cell is below the other.
fn is_below(first: &Cell, second: &Cell) -> bool
    ensures { IsTrue result ↔ ((cell_order.ghosts).cmp first.now second.now ≡ Less) }
{
    first.cmp(second) == Ordering::Less
}

/// The least of the places up to the next one.
fn lesser(
    table: u32,
    keys: &[Key],
    writes: &[(Cell, Value)],
    least: Option<usize>,
    at: usize,
) -> Option<usize>
    requires within { at < length writes.now }
    requires least { IsLeastUpTo table keys.now writes.now at least }
    ensures { IsLeastUpTo table keys.now writes.now (at + 1) result }
{
    if !is_unlisted(table, keys, &writes[at].0) {
        return least;
    }
    match least {
        None => Some(at),
        Some(best) => least_of(table, keys, writes, best, at),
    }
}

/// The one of the two places where the lesser cell stands.
fn least_of(
    table: u32,
    keys: &[Key],
    writes: &[(Cell, Value)],
    best: usize,
    at: usize,
) -> Option<usize>
    requires within { at < length writes.now }
    requires best_within { best < length writes.now }
    requires best { IsLeastUnlisted table keys.now writes.now at best }
    requires unlisted { (entry : CellOf × ValueOf) → slice_get writes.now at ≡ Some entry → IsUnlisted table keys.now entry.0 }
    ensures { IsLeastUpTo table keys.now writes.now (at + 1) result }
{
    if is_below(&writes[at].0, &writes[best].0) {
        Some(at)
    } else {
        Some(best)
    }
}

/// The place of the least presence among the writes that the scan of the table doesn't list.
fn least_unlisted(table: u32, keys: &[Key], writes: &[(Cell, Value)]) -> Option<usize>
    ensures { IsLeastUpTo table keys.now writes.now (length writes.now) result }
{
    let mut least = None;
    for at in 0..writes.len() {
        least = lesser(table, keys, writes, least, at);
    }
    least
}

/// The least presence among the writes that the scan of the table doesn't list.
fn first_unlisted<'a>(table: u32, keys: &[Key], writes: &'a [(Cell, Value)]) -> Option<&'a Cell>
    ensures some { IfSome result (λ cell. IsFirstUnlisted table keys.now writes.now cell.now) }
    ensures none { IfNone result ((cell : CellOf) (value : ValueOf) → Contains writes.now (cell, value) → ¬ IsUnlisted table keys.now cell) }
{
    match least_unlisted(table, keys, writes) {
        Some(at) => Some(&writes[at].0),
        None => None,
    }
}

/// The least cell that the event reads and the transaction writes.
pub fn rival_cell<'a>(event: &'a Event, writer: &'a Txn) -> Option<&'a Cell>
    ensures some { IfSome result (λ cell. IsFirstRivalCell event.now writer.now.buffer.writes cell.now) }
    ensures none { IfNone result ((cell : CellOf) → ¬ IsRivalCell event.now writer.now.buffer.writes cell) }
{
    match event {
        Event::Read { cell, .. } => written(cell, writer),
        Event::Scan { table, keys, .. } => {
            first_unlisted(*table, keys.as_slice(), writer.buffer.writes())
        }
        Event::Open { .. } => None,
        Event::Close { .. } => None,
        Event::Define { .. } => None,
        Event::Look { .. } => None,
        Event::Begin { .. } => None,
        Event::Own { .. } => None,
        Event::Write { .. } => None,
        Event::Commit { .. } => None,
        Event::Rollback { .. } => None,
        Event::Show { .. } => None,
    }
}
