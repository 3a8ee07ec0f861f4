// The committed writers of each cell.
ghost use Rattle.std.specs.Prelude.{◌≡◌, ◌≤◌, ◌<◌, ◌+◌, ℕ, Some, IfOk, OnOk, length, slice_get, get_or};
ghost use Rattle.std.specs.List.Sorted.{IsStrictlyIncreasing};
ghost use Rattle.cycle_report.specs.Listed.{ListWriters};

use crate::rivals::is_committed;
use cell_base::Memory;
use cell_writers::{CellWriters, new_writers, note_writes};
use history_core::Txn;
use std::alloc::Global;

/// Lists one transaction more, where it has committed. `_txns` are all transactions.
fn list_txn(
    writers: &mut CellWriters,
    _txns: &[Txn],
    at: usize,
    txn: &Txn,
    number: u32,
) -> Result<(), Memory>
    requires writers { ListWriters _txns.now at writers.old }
    requires is { slice_get _txns.now at ≡ Some txn.now }
    requires number { number ≡ at + 1 }
    ensures { OnOk result (ListWriters _txns.now (at + 1) writers.new) }
{
    if !is_committed(txn) {
        return Ok(());
    }
    note_writes(writers, txn.buffer.writes(), number)
}

/// The committed writers of each cell.
pub fn writers_of(alloc: Global, txns: &[Txn]) -> Result<CellWriters, Memory>
    requires { length txns.now < 4294967296 }
    ensures { IfOk result (ListWriters txns.now (length txns.now)) }
{
    let mut writers = new_writers(alloc);
    for at in 0..txns.len() {
        list_txn(&mut writers, txns, at, &txns[at], at as u32 + 1)?;
    }
    Ok(writers)
}

/// The number at the place.
pub fn number_at(numbers: &[u32], place: usize) -> u32
    requires { place < length numbers.now }
    ensures { slice_get numbers.now place ≡ Some result }
{
    numbers[place]
}

/// A place from which on all numbers are looked at that are above the limit: those before it aren't.
pub fn first_from(numbers: &[u32], limit: u32) -> usize
    requires { IsStrictlyIncreasing numbers.now }
    ensures { (at : ℕ) → at < result → get_or numbers.now at 0 ≤ limit }
{
    match numbers.binary_search(&limit) {
        Ok(at) => at,
        Err(at) => at,
    }
}
