// The committed writers of each cell, session by session.
ghost use Rattle.std.specs.Prelude.{◌≡◌, ◌≤◌, ◌<◌, ◌+◌, ℕ, Some, IfOk, OnOk, IfSome, IfNone, Contains, length, slice_get};
ghost use Rattle.cell_writers.specs.declared.writers.CellWriters.{CellWriters as WritersOf};
ghost use Rattle.cell_writers.specs.Writers.{AreAscending, IsLastUpTo};
ghost use Rattle.history_core.specs.Kept.{ChangesOne};
ghost use Rattle.order_test.specs.Listed.{AreAllAscending, AreEmpty, AreTxnsWithin, ListsCommitted, NotesWrites, listed_at};
ghost use Rattle.order_test.specs.Firsts.{AreWithoutKeys, AreIndexes, AreUpTo, NotesFirsts};

use crate::firsts::{TableFirsts, new_firsts, note_firsts};
use crate::rivals::is_committed;
use cell_base::{Cell, Memory, Value};
use cell_writers::{CellWriters, last_writer, new_writers, note_writes};
use history_core::Txn;
use std::alloc::Global;

/// The committed writers of each cell, and the keys of the presences that they wrote, session by session.
#[derive(Debug, Drop)]
pub struct Lists {
    pub writers: Vec<CellWriters>,
    pub firsts: Vec<TableFirsts>,
}

/// Nothing is listed in so many sessions.
fn no_writers(alloc: Global, width: usize) -> Result<Vec<CellWriters>, Memory>
    ensures width { IfOk result (λ lists. length lists.items ≡ width) }
    ensures empty { IfOk result (λ lists. AreEmpty lists.items) }
{
    let mut lists = Vec::with_capacity(alloc, width)?;
    for _at in 0..width {
        lists.push(new_writers(alloc))?;
    }
    Ok(lists)
}

/// No key in so many sessions.
fn no_firsts(alloc: Global, width: usize) -> Result<Vec<TableFirsts>, Memory>
    ensures width { IfOk result (λ all. length all.items ≡ width) }
    ensures empty { IfOk result (λ all. AreWithoutKeys all.items) }
{
    let mut all = Vec::with_capacity(alloc, width)?;
    for _at in 0..width {
        all.push(new_firsts(alloc))?;
    }
    Ok(all)
}

/// Notes in the session the presences that a transaction wrote.
fn note_presences(
    firsts: &mut Vec<TableFirsts>,
    lists: &[CellWriters],
    session: u32,
    writes: &[(Cell, Value)],
    number: u32,
) -> Result<(), Memory>
    requires count { length firsts.old.items ≡ length lists.now }
    requires within { session < length lists.now }
    requires indexes { AreIndexes lists.now number firsts.old.items }
    requires up { (writers : WritersOf) → slice_get lists.now session ≡ Some writers → AreUpTo writers number }
    ensures { OnOk result (ChangesOne firsts.old.items firsts.new.items session (NotesFirsts writes.now number)) }
{
    let tables = &mut firsts[session as usize];
    note_firsts(tables, &lists[session as usize], writes, number)?;
    Ok(())
}

/// Notes in the session a transaction at the cells that it wrote.
fn note_session(
    lists: &mut Vec<CellWriters>,
    session: u32,
    writes: &[(Cell, Value)],
    number: u32,
) -> Result<(), Memory>
    requires within { session < length lists.old.items }
    requires ascending { (writers : WritersOf) → slice_get lists.old.items session ≡ Some writers → AreAscending writers }
    ensures { OnOk result (ChangesOne lists.old.items lists.new.items session (NotesWrites writes.now number)) }
{
    let writers = &mut lists[session as usize];
    note_writes(writers, writes, number)?;
    Ok(())
}

/// Lists one transaction more, where it has committed. `_txns` are all transactions.
fn list_txn(
    lists: &mut Vec<CellWriters>,
    firsts: &mut Vec<TableFirsts>,
    _txns: &[Txn],
    at: usize,
    txn: &Txn,
    number: u32,
) -> Result<(), Memory>
    requires lists { ListsCommitted _txns.now at lists.old.items }
    requires firsts { AreIndexes lists.old.items at firsts.old.items }
    requires is { slice_get _txns.now at ≡ Some txn.now }
    requires number { number ≡ at + 1 }
    requires within { txn.now.session < length lists.old.items }
    ensures lists { OnOk result (ListsCommitted _txns.now (at + 1) lists.new.items) }
    ensures firsts { OnOk result (AreIndexes lists.new.items (at + 1) firsts.new.items) }
    ensures width { OnOk result (length lists.new.items ≡ length lists.old.items) }
{
    if !is_committed(txn) {
        return Ok(());
    }
    let written = txn.buffer.writes();
    note_presences(firsts, lists, txn.session, written, number)?;
    note_session(lists, txn.session, written, number)
}

/// The committed writers of each cell. All sessions are below the width.
pub fn lists_of(alloc: Global, txns: &[Txn], width: usize) -> Result<Lists, Memory>
    requires within { AreTxnsWithin width txns.now }
    requires few { length txns.now < 4294967296 }
    ensures lists { IfOk result (λ lists. ListsCommitted txns.now (length txns.now) lists.writers.items) }
    ensures firsts { IfOk result (λ lists. AreIndexes lists.writers.items (length txns.now) lists.firsts.items) }
    ensures width { IfOk result (λ lists. length lists.writers.items ≡ width) }
{
    let mut writers = no_writers(alloc, width)?;
    let mut firsts = no_firsts(alloc, width)?;
    for at in 0..txns.len() {
        list_txn(
            &mut writers,
            &mut firsts,
            txns,
            at,
            &txns[at],
            at as u32 + 1,
        )?;
    }
    Ok(Lists { writers, firsts })
}

/// Of the numbers that are listed in the session at the cell the greatest up to the limit.
pub fn last_listed(lists: &[CellWriters], session: usize, cell: &Cell, limit: u32) -> Option<u32>
    requires ascending { AreAllAscending lists.now }
    requires within { session < length lists.now }
    ensures some { IfSome result (IsLastUpTo (listed_at lists.now session cell.now) limit) }
    ensures none { IfNone result ((other : ℕ) → Contains (listed_at lists.now session cell.now) other → ¬ (other ≤ limit)) }
{
    last_writer(&lists[session], cell, limit)
}
