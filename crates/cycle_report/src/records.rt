// The records of the transactions, made from the events.
ghost use Rattle.std.specs.Prelude.{◌≡◌, ◌<◌, ◌+◌, ◌∷◌, ◌++◌, [], Some, None, length, OnOk, IfOk};
ghost use Rattle.txn_buffer.specs.Buffer.{Puts};
ghost use Rattle.history_core.specs.declared.event.Event.{Event};
ghost use Rattle.history_core.specs.declared.txn.Txn.{Txn};
ghost use Rattle.history_core.specs.Events.{session_in};
ghost use Rattle.history_core.specs.Transactions.{IsPending, HasPending};
ghost use Rattle.history_core.specs.Records.{seen_of};
ghost use Rattle.history_core.specs.Kept.{StandsForTxns, ChangesOne, AddsSeen, AddsWrite, TakesState};
ghost use Rattle.further_reads.specs.Begun.{IsLastBegun};
ghost use Rattle.order_test.specs.Settled.{IsSettled, ComesSettled, IsOrderly, HasOwner, AreOwned};
ghost use Rattle.order_test.specs.Glance.{AreOwners};
ghost use Rattle.order_test.specs.Records.{IsFreshRecord};

use cell_base::{Cell, Items, Level, Memory, Value};
use history_core::{Event, Seen, Txn, TxnState, copy_keys};
use std::alloc::Global;
use txn_buffer::TxnBuffer;

/// Notes of the event what it changes for its transaction, the last one of its session.
fn note_record(
    alloc: Global,
    txns: &mut Vec<Txn>,
    before: &[Event],
    event: &Event,
    owner: u32,
) -> Result<(), Memory>
    requires txns { StandsForTxns before.now txns.old.items }
    requires comes { ComesSettled before.now event.now }
    requires owned { HasOwner before.now event.now }
    requires owner { IsLastBegun before.now (session_in event.now) owner }
    requires few { length before.now < 4294967295 }
    ensures { OnOk result (StandsForTxns (before.now ++ event.now ∷ []) txns.new.items) }
{
    match event {
        Event::Begin { session, level } => begin_record(alloc, txns, *session, *level),
        Event::Scan { .. } => note_seen(alloc, txns, before, event, owner),
        Event::Read { .. } => note_seen(alloc, txns, before, event, owner),
        Event::Write { cell, value, .. } => {
            let at = record_place(txns.as_slice(), before, event, owner);
            note_write(alloc, txns, at, cell, value)
        }
        Event::Commit { .. } => {
            let at = record_place(txns.as_slice(), before, event, owner);
            set_state(txns, at, TxnState::Committed);
            Ok(())
        }
        Event::Rollback { .. } => {
            let at = record_place(txns.as_slice(), before, event, owner);
            set_state(txns, at, TxnState::RolledBack);
            Ok(())
        }
        Event::Open { .. } => Ok(()),
        Event::Close { .. } => Ok(()),
        Event::Define { .. } => Ok(()),
        Event::Look { .. } => Ok(()),
        Event::Own { .. } => Ok(()),
        Event::Show { .. } => Ok(()),
    }
}

/// Where the record of the event's transaction stands.
fn record_place(txns: &[Txn], before: &[Event], event: &Event, owner: u32) -> usize
    requires txns { StandsForTxns before.now txns.now }
    requires settled { IsSettled before.now }
    requires owner { IsLastBegun before.now (session_in event.now) owner }
    requires pending { HasPending before.now (session_in event.now) }
    ensures pending { IsPending before.now (result + 1) (session_in event.now) }
    ensures within { result < length txns.now }
{
    owner as usize - 1
}

/// A record for a transaction that begins.
fn begin_record(
    alloc: Global,
    txns: &mut Vec<Txn>,
    session: u32,
    level: Level,
) -> Result<(), Memory>
    ensures { OnOk result ((txn : Txn) × (txns.new.items ≡ txns.old.items ++ txn ∷ []) × IsFreshRecord txn session level) }
{
    txns.push(Txn {
        session,
        level,
        state: TxnState::Pending,
        seen: Items::new(alloc),
        buffer: TxnBuffer::new(alloc),
    })?;
    Ok(())
}

/// Notes what the pending transaction saw by the event, which is a read or a scan.
fn note_seen(
    alloc: Global,
    txns: &mut Vec<Txn>,
    before: &[Event],
    event: &Event,
    owner: u32,
) -> Result<(), Memory>
    requires txns { StandsForTxns before.now txns.old.items }
    requires settled { IsSettled before.now }
    requires owner { IsLastBegun before.now (session_in event.now) owner }
    requires pending { HasPending before.now (session_in event.now) }
    requires shows { (seen_of (length before.now + 1) event.now ≡ None) → ⊥ }
    requires few { length before.now < 4294967295 }
    ensures { OnOk result (StandsForTxns (before.now ++ event.now ∷ []) txns.new.items) }
{
    let at = record_place(txns.as_slice(), before, event, owner);
    match seen_by(alloc, before, event)? {
        Some(seen) => see(txns, at, seen),
        None => unreachable!(),
    }
}

/// What the event shows its transaction.
fn seen_by(alloc: Global, before: &[Event], event: &Event) -> Result<Option<Seen>, Memory>
    requires { length before.now < 4294967295 }
    ensures { IfOk result (λ seen. seen ≡ seen_of (length before.now + 1) event.now) }
{
    let number = before.len() as u32 + 1;
    match event {
        Event::Scan { table, keys, .. } => Ok(Some(Seen::Scan {
            number,
            table: *table,
            keys: copy_keys(alloc, keys.as_slice())?,
        })),
        Event::Read { cell, source, .. } => Ok(Some(Seen::Read {
            number,
            cell: cell.copy(alloc)?,
            source: *source,
        })),
        Event::Open { .. } => Ok(None),
        Event::Close { .. } => Ok(None),
        Event::Define { .. } => Ok(None),
        Event::Look { .. } => Ok(None),
        Event::Begin { .. } => Ok(None),
        Event::Own { .. } => Ok(None),
        Event::Write { .. } => Ok(None),
        Event::Commit { .. } => Ok(None),
        Event::Rollback { .. } => Ok(None),
        Event::Show { .. } => Ok(None),
    }
}

/// Adds what was seen to the record.
fn see(txns: &mut Vec<Txn>, at: usize, seen: Seen) -> Result<(), Memory>
    requires { at < length txns.old.items }
    ensures { OnOk result (ChangesOne txns.old.items txns.new.items at (AddsSeen seen)) }
{
    let txn = &mut txns[at];
    txn.seen.push(seen)?;
    Ok(())
}

/// Adds the write to the record.
fn note_write(
    alloc: Global,
    txns: &mut Vec<Txn>,
    at: usize,
    cell: &Cell,
    value: &Value,
) -> Result<(), Memory>
    requires { at < length txns.old.items }
    ensures { OnOk result (ChangesOne txns.old.items txns.new.items at (AddsWrite cell.now value.now)) }
{
    let cell = cell.copy(alloc)?;
    let value = value.copy(alloc)?;
    put_write(txns, at, cell, value)
}

/// Puts the write into the record.
fn put_write(txns: &mut Vec<Txn>, at: usize, cell: Cell, value: Value) -> Result<(), Memory>
    requires { at < length txns.old.items }
    ensures { OnOk result (ChangesOne txns.old.items txns.new.items at (AddsWrite cell value)) }
{
    let txn = &mut txns[at];
    keep_write(&mut txn.buffer, cell, value)?;
    Ok(())
}

/// Takes the room for a write and puts it.
fn keep_write(buffer: &mut TxnBuffer, cell: Cell, value: Value) -> Result<(), Memory>
    ensures { OnOk result (Puts buffer.old.writes buffer.new.writes cell value) }
{
    buffer.reserve(1)?;
    buffer.put(cell, value);
    Ok(())
}

/// Sets the state of the record.
fn set_state(txns: &mut Vec<Txn>, at: usize, state: TxnState)
    requires { at < length txns.old.items }
    ensures { ChangesOne txns.old.items txns.new.items at (TakesState state) }
{
    txns[at].state = state;
}

/// The records of the transactions. The owners are the last transactions of the sessions of the events.
pub fn txns_of(alloc: Global, events: &[Event], owners: &[u32]) -> Result<Vec<Txn>, Memory>
    requires orderly { IsOrderly events.now }
    requires owned { AreOwned events.now }
    requires owners { AreOwners events.now owners.now }
    requires few { length events.now < 4294967296 }
    ensures { IfOk result (λ txns. StandsForTxns events.now txns.items) }
{
    let mut txns = Vec::new(alloc);
    for at in 0..events.len() {
        note_record(alloc, &mut txns, &events[..at], &events[at], owners[at])?;
    }
    Ok(txns)
}
