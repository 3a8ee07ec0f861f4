// Changes of one part of what a history keeps: room for events, one event more, one record changed.
ghost use Rattle.std.specs.Prelude.{◌≡◌, ◌≤◌, ◌<◌, ◌+◌, ◌^◌, [], ◌∷◌, ◌++◌, length, OnOk, OnErr, IfOk, vec_capacity};
ghost use Rattle.txn_buffer.specs.Buffer.{Puts};
ghost use Rattle.history_core.specs.Events.{weight_of};
ghost use Rattle.history_core.specs.Kept.{ChangesOne, AddsSeen, AddsWrite, TakesState, TakesPending, Closes};

use crate::kept::SessionRecord;
use crate::weight::weight;
use crate::{Event, Seen, Txn, TxnState};
use cell_base::{Cell, Items, Key, Memory, Text, Value};
use sql_tree::Table;
use std::alloc::Global;
use txn_buffer::TxnBuffer;

/// The answer, once what it refuses is let go. A value that owns memory costs much to check wherever it is let go, so it is
/// let go here.
pub fn without<T: Drop, A>(refused: T, answer: A) -> A
    ensures { result ≡ answer }
{
    let _refused = refused;
    answer
}

/// Takes the room for one event and for the ends that are owed.
pub fn make_room(events: &mut Vec<Event>, owed: usize) -> Result<(), Memory>
    requires { owed < 2 ^ 32 }
    ensures items { events.new.items ≡ events.old.items }
    ensures capacity { vec_capacity events.old ≤ vec_capacity events.new }
    ensures ok { OnOk result (length events.old.items + (owed + 1) ≤ vec_capacity events.new) }
{
    events.reserve(owed + 1)?;
    Ok(())
}

/// Takes the room for the event and for the ends that are owed. Gives what the event weighs.
pub fn make_room_for(events: &mut Vec<Event>, event: &Event, owed: usize) -> Result<u64, Memory>
    requires { owed < 2 ^ 32 }
    ensures items { events.new.items ≡ events.old.items }
    ensures capacity { vec_capacity events.old ≤ vec_capacity events.new }
    ensures room { OnOk result (length events.old.items + (owed + 1) ≤ vec_capacity events.new) }
    ensures value { IfOk result (λ w. w ≡ weight_of event.now) }
    ensures light { IfOk result (λ w. weight_of event.now ≤ 4611686018427387904) }
{
    let weight = weight(event)?;
    make_room(events, owed)?;
    Ok(weight)
}

/// Takes the room for a table, for its event, and for the ends that are owed. Gives its name once more.
pub fn make_table_room(
    alloc: Global,
    events: &mut Vec<Event>,
    tables: &mut Vec<Table>,
    owed: usize,
    name: &Text,
) -> Result<Text, Memory>
    requires { owed < 2 ^ 32 }
    ensures events { events.new.items ≡ events.old.items }
    ensures tables { tables.new.items ≡ tables.old.items }
    ensures capacity { vec_capacity events.old ≤ vec_capacity events.new }
    ensures room { OnOk result (length events.old.items + (owed + 1) ≤ vec_capacity events.new) }
    ensures place { OnOk result (length tables.old.items < vec_capacity tables.new) }
    ensures name { IfOk result (λ copy. copy ≡ name.now) }
{
    make_room(events, owed)?;
    tables.reserve(1)?;
    name.copy(alloc)
}

/// Appends the event, in the room that was taken.
pub fn append(events: &mut Vec<Event>, event: Event)
    requires { length events.old.items < vec_capacity events.old }
    ensures items { events.new.items ≡ events.old.items ++ event ∷ [] }
    ensures capacity { vec_capacity events.old ≤ vec_capacity events.new }
{
    events.push_reserved(event);
}

/// Notes what the transaction saw.
pub fn note_seen(txns: &mut Vec<Txn>, at: usize, seen: Seen) -> Result<(), Memory>
    requires { at < length txns.old.items }
    ensures ok { OnOk result (ChangesOne txns.old.items txns.new.items at (AddsSeen seen)) }
    ensures err { OnErr result (txns.new.items ≡ txns.old.items) }
{
    let txn = &mut txns[at];
    txn.seen.push(seen)?;
    Ok(())
}

/// Notes what the transaction wrote, with copies of the cell and the value.
pub fn note_write(
    alloc: Global,
    txns: &mut Vec<Txn>,
    at: usize,
    cell: &Cell,
    value: &Value,
) -> Result<(), Memory>
    requires { at < length txns.old.items }
    ensures ok { OnOk result (ChangesOne txns.old.items txns.new.items at (AddsWrite cell.now value.now)) }
    ensures err { OnErr result (txns.new.items ≡ txns.old.items) }
{
    let txn = &mut txns[at];
    keep_write(alloc, &mut txn.buffer, cell, value)?;
    Ok(())
}

/// Takes the room for a write and puts copies of the cell and the value.
fn keep_write(
    alloc: Global,
    buffer: &mut TxnBuffer,
    cell: &Cell,
    value: &Value,
) -> Result<(), Memory>
    ensures ok { OnOk result (Puts buffer.old.writes buffer.new.writes cell.now value.now) }
    ensures err { OnErr result (buffer.new ≡ buffer.old) }
{
    let cell = cell.copy(alloc)?;
    match value.copy(alloc) {
        Ok(value) => put_copies(buffer, cell, value),
        Err(memory) => without(cell, Err(memory)),
    }
}

/// Takes the room for a write and puts it.
fn put_copies(buffer: &mut TxnBuffer, cell: Cell, value: Value) -> Result<(), Memory>
    ensures ok { OnOk result (Puts buffer.old.writes buffer.new.writes cell value) }
    ensures err { OnErr result (buffer.new ≡ buffer.old) }
{
    match buffer.reserve(1) {
        Ok(()) => {
            buffer.put(cell, value);
            Ok(())
        }
        Err(memory) => without((cell, value), Err(memory)),
    }
}

/// Sets the state of the transaction.
pub fn set_state(txns: &mut Vec<Txn>, at: usize, state: TxnState)
    requires { at < length txns.old.items }
    ensures { ChangesOne txns.old.items txns.new.items at (TakesState state) }
{
    txns[at].state = state;
}

/// Sets what is pending in the session.
pub fn set_pending(sessions: &mut Vec<SessionRecord>, at: usize, pending: Option<u32>)
    requires { at < length sessions.old.items }
    ensures { ChangesOne sessions.old.items sessions.new.items at (TakesPending pending) }
{
    sessions[at].pending = pending;
}

/// Closes the session.
pub fn close(sessions: &mut Vec<SessionRecord>, at: usize)
    requires { at < length sessions.old.items }
    ensures { ChangesOne sessions.old.items sessions.new.items at Closes }
{
    sessions[at].is_open = false;
}

/// The same keys once more.
pub fn copy_keys(alloc: Global, keys: &[Key]) -> Result<Items<Key>, Memory>
    ensures { IfOk result (λ copies. copies ≡ keys.now) }
{
    let mut copies = Items::new(alloc);
    for key in keys {
        copies.push(key.copy(alloc)?)?;
    }
    Ok(copies)
}
