// What each event that may be refused changes in what a history keeps.
ghost use Rattle.std.specs.Prelude.{◌≡◌, ◌+◌, length, Some, OnOk, OnErr};
ghost use Rattle.sound_table.specs.Sound.{IsSound};
ghost use Rattle.history_core.specs.declared.event.Event.{Event};
ghost use Rattle.history_core.specs.Events.{session_in};
ghost use Rattle.history_core.specs.Transactions.{HasPending};
ghost use Rattle.history_core.specs.Legal.{MayCome};
ghost use Rattle.history_core.specs.Records.{IsNoDefinition, seen_of};
ghost use Rattle.history_core.specs.Kept.{IsKept, Grows, Stays, IsUnnoted, Defines};

use crate::ends::{end_session, end_txn};
use crate::kept::{Kept, SessionRecord, count_begun, next_number, pending_index, session_index};
use crate::notes::{
    append, copy_keys, make_room, make_room_for, make_table_room, note_seen, note_write,
    set_pending, without,
};
use crate::weight::text_weight;
use crate::{Event, Seen, Txn, TxnState};
use cell_base::{Cell, Items, Key, Level, Memory, Value};
use sql_tree::Table;
use txn_buffer::TxnBuffer;

/// Appends any event but a definition.
pub fn push_event(kept: &mut Kept, event: Event) -> Result<(), Memory>
    requires kept { IsKept kept.old }
    requires may { MayCome kept.old.initial kept.old.events.items event }
    requires pushed { IsNoDefinition event }
    ensures kept { IsKept kept.new }
    ensures ok { OnOk result (Grows kept.old kept.new event) }
    ensures err { OnErr result (Stays kept.old kept.new) }
{
    match event {
        Event::Open { session } => push_open(kept, session),
        Event::Begin { session, level } => push_begin(kept, session, level),
        Event::Scan {
            session,
            table,
            keys,
        } => push_scan(kept, session, table, keys),
        Event::Read {
            session,
            cell,
            source,
            count,
            word,
            value,
        } => push_read(kept, session, cell, source, count, word, value),
        Event::Write {
            session,
            cell,
            value,
        } => push_write(kept, session, cell, value),
        Event::Look { session, tables } => push_unnoted(kept, Event::Look { session, tables }),
        Event::Own {
            session,
            cell,
            value,
        } => push_unnoted(
            kept,
            Event::Own {
                session,
                cell,
                value,
            },
        ),
        Event::Show { session, number } => push_unnoted(kept, Event::Show { session, number }),
        Event::Commit { session } => {
            end_txn(
                kept,
                Event::Commit { session },
                session,
                TxnState::Committed,
            );
            Ok(())
        }
        Event::Rollback { session } => {
            end_txn(
                kept,
                Event::Rollback { session },
                session,
                TxnState::RolledBack,
            );
            Ok(())
        }
        Event::Close { session } => {
            end_session(kept, session);
            Ok(())
        }
        Event::Define { .. } => unreachable!(),
    }
}

/// Appends the definition of a table.
pub fn push_table(kept: &mut Kept, session: u32, table: Table) -> Result<(), Memory>
    requires kept { IsKept kept.old }
    requires may { MayCome kept.old.initial kept.old.events.items (Event.Define session table.name) }
    requires sound { IsSound table }
    ensures kept { IsKept kept.new }
    ensures ok { OnOk result (Defines kept.old kept.new session table) }
    ensures err { OnErr result (Stays kept.old kept.new) }
{
    match make_table_room(
        kept.alloc,
        &mut kept.events,
        &mut kept.tables,
        kept.owed,
        &table.name,
    ) {
        Ok(name) => {
            kept.tables.push_reserved(table);
            append(&mut kept.events, Event::Define { session, name });
            kept.load += 1;
            Ok(())
        }
        Err(memory) => without(table, Err(memory)),
    }
}

/// The start of a session. The room for its end is taken now.
fn push_open(kept: &mut Kept, session: u32) -> Result<(), Memory>
    requires kept { IsKept kept.old }
    requires may { MayCome kept.old.initial kept.old.events.items (Event.Open session) }
    ensures kept { IsKept kept.new }
    ensures ok { OnOk result (Grows kept.old kept.new (Event.Open session)) }
    ensures err { OnErr result (Stays kept.old kept.new) }
{
    make_room(&mut kept.events, kept.owed + 1)?;
    kept.sessions.push(SessionRecord {
        is_open: true,
        pending: None,
    })?;
    append(&mut kept.events, Event::Open { session });
    kept.load += 1;
    kept.owed += 1;
    Ok(())
}

/// The start of a transaction. The room for its end is taken now.
fn push_begin(kept: &mut Kept, session: u32, level: Level) -> Result<(), Memory>
    requires kept { IsKept kept.old }
    requires may { MayCome kept.old.initial kept.old.events.items (Event.Begin session level) }
    ensures kept { IsKept kept.new }
    ensures ok { OnOk result (Grows kept.old kept.new (Event.Begin session level)) }
    ensures err { OnErr result (Stays kept.old kept.new) }
{
    let at = session_index(kept, session);
    let number = count_begun(kept) + 1;
    make_room(&mut kept.events, kept.owed + 1)?;
    kept.txns.push(Txn {
        session,
        level,
        state: TxnState::Pending,
        seen: Items::new(kept.alloc),
        buffer: TxnBuffer::new(kept.alloc),
    })?;
    set_pending(&mut kept.sessions, at, Some(number));
    append(&mut kept.events, Event::Begin { session, level });
    kept.load += 1;
    kept.owed += 1;
    Ok(())
}

/// A scan of the pending transaction.
fn push_scan(kept: &mut Kept, session: u32, table: u32, keys: Items<Key>) -> Result<(), Memory>
    requires kept { IsKept kept.old }
    requires may { MayCome kept.old.initial kept.old.events.items (Event.Scan session table keys) }
    ensures kept { IsKept kept.new }
    ensures ok { OnOk result (Grows kept.old kept.new (Event.Scan session table keys)) }
    ensures err { OnErr result (Stays kept.old kept.new) }
{
    let listed = copy_keys(kept.alloc, keys.as_slice())?;
    let noted = Seen::Scan {
        number: next_number(kept),
        table,
        keys: listed,
    };
    push_seen(
        kept,
        Event::Scan {
            session,
            table,
            keys,
        },
        session,
        noted,
    )
}

/// An external read of the pending transaction.
fn push_read(
    kept: &mut Kept,
    session: u32,
    cell: Cell,
    source: u32,
    count: u32,
    word: u32,
    value: Value,
) -> Result<(), Memory>
    requires kept { IsKept kept.old }
    requires may { MayCome kept.old.initial kept.old.events.items (Event.Read session cell source count word value) }
    ensures kept { IsKept kept.new }
    ensures ok { OnOk result (Grows kept.old kept.new (Event.Read session cell source count word value)) }
    ensures err { OnErr result (Stays kept.old kept.new) }
{
    let seen_cell = cell.copy(kept.alloc)?;
    let noted = Seen::Read {
        number: next_number(kept),
        cell: seen_cell,
        source,
    };
    push_seen(
        kept,
        Event::Read {
            session,
            cell,
            source,
            count,
            word,
            value,
        },
        session,
        noted,
    )
}

/// An event that the pending transaction saw something by.
fn push_seen(kept: &mut Kept, event: Event, session: u32, seen: Seen) -> Result<(), Memory>
    requires kept { IsKept kept.old }
    requires may { MayCome kept.old.initial kept.old.events.items event }
    requires session { session_in event ≡ session }
    requires pending { HasPending kept.old.events.items session }
    requires shows { seen_of (length kept.old.events.items + 1) event ≡ Some seen }
    ensures kept { IsKept kept.new }
    ensures ok { OnOk result (Grows kept.old kept.new event) }
    ensures err { OnErr result (Stays kept.old kept.new) }
{
    let at = pending_index(kept, session);
    match make_room_for(&mut kept.events, &event, kept.owed) {
        Ok(weight) => match note_seen(&mut kept.txns, at, seen) {
            Ok(()) => {
                append(&mut kept.events, event);
                kept.load += weight;
                Ok(())
            }
            Err(memory) => without(event, Err(memory)),
        },
        Err(memory) => without((event, seen), Err(memory)),
    }
}

/// A write of the pending transaction.
fn push_write(kept: &mut Kept, session: u32, cell: Cell, value: Value) -> Result<(), Memory>
    requires kept { IsKept kept.old }
    requires may { MayCome kept.old.initial kept.old.events.items (Event.Write session cell value) }
    ensures kept { IsKept kept.new }
    ensures ok { OnOk result (Grows kept.old kept.new (Event.Write session cell value)) }
    ensures err { OnErr result (Stays kept.old kept.new) }
{
    let at = pending_index(kept, session);
    let weight = text_weight(&cell, &value);
    match make_room(&mut kept.events, kept.owed) {
        Ok(()) => match note_write(kept.alloc, &mut kept.txns, at, &cell, &value) {
            Ok(()) => {
                append(
                    &mut kept.events,
                    Event::Write {
                        session,
                        cell,
                        value,
                    },
                );
                kept.load += weight;
                Ok(())
            }
            Err(memory) => without((cell, value), Err(memory)),
        },
        Err(memory) => without((cell, value), Err(memory)),
    }
}

/// An event of which the records note nothing.
fn push_unnoted(kept: &mut Kept, event: Event) -> Result<(), Memory>
    requires kept { IsKept kept.old }
    requires may { MayCome kept.old.initial kept.old.events.items event }
    requires unnoted { IsUnnoted event }
    ensures kept { IsKept kept.new }
    ensures ok { OnOk result (Grows kept.old kept.new event) }
    ensures err { OnErr result (Stays kept.old kept.new) }
{
    match make_room_for(&mut kept.events, &event, kept.owed) {
        Ok(weight) => {
            append(&mut kept.events, event);
            kept.load += weight;
            Ok(())
        }
        Err(memory) => without(event, Err(memory)),
    }
}
