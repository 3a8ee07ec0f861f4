// Whether the state of a session allows an event.
ghost use Rattle.std.specs.Prelude.{◌≡◌, ◌<◌, ◌≤◌, ◌+◌, ◌↔◌, length, IsTrue, Contains, Any, Some};
ghost use Rattle.history_core.specs.Events.{opened, begun, names, table_of, defined_name};
ghost use Rattle.history_core.specs.Initial.{IsStorable};
ghost use Rattle.history_core.specs.Transactions.{HasPending};
ghost use Rattle.history_core.specs.Legal.{IsOpen, IsDefined};
ghost use Rattle.history_check.specs.Rules.{IsInShape};
ghost use Rattle.history_check.specs.Notes.{AreNotes};

use crate::notes::{Notes, count_opened, is_open, pending_in};
use cell_base::{Cell, Text, Value};
use history_core::Event;

/// Whether the state of the session allows the event, and what it names is there, or is new.
pub fn is_in_shape(notes: &Notes, before: &[Event], event: &Event) -> bool
    requires notes { AreNotes before.now notes.now }
    requires few { length before.now < 4294967295 }
    ensures { IsTrue result ↔ IsInShape before.now event.now }
{
    match event {
        Event::Open { session } => is_next_session(notes, before, *session),
        Event::Close { session } => is_idle(notes, before, *session),
        Event::Define { session, name } => may_define(notes, before, *session, name),
        Event::Look { session, .. } => is_open(notes, before, *session),
        Event::Begin { session, .. } => is_idle(notes, before, *session),
        Event::Scan { session, table, .. } => may_touch(notes, before, *session, *table),
        Event::Read {
            session,
            cell,
            source,
            ..
        } => may_read(notes, before, *session, cell, *source),
        Event::Own { session, cell, .. } => may_touch(notes, before, *session, table_in(cell)),
        Event::Write {
            session,
            cell,
            value,
        } => may_write(notes, before, *session, cell, value),
        Event::Commit { session } => has_pending(notes, before, *session),
        Event::Rollback { session } => has_pending(notes, before, *session),
        Event::Show { session, .. } => is_open(notes, before, *session),
    }
}

/// Whether the session has a pending transaction.
fn has_pending(notes: &Notes, before: &[Event], session: u32) -> bool
    requires { AreNotes before.now notes.now }
    ensures { IsTrue result ↔ HasPending before.now session }
{
    match pending_in(notes, before, session) {
        Some(_number) => true,
        None => false,
    }
}

/// Whether the session is the next one to open.
fn is_next_session(notes: &Notes, before: &[Event], session: u32) -> bool
    requires notes { AreNotes before.now notes.now }
    requires few { length before.now < 4294967295 }
    ensures { IsTrue result ↔ (session ≡ opened before.now + 1) }
{
    if session == 0 {
        return false;
    }
    session - 1 == count_opened(notes, before)
}

/// Whether the session is open with nothing pending.
fn is_idle(notes: &Notes, before: &[Event], session: u32) -> bool
    requires { AreNotes before.now notes.now }
    ensures { IsTrue result ↔ (IsOpen before.now session × (¬ HasPending before.now session)) }
{
    is_open(notes, before, session) && !has_pending(notes, before, session)
}

/// Whether the event defines a table of the name.
fn defines(event: &Event, name: &Text) -> bool
    ensures { IsTrue result ↔ (defined_name event.now ≡ Some name.now) }
{
    match event {
        Event::Define { name: own, .. } => own.is_same(name),
        Event::Open { .. } => false,
        Event::Close { .. } => false,
        Event::Look { .. } => false,
        Event::Begin { .. } => false,
        Event::Scan { .. } => false,
        Event::Read { .. } => false,
        Event::Own { .. } => false,
        Event::Write { .. } => false,
        Event::Commit { .. } => false,
        Event::Rollback { .. } => false,
        Event::Show { .. } => false,
    }
}

/// Whether a table has the name.
fn has_name(before: &[Event], name: &Text) -> bool
    ensures { IsTrue result ↔ Any (λ e. defined_name e ≡ Some name.now) before.now }
{
    before.iter().any(|event| defines(event, name))
}

/// Whether no table has the name.
fn is_name_free(before: &[Event], name: &Text) -> bool
    ensures { IsTrue result ↔ (¬ Contains (names before.now) name.now) }
{
    if has_name(before, name) {
        return false;
    }
    true
}

/// Whether the session may define a table of the name.
fn may_define(notes: &Notes, before: &[Event], session: u32, name: &Text) -> bool
    requires { AreNotes before.now notes.now }
    ensures { IsTrue result ↔ (IsOpen before.now session × (¬ Contains (names before.now) name.now)) }
{
    is_open(notes, before, session) && is_name_free(before, name)
}

/// Whether the session has a pending transaction, and the table is there.
fn may_touch(notes: &Notes, before: &[Event], session: u32, table: u32) -> bool
    requires { AreNotes before.now notes.now }
    ensures { IsTrue result ↔ (HasPending before.now session × IsDefined before.now table) }
{
    has_pending(notes, before, session) && table < notes.tables
}

/// Whether the session may read the cell from a transaction that has begun.
fn may_read(notes: &Notes, before: &[Event], session: u32, cell: &Cell, source: u32) -> bool
    requires notes { AreNotes before.now notes.now }
    requires few { length before.now < 4294967295 }
    ensures { IsTrue result ↔ (HasPending before.now session × IsDefined before.now (table_of cell.now) × (source ≤ begun before.now)) }
{
    may_touch(notes, before, session, table_in(cell)) && source <= notes.begun
}

/// Whether the session may write the value to the cell.
fn may_write(notes: &Notes, before: &[Event], session: u32, cell: &Cell, value: &Value) -> bool
    requires { AreNotes before.now notes.now }
    ensures { IsTrue result ↔ (HasPending before.now session × IsDefined before.now (table_of cell.now) × IsStorable value.now) }
{
    may_touch(notes, before, session, table_in(cell)) && is_storable(value)
}

/// The table of the cell.
pub fn table_in(cell: &Cell) -> u32
    ensures { result ≡ table_of cell.now }
{
    match cell {
        Cell::Presence(table, _) => *table,
        Cell::Field(table, _, _) => *table,
    }
}

/// Whether the value is neither unset nor wide.
pub fn is_storable(value: &Value) -> bool
    ensures { IsTrue result ↔ IsStorable value.now }
{
    !matches!(value, Value::Unset | Value::Wide(_))
}
