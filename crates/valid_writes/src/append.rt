// Events that keep a history legal, and its rows with it.
ghost use Rattle.std.specs.Prelude.{◌≡◌, ◌+◌, Some, Err, OnOk, OnErr, IfOk, IsTrue};
ghost use Rattle.sound_table.specs.Sound.{IsSound};
ghost use Rattle.history_core.specs.declared.fault.Limit.{Limit};
ghost use Rattle.history_core.specs.Legal.{Follows, IsOffered, full_for};
ghost use Rattle.history_core.specs.Chronicle.{followed_by, with_table};
ghost use Rattle.history_core.specs.Records.{is_any_end};
ghost use Rattle.forced_rows.specs.Stars.{AreStarsOf};
ghost use Rattle.valid_writes.specs.Store.{IsStore, HasRoom, IsStill, Leaves};

use crate::kept::{Choice, Kept};
use cell_base::{Cell, Level, Value};
use forced_rows::ReadStars;
use history_core::{BookFault, Event, Limit};
use sql_tree::Table;

/// Starts the next session and answers its number. On an error nothing changes.
pub fn append_open(store: &mut Kept) -> Result<u32, BookFault>
    requires kept { IsStore store.old }
    ensures kept { IsStore store.new }
    ensures ok { IfOk result (λ s. store.new.history ≡ followed_by store.old.history (Event.Open s)) }
    ensures number { IfOk result (λ s. s ≡ store.old.sessions + 1) }
    ensures full { (limit : Limit) → result ≡ Err (BookFault.Full limit) → full_for store.new.history.initial store.new.history.events (Event.Open 0) ≡ Some limit }
    ensures err { OnErr result (Leaves store.old store.new) }
{
    let session = store.sessions + 1;
    store.history.push(Event::Open { session })?;
    store.sessions = session;
    Ok(session)
}

/// Appends an event that changes neither transactions nor sessions. On an error nothing changes.
pub fn append(store: &mut Kept, event: Event) -> Result<(), BookFault>
    requires kept { IsStore store.old }
    requires follows { Follows store.old.history.initial store.old.history.events event }
    requires still { IsStill event }
    ensures kept { IsStore store.new }
    ensures ok { OnOk result (store.new.history ≡ followed_by store.old.history event) }
    ensures full { (limit : Limit) → result ≡ Err (BookFault.Full limit) → full_for store.new.history.initial store.new.history.events event ≡ Some limit }
    ensures err { OnErr result (Leaves store.old store.new) }
{
    store.history.push(event)?;
    Ok(())
}

/// Appends a begin, for which the rows have room.
fn begin_in_room(store: &mut Kept, session: u32, level: Level) -> Result<(), BookFault>
    requires kept { HasRoom store.old session }
    requires follows { Follows store.old.history.initial store.old.history.events (Event.Begin session level) }
    ensures kept { IsStore store.new }
    ensures ok { OnOk result (store.new.history ≡ followed_by store.old.history (Event.Begin session level)) }
    ensures full { (limit : Limit) → result ≡ Err (BookFault.Full limit) → full_for store.new.history.initial store.new.history.events (Event.Begin session level) ≡ Some limit }
    ensures err { OnErr result (Leaves store.old store.new) }
{
    match store.history.push(Event::Begin { session, level }) {
        Ok(()) => {
            store.rows.begin(&store.history, session);
            Ok(())
        }
        Err(fault) => {
            store.rows.give_back_room(&store.history, session);
            Err(fault)
        }
    }
}

/// Appends a begin at the level. The rows take their room first. On an error the history stays.
pub fn append_begin(store: &mut Kept, session: u32, level: Level) -> Result<(), BookFault>
    requires kept { IsStore store.old }
    requires follows { Follows store.old.history.initial store.old.history.events (Event.Begin session level) }
    ensures kept { IsStore store.new }
    ensures ok { OnOk result (store.new.history ≡ followed_by store.old.history (Event.Begin session level)) }
    ensures full { (limit : Limit) → result ≡ Err (BookFault.Full limit) → full_for store.new.history.initial store.new.history.events (Event.Begin session level) ≡ Some limit }
    ensures err { OnErr result (Leaves store.old store.new) }
{
    if store.history.history().load() >= 1_048_576 {
        return Err(BookFault::Full(Limit::Load));
    }
    if store.history.history().begun() >= 65_535 {
        return Err(BookFault::Full(Limit::Transactions));
    }
    store.rows.make_room(&store.history, session)?;
    begin_in_room(store, session, level)
}

/// Appends a read of the session's pending transaction, which has these stars. On an error nothing changes.
pub fn append_read(
    store: &mut Kept,
    session: u32,
    cell: Cell,
    choice: Choice,
    word: u32,
    value: Value,
    stars: &ReadStars,
) -> Result<(), BookFault>
    requires kept { IsStore store.old }
    requires follows { Follows store.old.history.initial store.old.history.events (Event.Read session cell choice.source choice.count word value) }
    requires offered { IsOffered store.old.history.events (Event.Read session cell choice.source choice.count word value) }
    requires stars { AreStarsOf store.old.history.events session cell choice.source stars.now }
    ensures kept { IsStore store.new }
    ensures ok { OnOk result (store.new.history ≡ followed_by store.old.history (Event.Read session cell choice.source choice.count word value)) }
    ensures full { (limit : Limit) → result ≡ Err (BookFault.Full limit) → full_for store.new.history.initial store.new.history.events (Event.Read session cell choice.source choice.count word value) ≡ Some limit }
    ensures err { OnErr result (Leaves store.old store.new) }
{
    let source = choice.source;
    let event = Event::Read {
        session,
        cell,
        source,
        count: choice.count,
        word,
        value,
    };
    store.history.push(event)?;
    store.rows.read(&store.history, session, source, stars);
    Ok(())
}

/// Appends a write of the session's pending transaction. On an error nothing changes.
pub fn append_write(
    store: &mut Kept,
    session: u32,
    cell: Cell,
    value: Value,
) -> Result<(), BookFault>
    requires kept { IsStore store.old }
    requires follows { Follows store.old.history.initial store.old.history.events (Event.Write session cell value) }
    ensures kept { IsStore store.new }
    ensures ok { OnOk result (store.new.history ≡ followed_by store.old.history (Event.Write session cell value)) }
    ensures full { (limit : Limit) → result ≡ Err (BookFault.Full limit) → full_for store.new.history.initial store.new.history.events (Event.Write session cell value) ≡ Some limit }
    ensures err { OnErr result (Leaves store.old store.new) }
{
    store.history.push_write(session, cell, value)?;
    Ok(())
}

/// Appends the definition of a table whose name isn't taken. On an error nothing changes.
pub fn append_define(store: &mut Kept, session: u32, table: Table) -> Result<(), BookFault>
    requires kept { IsStore store.old }
    requires follows { Follows store.old.history.initial store.old.history.events (Event.Define session table.name) }
    requires sound { IsSound table }
    ensures kept { IsStore store.new }
    ensures ok { OnOk result (store.new.history ≡ with_table store.old.history session table) }
    ensures full { (limit : Limit) → result ≡ Err (BookFault.Full limit) → full_for store.new.history.initial store.new.history.events (Event.Define session table.name) ≡ Some limit }
    ensures err { OnErr result (Leaves store.old store.new) }
{
    store.history.push_define(session, table)?;
    Ok(())
}

/// Appends a Commit, a Rollback or a Close. Takes no memory and always succeeds.
pub fn append_end(store: &mut Kept, event: Event)
    requires kept { IsStore store.old }
    requires follows { Follows store.old.history.initial store.old.history.events event }
    requires end { IsTrue (is_any_end event) }
    ensures kept { IsStore store.new }
    ensures adds { store.new.history ≡ followed_by store.old.history event }
{
    store.history.end(event);
}
