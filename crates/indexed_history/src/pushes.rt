// What each event changes in the indexes.
ghost use Rattle.std.specs.Prelude.{◌≡◌, ◌↔◌, ◌≤◌, ◌<◌, [], ◌∷◌, ◌++◌, Some, Err, IfOk, OnOk, OnErr, IsTrue};
ghost use Rattle.sound_table.specs.Sound.{IsSound};
ghost use Rattle.history_core.specs.declared.event.Event.{Event};
ghost use Rattle.history_core.specs.declared.fault.Limit.{Limit};
ghost use Rattle.history_core.specs.Initial.{load_of};
ghost use Rattle.history_core.specs.Transactions.{HasPending};
ghost use Rattle.history_core.specs.Legal.{Follows, WroteItself, full_for};
ghost use Rattle.history_core.specs.Chronicle.{followed_by, with_table};
ghost use Rattle.history_core.specs.Records.{IsNoDefinition, is_any_end};
ghost use Rattle.indexed_history.specs.Index.{IsIndex, AreAscending, GainsWriter, LosesWriter, ListsSame};
ghost use Rattle.indexed_history.specs.Keys.{IsKept, KeepsKeys};
ghost use Rattle.indexed_history.specs.Parts.{AreIndexed, IsTheTxn};
ghost use Rattle.indexed_history.specs.Writers.{IsPlain};

use crate::index::{Index, forget_writer, forget_writes, note_writer};
use crate::keys::note_key;
use crate::parts::Parts;
use crate::records::wrote_itself;
use cell_base::{Cell, Memory, Value};
use history_core::{BookFault, Event, History, Limit};
use sql_tree::Table;

/// Appends an event that leaves the indexes.
pub fn push_plain(parts: &mut Parts, event: Event) -> Result<(), BookFault>
    requires indexed { AreIndexed parts.old }
    requires follows { Follows parts.old.history.initial parts.old.history.events event }
    requires plain { IsPlain event }
    ensures indexed { AreIndexed parts.new }
    ensures ok { OnOk result (parts.new.history ≡ followed_by parts.old.history event) }
    ensures full { (limit : Limit) → (result ≡ Err (BookFault.Full limit)) ↔ (full_for parts.old.history.initial parts.old.history.events event ≡ Some limit) }
    ensures err { OnErr result (parts.new.history ≡ parts.old.history) }
{
    parts.history.push(event)
}

/// Appends the definition of a sound table.
pub fn push_table(parts: &mut Parts, session: u32, table: Table) -> Result<(), BookFault>
    requires indexed { AreIndexed parts.old }
    requires follows { Follows parts.old.history.initial parts.old.history.events (Event.Define session table.name) }
    requires sound { IsSound table }
    ensures indexed { AreIndexed parts.new }
    ensures ok { OnOk result (parts.new.history ≡ with_table parts.old.history session table) }
    ensures full { (limit : Limit) → (result ≡ Err (BookFault.Full limit)) ↔ (full_for parts.old.history.initial parts.old.history.events (Event.Define session table.name) ≡ Some limit) }
    ensures err { OnErr result (parts.new.history ≡ parts.old.history) }
{
    parts.history.push_define(session, table)
}

/// Takes the places of a cell that the transaction is about to write in both indexes, and gives a copy of the cell. Out of
/// memory the lists of transactions stay.
fn note_write(parts: &mut Parts, cell: &Cell, number: u32) -> Result<Cell, Memory>
    requires { AreAscending parts.old.index }
    ensures history { parts.new.history ≡ parts.old.history }
    ensures keys { KeepsKeys parts.old.keys parts.new.keys }
    ensures noted { OnOk result (IsKept parts.new.keys cell.now) }
    ensures ascending { AreAscending parts.new.index }
    ensures ok { OnOk result (GainsWriter parts.old.index cell.now number parts.new.index) }
    ensures copied { IfOk result (λ copy. copy ≡ cell.now) }
    ensures err { OnErr result (ListsSame parts.old.index parts.new.index) }
{
    note_key(&mut parts.keys, cell)?;
    let copy = cell.copy(parts.alloc)?;
    note_writer(&mut parts.index, cell, number)?;
    Ok(copy)
}

/// Appends an event. Where it is refused, the transaction is taken out of the list of the cell.
fn push_or_forget(
    parts: &mut Parts,
    event: Event,
    cell: &Cell,
    number: u32,
) -> Result<(), BookFault>
    requires ascending { AreAscending parts.old.index }
    requires follows { Follows parts.old.history.initial parts.old.history.events event }
    requires pushed { IsNoDefinition event }
    ensures keys { parts.new.keys ≡ parts.old.keys }
    ensures ascending { AreAscending parts.new.index }
    ensures ok { OnOk result (parts.new.history ≡ followed_by parts.old.history event) }
    ensures listed { OnOk result (parts.new.index ≡ parts.old.index) }
    ensures full { (limit : Limit) → (result ≡ Err (BookFault.Full limit)) ↔ (full_for parts.old.history.initial parts.old.history.events event ≡ Some limit) }
    ensures err { OnErr result (parts.new.history ≡ parts.old.history) }
    ensures loses { OnErr result (LosesWriter parts.old.index cell.now number parts.new.index) }
{
    match parts.history.push(event) {
        Ok(()) => Ok(()),
        Err(fault) => {
            forget_writer(&mut parts.index, cell, number);
            Err(fault)
        }
    }
}

/// Appends the first write of a cell by the transaction, which is pending in the session. Its places in both indexes are taken
/// first; where the event is refused, the transaction is taken out again.
fn push_first_write(
    parts: &mut Parts,
    session: u32,
    number: u32,
    cell: Cell,
    value: Value,
) -> Result<(), BookFault>
    requires indexed { AreIndexed parts.old }
    requires follows { Follows parts.old.history.initial parts.old.history.events (Event.Write session cell value) }
    requires load { load_of parts.old.history.initial parts.old.history.events < 1048576 }
    requires pending { IsTheTxn parts.old.history.events session number }
    requires unwritten { ¬ WroteItself parts.old.history.events session cell }
    ensures indexed { AreIndexed parts.new }
    ensures ok { OnOk result (parts.new.history ≡ followed_by parts.old.history (Event.Write session cell value)) }
    ensures memory { OnErr result (result ≡ Err BookFault.Memory) }
    ensures err { OnErr result (parts.new.history ≡ parts.old.history) }
{
    let written = note_write(parts, &cell, number)?;
    let event = Event::Write {
        session,
        cell,
        value,
    };
    push_or_forget(parts, event, &written, number)
}

/// Appends a further write of a cell that the pending transaction has written.
fn push_further_write(
    parts: &mut Parts,
    session: u32,
    _number: u32,
    cell: Cell,
    value: Value,
) -> Result<(), BookFault>
    requires indexed { AreIndexed parts.old }
    requires follows { Follows parts.old.history.initial parts.old.history.events (Event.Write session cell value) }
    requires pending { IsTheTxn parts.old.history.events session _number }
    requires written { WroteItself parts.old.history.events session cell }
    ensures indexed { AreIndexed parts.new }
    ensures ok { OnOk result (parts.new.history ≡ followed_by parts.old.history (Event.Write session cell value)) }
    ensures full { (limit : Limit) → (result ≡ Err (BookFault.Full limit)) ↔ (full_for parts.old.history.initial parts.old.history.events (Event.Write session cell value) ≡ Some limit) }
    ensures err { OnErr result (parts.new.history ≡ parts.old.history) }
{
    parts.history.push(Event::Write {
        session,
        cell,
        value,
    })
}

/// Appends a write of the session's pending transaction.
pub fn push_write(
    parts: &mut Parts,
    session: u32,
    cell: Cell,
    value: Value,
) -> Result<(), BookFault>
    requires indexed { AreIndexed parts.old }
    requires follows { Follows parts.old.history.initial parts.old.history.events (Event.Write session cell value) }
    ensures indexed { AreIndexed parts.new }
    ensures ok { OnOk result (parts.new.history ≡ followed_by parts.old.history (Event.Write session cell value)) }
    ensures full { (limit : Limit) → (result ≡ Err (BookFault.Full limit)) ↔ (full_for parts.old.history.initial parts.old.history.events (Event.Write session cell value) ≡ Some limit) }
    ensures err { OnErr result (parts.new.history ≡ parts.old.history) }
{
    let Some(number) = parts.history.pending(session) else {
        unreachable!()
    };
    if wrote_itself(&parts.history, session, &cell) {
        return push_further_write(parts, session, number, cell, value);
    }
    if parts.history.load() >= 1_048_576 {
        return Err(BookFault::Full(Limit::Load));
    }
    push_first_write(parts, session, number, cell, value)
}

/// Takes the session's pending transaction, which rolls back, out of the lists of the cells that it wrote.
fn forget_pending(index: &mut Index, history: &History, session: u32)
    requires indexed { IsIndex history.now.events index.old }
    requires pending { HasPending history.now.events session }
    ensures { IsIndex (history.now.events ++ Event.Rollback session ∷ []) index.new }
{
    match history.pending(session) {
        Some(number) => forget_writes(index, history.txn(number).buffer.writes(), number),
        None => unreachable!(),
    }
}

/// Takes a transaction that rolls back out of the lists. Any other end leaves them.
fn forget_ended(index: &mut Index, history: &History, event: &Event)
    requires indexed { IsIndex history.now.events index.old }
    requires follows { Follows history.now.initial history.now.events event.now }
    requires end { IsTrue (is_any_end event.now) }
    ensures { IsIndex (history.now.events ++ event.now ∷ []) index.new }
{
    match event {
        Event::Rollback { session } => forget_pending(index, history, *session),
        _ => {}
    }
}

/// Appends a Commit, a Rollback or a Close. Takes no memory.
pub fn push_end(parts: &mut Parts, event: Event)
    requires indexed { AreIndexed parts.old }
    requires follows { Follows parts.old.history.initial parts.old.history.events event }
    requires end { IsTrue (is_any_end event) }
    ensures indexed { AreIndexed parts.new }
    ensures adds { parts.new.history ≡ followed_by parts.old.history event }
{
    forget_ended(&mut parts.index, &parts.history, &event);
    parts.history.end(event);
}
