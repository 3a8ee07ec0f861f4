// The calls of a book, on what it keeps.
ghost use Rattle.std.specs.Prelude.{◌≡◌, ◌≢◌, ◌≤◌, ◌<◌, ◌↔◌, [], ◌∷◌, ◌++◌, ℕ, length, Some, Err, IfOk, OnOk, OnErr, Contains, IsTrue, Any, map};
ghost use Rattle.sql_tree.specs.declared.table.Table.{Table};
ghost use Rattle.sound_table.specs.Sound.{IsSound};
ghost use Rattle.history_core.specs.declared.fault.Limit.{Limit};
ghost use Rattle.history_core.specs.declared.fault.Limit.TheVariants as limits;
ghost use Rattle.history_core.specs.Events.{table_of, begun, names};
ghost use Rattle.history_core.specs.Legal.{IsDefined, WroteItself, full_for, full_load};
ghost use Rattle.history_core.specs.Chronicle.{followed_by};
ghost use Rattle.history_core.specs.Initial.{IsStorable};
ghost use Rattle.valid_writes.specs.declared.desk.Stage.TheVariants as stages;
ghost use Rattle.valid_writes.specs.Desk.{IsDesk, GoesTo, Stays};

use crate::append::{append, append_begin, append_end, append_open, append_write};
use crate::desk::{Desk, Stage};
use cell_base::{Cell, Level, Value};
use history_core::{BookFault, Event};

/// Starts a session and answers its number.
pub fn open_session(desk: &mut Desk) -> Result<u32, BookFault>
    requires { IsDesk desk.old }
    ensures kept { IsDesk desk.new }
    ensures ok { IfOk result (λ s. GoesTo desk.old (Event.Open s) s stages.InSession desk.new) }
    ensures full { (limit : Limit) → result ≡ Err (BookFault.Full limit) → full_for desk.new.store.history.initial desk.new.store.history.events (Event.Open 0) ≡ Some limit }
    ensures err { OnErr result (Stays desk.old desk.new) }
{
    let session = append_open(&mut desk.store)?;
    desk.session = session;
    desk.stage = Stage::InSession;
    Ok(session)
}

/// Ends the session.
pub fn close_session(desk: &mut Desk)
    requires kept { IsDesk desk.old }
    requires idle { desk.old.stage ≡ stages.InSession }
    ensures kept { IsDesk desk.new }
    ensures adds { GoesTo desk.old (Event.Close desk.old.session) desk.old.session stages.NoSession desk.new }
{
    let session = desk.session;
    append_end(&mut desk.store, Event::Close { session });
    desk.stage = Stage::NoSession;
}

/// Starts a transaction at the level and answers its number.
pub fn begin_transaction(desk: &mut Desk, level: Level) -> Result<u32, BookFault>
    requires kept { IsDesk desk.old }
    requires idle { desk.old.stage ≡ stages.InSession }
    ensures kept { IsDesk desk.new }
    ensures ok { OnOk result (GoesTo desk.old (Event.Begin desk.old.session level) desk.old.session stages.Pending desk.new) }
    ensures number { IfOk result (λ n. n ≡ begun desk.new.store.history.events) }
    ensures full { (limit : Limit) → result ≡ Err (BookFault.Full limit) → full_for desk.new.store.history.initial desk.new.store.history.events (Event.Begin 0 level) ≡ Some limit }
    ensures err { OnErr result (Stays desk.old desk.new) }
{
    append_begin(&mut desk.store, desk.session, level)?;
    desk.stage = Stage::Pending;
    Ok(desk.store.history.history().begun())
}

/// Writes a cell.
pub fn write_cell(desk: &mut Desk, cell: Cell, value: Value) -> Result<(), BookFault>
    requires kept { IsDesk desk.old }
    requires pending { desk.old.stage ≡ stages.Pending }
    requires storable { IsStorable value }
    requires defined { table_of cell < length desk.old.store.history.tables }
    ensures kept { IsDesk desk.new }
    ensures ok { OnOk result (GoesTo desk.old (Event.Write desk.old.session cell value) desk.old.session stages.Pending desk.new) }
    ensures full { (limit : Limit) → result ≡ Err (BookFault.Full limit) → full_load desk.new.store.history.initial desk.new.store.history.events ≡ Some limit }
    ensures err { OnErr result (Stays desk.old desk.new) }
{
    let session = desk.session;
    append_write(&mut desk.store, session, cell, value)
}

/// Ends the pending transaction by a Commit.
pub fn commit_transaction(desk: &mut Desk)
    requires kept { IsDesk desk.old }
    requires pending { desk.old.stage ≡ stages.Pending }
    ensures kept { IsDesk desk.new }
    ensures adds { GoesTo desk.old (Event.Commit desk.old.session) desk.old.session stages.InSession desk.new }
{
    let session = desk.session;
    append_end(&mut desk.store, Event::Commit { session });
    desk.stage = Stage::InSession;
}

/// Ends the pending transaction by a Rollback.
pub fn roll_back_transaction(desk: &mut Desk)
    requires kept { IsDesk desk.old }
    requires pending { desk.old.stage ≡ stages.Pending }
    ensures kept { IsDesk desk.new }
    ensures adds { GoesTo desk.old (Event.Rollback desk.old.session) desk.old.session stages.InSession desk.new }
{
    let session = desk.session;
    append_end(&mut desk.store, Event::Rollback { session });
    desk.stage = Stage::InSession;
}

/// Tells the number of the event that tells it.
pub fn show_number(desk: &mut Desk) -> Result<u32, BookFault>
    requires kept { IsDesk desk.old }
    requires open { desk.old.stage ≢ stages.NoSession }
    ensures kept { IsDesk desk.new }
    ensures number { IfOk result (λ number. number ≡ length desk.new.store.history.events) }
    ensures ok { IfOk result (λ number. GoesTo desk.old (Event.Show desk.old.session number) desk.old.session desk.old.stage desk.new) }
    ensures full { (limit : Limit) → result ≡ Err (BookFault.Full limit) → full_load desk.new.store.history.initial desk.new.store.history.events ≡ Some limit }
    ensures err { OnErr result (Stays desk.old desk.new) }
{
    let number = desk.store.history.history().next_number();
    let session = desk.session;
    append(&mut desk.store, Event::Show { session, number })?;
    Ok(number)
}
