// Looks at the tables, and definitions.
ghost use Rattle.std.specs.Prelude.{◌≡◌, ◌≢◌, ◌<◌, ◌≤◌, ◌↔◌, length, Some, Err, IfOk, OnErr, IsTrue, Any, Contains};
ghost use Rattle.sql_tree.specs.declared.table.Table.{Table};
ghost use Rattle.sound_table.specs.Sound.{IsSound};
ghost use Rattle.history_core.specs.declared.fault.Limit.{Limit};
ghost use Rattle.history_core.specs.declared.fault.Limit.TheVariants as limits;
ghost use Rattle.history_core.specs.Events.{names};
ghost use Rattle.history_core.specs.Initial.{load_of};
ghost use Rattle.history_core.specs.Legal.{full_for, full_load};
ghost use Rattle.valid_writes.specs.declared.desk.Stage.TheVariants as stages;
ghost use Rattle.valid_writes.specs.Desk.{IsDesk, GoesTo, LooksTo, DefinesTo, AnswersTo, Stays};

use crate::append::{append, append_define};
use crate::desk::Desk;
use crate::kept::{load, tables};
use cell_base::{Items, Memory, Text};
use history_core::{BookFault, DefineAnswer, Event, Limit};
use sql_tree::Table;
use std::alloc::Global;

fn copy_tables(alloc: Global, tables: &[Table]) -> Result<Items<Table>, Memory>
    ensures { IfOk result (λ items. items ≡ tables.now) }
{
    let mut copies = Items::new(alloc);
    for table in tables {
        copies.push(table.copy(alloc)?)?;
    }
    Ok(copies)
}

/// Whether a table has the name.
fn is_taken(tables: &[Table], name: &Text) -> bool
    ensures { IsTrue result ↔ Any (λ (t : Table). t.name ≡ name.now) tables.now }
{
    tables.iter().any(|table| table.name.is_same(name))
}

/// Adds a look, and answers the number of the tables.
fn append_look(desk: &mut Desk) -> Result<u32, BookFault>
    requires kept { IsDesk desk.old }
    requires open { desk.old.stage ≢ stages.NoSession }
    ensures kept { IsDesk desk.new }
    ensures count { IfOk result (λ n. n ≡ length desk.old.store.history.tables) }
    ensures ok { IfOk result (λ n. GoesTo desk.old (Event.Look desk.old.session n) desk.old.session desk.old.stage desk.new) }
    ensures full { (limit : Limit) → result ≡ Err (BookFault.Full limit) → full_load desk.new.store.history.initial desk.new.store.history.events ≡ Some limit }
    ensures err { OnErr result (Stays desk.old desk.new) }
{
    let count = tables(&desk.store).len() as u32;
    let session = desk.session;
    let event = Event::Look {
        session,
        tables: count,
    };
    append(&mut desk.store, event)?;
    Ok(count)
}

/// Looks at the tables, and answers those from the known number on.
pub fn look_at_tables(desk: &mut Desk, known: u32) -> Result<Items<Table>, BookFault>
    requires kept { IsDesk desk.old }
    requires open { desk.old.stage ≢ stages.NoSession }
    requires known { known ≤ length desk.old.store.history.tables }
    ensures kept { IsDesk desk.new }
    ensures ok { IfOk result (λ tables. LooksTo desk.old known tables desk.new) }
    ensures full { (limit : Limit) → result ≡ Err (BookFault.Full limit) → full_load desk.new.store.history.initial desk.new.store.history.events ≡ Some limit }
    ensures err { OnErr result (Stays desk.old desk.new) }
{
    if load(&desk.store) >= 1_048_576 {
        return Err(BookFault::Full(Limit::Load));
    }
    let Ok(tables) = copy_tables(desk.store.alloc, &tables(&desk.store)[known as usize..]) else {
        return Err(BookFault::Memory);
    };
    match append_look(desk) {
        Ok(_) => Ok(tables),
        Err(fault) => Err(fault),
    }
}

/// Defines a table whose name isn't taken, where the load leaves room, and answers its number.
fn append_table(desk: &mut Desk, table: &Table) -> Result<u32, BookFault>
    requires kept { IsDesk desk.old }
    requires open { desk.old.stage ≢ stages.NoSession }
    requires sound { IsSound table.now }
    requires untaken { ¬ Contains (names desk.old.store.history.events) table.now.name }
    requires load { load_of desk.old.store.history.initial desk.old.store.history.events < 1048576 }
    ensures kept { IsDesk desk.new }
    ensures count { IfOk result (λ n. n ≡ length desk.old.store.history.tables) }
    ensures ok { IfOk result (λ n. DefinesTo desk.old table.now desk.new) }
    ensures full { (limit : Limit) → result ≡ Err (BookFault.Full limit) → full_for desk.new.store.history.initial desk.new.store.history.events (Event.Define 0 table.now.name) ≡ Some limit }
    ensures err { OnErr result (Stays desk.old desk.new) }
{
    let count = tables(&desk.store).len() as u32;
    if count >= 64 {
        return Err(BookFault::Full(Limit::Tables));
    }
    let Ok(copy) = table.copy(desk.store.alloc) else {
        return Err(BookFault::Memory);
    };
    let session = desk.session;
    match append_define(&mut desk.store, session, copy) {
        Ok(()) => Ok(count),
        Err(fault) => Err(fault),
    }
}

/// Defines a table, or looks where its name is taken.
pub fn define_table(desk: &mut Desk, table: &Table) -> Result<DefineAnswer, BookFault>
    requires kept { IsDesk desk.old }
    requires open { desk.old.stage ≢ stages.NoSession }
    requires sound { IsSound table.now }
    ensures kept { IsDesk desk.new }
    ensures ok { IfOk result (λ answer. AnswersTo desk.old table.now answer desk.new) }
    ensures full { (limit : Limit) → result ≡ Err (BookFault.Full limit) → full_for desk.new.store.history.initial desk.new.store.history.events (Event.Define 0 table.now.name) ≡ Some limit }
    ensures load_first { (limit : Limit) → limit ≢ limits.Load → result ≡ Err (BookFault.Full limit) → ¬ Contains (names desk.new.store.history.events) table.now.name }
    ensures err { OnErr result (Stays desk.old desk.new) }
{
    if load(&desk.store) >= 1_048_576 {
        return Err(BookFault::Full(Limit::Load));
    }
    if is_taken(tables(&desk.store), &table.name) {
        return match append_look(desk) {
            Ok(count) => Ok(DefineAnswer::Taken(count)),
            Err(fault) => Err(fault),
        };
    }
    match append_table(desk, table) {
        Ok(count) => Ok(DefineAnswer::Defined(count)),
        Err(fault) => Err(fault),
    }
}
