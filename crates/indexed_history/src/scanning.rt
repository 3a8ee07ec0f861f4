// What a scan lists: the keys of a table whose row is there from the start, whose presence has a committed writer, or that the
// pending transaction wrote.
ghost use Rattle.std.specs.Prelude.{◌≡◌, ◌↔◌, ◌<◌, ℕ, true, IsTrue, IfOk, OnOk, Contains};
ghost use Rattle.cell_base.specs.declared.key.Key.{Key as KeyValue};
ghost use Rattle.history_core.specs.Initial.{IsInitialState};
ghost use Rattle.history_core.specs.Legal.{ListsKeys};
ghost use Rattle.history_core.specs.Legal.{IsKeyList};
ghost use Rattle.indexed_history.specs.Parts.{AreIndexed};
ghost use Rattle.indexed_history.specs.Keys.{IsListed, AreListed, ListsNext};

use crate::index::numbers_of;
use crate::keys::{Keys, keys_of};
use crate::parts::Parts;
use crate::records::{any_committed, wrote_itself};
use cell_base::{Cell, Items, Key, Memory, Value};
use history_core::InitialState;
use std::alloc::Global;

/// Whether the value says that a row is there.
fn is_true(value: &Value) -> bool
    ensures { IsTrue result ↔ (value.now ≡ Value.Flag true) }
{
    matches!(value, Value::Flag(true))
}

/// Whether the cell is true in the initial state.
fn is_there(initial: &InitialState, cell: &Cell) -> bool
    requires { IsInitialState initial.now }
    ensures { IsTrue result ↔ Contains initial.now (cell.now, Value.Flag true) }
{
    match initial.value(cell) {
        Some(value) => is_true(value),
        None => false,
    }
}

/// Whether a scan lists the key of the presence cell.
fn is_listed(parts: &Parts, session: u32, cell: &Cell) -> bool
    requires indexed { AreIndexed parts.now }
    requires initial { IsInitialState parts.now.history.initial }
    ensures { IsTrue result ↔ IsListed parts.now.history.initial parts.now.history.events session cell.now }
{
    if any_committed(&parts.history, numbers_of(&parts.index, cell)) {
        return true;
    }
    if is_there(parts.history.initial(), cell) {
        return true;
    }
    wrote_itself(&parts.history, session, cell)
}

/// The key of the cell.
fn key_of(cell: Cell) -> Key
    ensures { (table : ℕ) (key : KeyValue) → cell ≡ Cell.Presence table key → result ≡ key }
{
    match cell {
        Cell::Presence(_, key) => key,
        Cell::Field(_, key, _) => key,
    }
}

/// Puts a key after the others, where a scan lists it.
fn add_listed(
    alloc: Global,
    parts: &Parts,
    session: u32,
    table: u32,
    key: &Key,
    listed: &mut Items<Key>,
) -> Result<(), Memory>
    requires indexed { AreIndexed parts.now }
    requires initial { IsInitialState parts.now.history.initial }
    ensures { OnOk result (ListsNext parts.now.history.initial parts.now.history.events session table key.now listed.old listed.new) }
{
    let cell = Cell::Presence(table, key.copy(alloc)?);
    if is_listed(parts, session, &cell) {
        listed.push(key_of(cell))?;
    }
    Ok(())
}

/// Those of the keys that a scan lists.
fn listed_among(
    alloc: Global,
    parts: &Parts,
    session: u32,
    table: u32,
    keys: &Keys,
) -> Result<Items<Key>, Memory>
    requires indexed { AreIndexed parts.now }
    requires initial { IsInitialState parts.now.history.initial }
    ensures { IfOk result (λ listed. AreListed parts.now.history.initial parts.now.history.events session table keys.now listed) }
{
    let mut listed = Items::new(alloc);
    for key in keys.iter() {
        add_listed(alloc, parts, session, table, key, &mut listed)?;
    }
    Ok(listed)
}

/// The keys that a scan of the table lists. It looks at each key of the table once, and at no event. As many as 2 ^ 32 keys are
/// refused as out of memory, which the load never lets come.
pub fn listed_keys(
    alloc: Global,
    parts: &Parts,
    session: u32,
    table: u32,
) -> Result<Items<Key>, Memory>
    requires indexed { AreIndexed parts.now }
    requires initial { IsInitialState parts.now.history.initial }
    ensures lists { IfOk result (λ keys. ListsKeys parts.now.history.initial parts.now.history.events session table keys) }
    ensures listed { IfOk result IsKeyList }
{
    let Some(keys) = keys_of(&parts.keys, table) else {
        return Ok(Items::new(alloc));
    };
    let listed = listed_among(alloc, parts, session, table, keys)?;
    if listed.len() >= 4_294_967_296 {
        return Err(Memory);
    }
    Ok(listed)
}
