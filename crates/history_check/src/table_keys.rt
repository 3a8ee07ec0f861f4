// The keys of each table whose presence was written.
ghost use Rattle.std.specs.Prelude.{◌≡◌, [], ℕ, List, Contains, IfSome, IfNone, OnOk, OnErr};
ghost use Rattle.cell_base.specs.declared.cell.Cell.{Cell as CellValue};
ghost use Rattle.cell_base.specs.declared.value.Value.{Value as ValueOf};
ghost use Rattle.indexed_history.specs.Keys.{GainsKey};
ghost use Rattle.history_check.specs.TableKeys.{keys_at, KeepsKeys, IsKept, AreKept};

use cell_base::{Cell, Key, Memory, Value};
use std::alloc::Global;
use std::collections::btree_set::Iter;
use std::collections::{BTreeSet, HashMap};
use std::marker::Model;

/// Keys in ascending order, each once. Contracts see the list of them.
#[derive(Debug, Drop)]
pub struct Keys {
    keys: BTreeSet<Key>,
}

impl Model for Keys {
    ghost use Rattle.std.specs.Prelude.{List};
    ghost use Rattle.cell_base.specs.declared.key.Key.{Key};

    ghost Value = { List Key };

    ghost view = { λ k. k.keys.keys };
}

impl Keys {
    /// No key. Takes no memory.
    fn new(alloc: Global) -> Keys
        ensures { result ≡ [] }
    {
        Keys {
            keys: BTreeSet::new(alloc),
        }
    }

    /// Puts a key in its place, where it isn't there yet. Out of memory nothing changes.
    fn insert(&mut self, key: Key) -> Result<(), Memory>
        ensures ok { OnOk result (GainsKey self.old key self.new) }
        ensures err { OnErr result (self.new ≡ self.old) }
    {
        self.keys.insert(key)?;
        Ok(())
    }

    /// The keys, ascending.
    pub fn iter(&self) -> Iter<'_, Key>
        ensures { result ≡ self.now }
    {
        self.keys.iter()
    }
}

/// For each table the keys whose presence was noted. A key is put in by a search of the table's tree.
#[derive(Debug, Drop)]
pub struct TableKeys {
    pub alloc: Global,
    pub tables: HashMap<u32, Keys>,
}

/// No key. Takes no memory.
pub fn new_keys(alloc: Global) -> TableKeys
    ensures { (table : ℕ) → keys_at result table ≡ [] }
{
    TableKeys {
        alloc,
        tables: HashMap::new(alloc),
    }
}

/// Notes one key at a table that has none.
fn start_keys(keys: &mut TableKeys, table: u32, key: Key) -> Result<(), Memory>
    requires { keys_at keys.old table ≡ [] }
    ensures kept { KeepsKeys keys.old keys.new }
    ensures noted { OnOk result (Contains (keys_at keys.new table) key) }
{
    let mut first = Keys::new(keys.alloc);
    first.insert(key)?;
    keys.tables.insert(table, first)?;
    Ok(())
}

/// Notes the key at its table.
fn add_key(keys: &mut TableKeys, table: u32, key: Key) -> Result<(), Memory>
    ensures kept { KeepsKeys keys.old keys.new }
    ensures noted { OnOk result (Contains (keys_at keys.new table) key) }
{
    match keys.tables.get_mut(&table) {
        Some(list) => list.insert(key),
        None => start_keys(keys, table, key),
    }
}

/// Notes the key of a presence at its table. A field has none to note.
pub fn note_key(keys: &mut TableKeys, cell: &Cell) -> Result<(), Memory>
    ensures kept { KeepsKeys keys.old keys.new }
    ensures noted { OnOk result (IsKept keys.new cell.now) }
{
    match cell {
        Cell::Presence(table, key) => {
            let copy = key.copy(keys.alloc)?;
            add_key(keys, *table, copy)
        }
        Cell::Field(_, _, _) => Ok(()),
    }
}

/// Notes the keys of all presences among the cells.
pub fn note_keys(keys: &mut TableKeys, cells: &[(Cell, Value)]) -> Result<(), Memory>
    ensures kept { KeepsKeys keys.old keys.new }
    ensures noted { OnOk result (AreKept keys.new cells.now) }
{
    for entry in cells {
        note_key(keys, &entry.0)?;
    }
    Ok(())
}

/// The keys that are noted of the table. `None` where there is none.
pub fn keys_of(keys: &TableKeys, table: u32) -> Option<&Keys>
    ensures some { IfSome result (λ list. list.now ≡ keys_at keys.now table) }
    ensures none { IfNone result (keys_at keys.now table ≡ []) }
{
    keys.tables.get(&table)
}
