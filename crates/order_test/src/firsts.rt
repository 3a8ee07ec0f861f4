// The keys of each table whose presence the transactions of a session wrote, each with the first of them that did.
ghost use Rattle.std.specs.Prelude.{◌≡◌, ◌<◌, ◌∷◌, ◌++◌, [], ℕ, IsTrue, OnOk, OnErr, length};
ghost use Rattle.cell_writers.specs.Writers.{numbers_at};
ghost use Rattle.order_test.specs.Firsts.{firsts_at, AreRising, HasUpTo, KeepsFirsts, AreUpTo, HoldListed, HasWritten, NotesFirsts, IsRising, AreAllRising, AreRisingInAll, ListsUpTo, SessionIsListed};

use crate::rivals::contains_key;
use cell_base::{Cell, Key, Memory, Value};
use cell_writers::{CellWriters, writers_at};
use std::alloc::Global;
use std::collections::HashMap;
use std::marker::Model;

/// Keys, each with the number of a transaction. Contracts see the pairs of them.
#[derive(Debug, Drop)]
pub struct Firsts {
    pairs: Vec<(u32, Key)>,
}

impl Model for Firsts {
    ghost use Rattle.std.specs.Prelude.{List, ℕ};
    ghost use Rattle.cell_base.specs.declared.key.Key.{Key};

    ghost Value = { List (ℕ × Key) };

    ghost view = { λ f. f.pairs.items };
}

impl Firsts {
    /// No key. Takes no memory.
    fn new(alloc: Global) -> Firsts
        ensures { result ≡ [] }
    {
        Firsts {
            pairs: Vec::new(alloc),
        }
    }

    /// The keys with their numbers.
    pub fn as_slice(&self) -> &[(u32, Key)]
        ensures { result.now ≡ self.now }
    {
        self.pairs.as_slice()
    }

    /// Puts a key with its number after the others. Out of memory nothing changes.
    fn push(&mut self, number: u32, key: Key) -> Result<(), Memory>
        ensures ok { OnOk result (self.new ≡ self.old ++ (number, key) ∷ []) }
        ensures err { OnErr result (self.new ≡ self.old) }
    {
        self.pairs.push((number, key))?;
        Ok(())
    }
}

/// For each table the keys whose presence the transactions of a session wrote, by the first of these that wrote it.
#[derive(Debug, Drop)]
pub struct TableFirsts {
    pub alloc: Global,
    pub tables: HashMap<u32, Firsts>,
}

/// No key. Takes no memory.
pub fn new_firsts(alloc: Global) -> TableFirsts
    ensures { (table : ℕ) → firsts_at result table ≡ [] }
{
    TableFirsts {
        alloc,
        tables: HashMap::new(alloc),
    }
}

/// Notes one key at a table that has none.
fn start_key(firsts: &mut TableFirsts, table: u32, key: Key, number: u32) -> Result<(), Memory>
    requires { firsts_at firsts.old table ≡ [] }
    ensures rising { AreRising firsts.old number → AreRising firsts.new number }
    ensures kept { KeepsFirsts firsts.old firsts.new }
    ensures noted { OnOk result (HasUpTo (firsts_at firsts.new table) key number) }
{
    let mut first = Firsts::new(firsts.alloc);
    first.push(number, key)?;
    firsts.tables.insert(table, first)?;
    Ok(())
}

/// Notes a key at its table. The numbers don't fall, where this one isn't below those noted before.
pub fn note_key(firsts: &mut TableFirsts, table: u32, key: Key, number: u32) -> Result<(), Memory>
    ensures rising { AreRising firsts.old number → AreRising firsts.new number }
    ensures kept { KeepsFirsts firsts.old firsts.new }
    ensures noted { OnOk result (HasUpTo (firsts_at firsts.new table) key number) }
{
    match firsts.tables.get_mut(&table) {
        Some(list) => list.push(number, key),
        None => start_key(firsts, table, key, number),
    }
}

/// Whether a number is noted at the cell.
fn is_noted(writers: &CellWriters, cell: &Cell) -> bool
    ensures { IsTrue result → ¬ (length (numbers_at writers.now cell.now) ≡ 0) }
{
    !writers_at(writers, cell).is_empty()
}

/// Notes the key of a presence that a transaction wrote, where none of its session wrote it before.
fn note_first(
    firsts: &mut TableFirsts,
    writers: &CellWriters,
    cell: &Cell,
    number: u32,
) -> Result<(), Memory>
    requires rising { AreRising firsts.old number }
    requires listed { HoldListed writers.now firsts.old }
    requires up { AreUpTo writers.now number }
    ensures rising { AreRising firsts.new number }
    ensures kept { KeepsFirsts firsts.old firsts.new }
    ensures noted { OnOk result (HasWritten firsts.new cell.now number) }
{
    match cell {
        Cell::Presence(table, key) => {
            if is_noted(writers, cell) {
                return Ok(());
            }
            let key = key.copy(firsts.alloc)?;
            note_key(firsts, *table, key, number)
        }
        Cell::Field(..) => Ok(()),
    }
}

/// Notes the keys of all presences that a transaction wrote, where none of its session wrote them before.
pub fn note_firsts(
    firsts: &mut TableFirsts,
    writers: &CellWriters,
    writes: &[(Cell, Value)],
    number: u32,
) -> Result<(), Memory>
    requires rising { AreRising firsts.old number }
    requires listed { HoldListed writers.now firsts.old }
    requires up { AreUpTo writers.now number }
    ensures { OnOk result (NotesFirsts writes.now number firsts.old firsts.new) }
{
    for at in 0..writes.len() {
        note_first(firsts, writers, &writes[at].0, number)?;
    }
    Ok(())
}

/// Whether each of the keys up to the number is listed.
fn lists_up_to(pairs: &[(u32, Key)], keys: &[Key], top: u32) -> bool
    requires { IsRising pairs.now }
    ensures { IsTrue result → ListsUpTo pairs.now keys.now top }
{
    for at in 0..pairs.len() {
        if pairs[at].0 > top {
            return true;
        }
        if !contains_key(keys, &pairs[at].1) {
            return false;
        }
    }
    true
}

/// The same of the keys of a table.
fn table_is_listed(firsts: &TableFirsts, table: u32, keys: &[Key], top: u32) -> bool
    requires { AreAllRising firsts.now }
    ensures { IsTrue result → ListsUpTo (firsts_at firsts.now table) keys.now top }
{
    match firsts.tables.get(&table) {
        Some(list) => lists_up_to(list.as_slice(), keys, top),
        None => true,
    }
}

/// The same of the keys of a table in a session.
pub fn session_is_listed(
    all: &[TableFirsts],
    session: usize,
    table: u32,
    keys: &[Key],
    top: u32,
) -> bool
    requires rising { AreRisingInAll all.now }
    requires within { session < length all.now }
    ensures { IsTrue result → SessionIsListed all.now session table keys.now top }
{
    table_is_listed(&all[session], table, keys, top)
}
