// The entries of FROM.
ghost use Rattle.std.specs.Prelude.{◌≡◌, ◌++◌, [], ◌∷◌, Ok, IfOk, map};
ghost use Rattle.std.specs.List.{list_any};
ghost use Rattle.std.specs.Str.{bytes_eq};
ghost use Rattle.typing_rules.specs.Outcome.{and_then};
ghost use Rattle.typing_rules.specs.Select as spec;
ghost use Rattle.typing_parts.specs.Narrow.{AreFewAndNarrow};
ghost use Rattle.select_typing.specs.Entries as shown;
ghost use Rattle.typing_rules.specs.Gives.{GivesBy};

use cell_base::{Items, Memory, SqlFault, SqlState, Text};
use expr_typing::Entry;
use sql_tree::{Table, TableRef};
use std::alloc::Global;
use typing_parts::{TableAt, table_named};

/// The most entries of FROM.
const MAX_ENTRIES: usize = 4;

/// An entry of FROM: the name by which it is seen, and its table.
#[derive(Clone, Copy, Debug)]
pub struct FromEntry<'a> {
    pub name: &'a Text,
    pub found: TableAt<'a>,
}

/// Whether an entry is seen by this name.
fn is_seen(entries: &[FromEntry<'_>], name: &Text) -> bool
    ensures { result ≡ list_any (λ (e : spec.Entry). bytes_eq e.name name.now) (shown.entries entries.now) }
{
    for entry in entries {
        if entry.name.as_str() == name.as_str() {
            return true;
        }
    }
    false
}

/// The alias, else the table's name.
fn name_of<'a>(table: &'a TableRef) -> &'a Text
    ensures { result.now ≡ spec.name_or table.now.name table.now.alias }
{
    match &table.alias {
        Some(alias) => alias,
        None => &table.name,
    }
}

/// An entry after those that stand before.
fn entry_of<'a>(
    tables: &'a [Table],
    before: &[FromEntry<'a>],
    written: &'a TableRef,
) -> Result<FromEntry<'a>, SqlState>
    requires { AreFewAndNarrow tables.now }
    ensures { shown.entry_or result ≡ shown.entry_of tables.now (shown.entries before.now) written.now }
{
    let found = table_named(tables, &written.name)?;
    let name = name_of(written);
    if is_seen(before, name) {
        return Err(SqlState::S42712);
    }
    Ok(FromEntry { name, found })
}

fn with_entry<'a>(
    before: Items<FromEntry<'a>>,
    tables: &'a [Table],
    written: &'a TableRef,
) -> Result<Items<FromEntry<'a>>, SqlFault>
    requires { AreFewAndNarrow tables.now }
    ensures { GivesBy shown.entries
        (and_then (shown.entry_of tables.now (shown.entries before.entry) written.now) (λ e. Ok (shown.entries before.entry ++ e ∷ []))) result }
{
    let entry = entry_of(tables, before.as_slice(), written)?;
    let mut all = before;
    all.push(entry)?;
    Ok(all)
}

fn entries_from<'a>(
    alloc: Global,
    tables: &'a [Table],
    from: &'a [TableRef],
) -> Result<Items<FromEntry<'a>>, SqlFault>
    requires { AreFewAndNarrow tables.now }
    ensures { GivesBy shown.entries (spec.entries_from tables.now [] from.now) result }
{
    let mut entries = Items::new(alloc);
    for written in from {
        entries = with_entry(entries, tables, written)?;
    }
    Ok(entries)
}

/// The entries of FROM, from left to right: too many, an unknown table, or a name that stands twice.
#[tactic(auto, unfolding(typing_rules::specs::Select::entries_of))]
pub fn entries_of<'a>(
    alloc: Global,
    tables: &'a [Table],
    from: &'a [TableRef],
) -> Result<Items<FromEntry<'a>>, SqlFault>
    requires { AreFewAndNarrow tables.now }
    ensures { GivesBy shown.entries (spec.entries_of tables.now from.now) result }
{
    if from.len() > MAX_ENTRIES {
        return Err(SqlFault::State(SqlState::S54000));
    }
    entries_from(alloc, tables, from)
}

/// The entries as names are looked up in them.
pub fn scope_of<'a>(alloc: Global, entries: &[FromEntry<'a>]) -> Result<Items<Entry<'a>>, Memory>
    ensures { IfOk result (λ scope. scope ≡ map shown.seen entries.now) }
{
    let mut scope = Items::new(alloc);
    for entry in entries {
        scope.push(Entry {
            name: entry.name,
            table: entry.found.table,
        })?;
    }
    Ok(scope)
}

/// The numbers of the entries' tables.
pub fn numbers_of(alloc: Global, entries: &[FromEntry<'_>]) -> Result<Items<u32>, Memory>
    ensures { IfOk result (λ numbers. numbers ≡ map (λ (e : spec.Entry). e.found.number) (shown.entries entries.now)) }
{
    let mut numbers = Items::new(alloc);
    for entry in entries {
        numbers.push(entry.found.number)?;
    }
    Ok(numbers)
}
