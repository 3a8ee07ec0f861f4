// The keys at which the entries of a SELECT are read.
ghost use Rattle.std.specs.Prelude.{◌≡◌, ◌<◌, ◌^◌, ◌==◌, None, IfOk, if◌then◌else◌, length};
ghost use Rattle.std.specs.Option.{option_map};
ghost use Rattle.typing_rules.specs.Points as points;
ghost use Rattle.typing_rules.specs.Select as spec;
ghost use Rattle.select_typing.specs.Entries as shown;

use crate::from::FromEntry;
use cell_base::{Items, Key, Memory};
use sql_tree::TypedExpr;
use std::alloc::Global;
use typing_parts::point_of;

/// How often a table stands in FROM.
fn times_mentioned(entries: &[FromEntry<'_>], number: u32) -> usize
    requires { length entries.now < 2 ^ 32 }
    ensures { result ≡ spec.times_mentioned number (shown.entries entries.now) }
{
    let mut times = 0;
    for entry in entries {
        if entry.found.number == number {
            times += 1;
        }
    }
    times
}

/// The key of an entry whose table stands once in FROM.
fn entry_point(
    alloc: Global,
    entries: &[FromEntry<'_>],
    filter: Option<&TypedExpr>,
    at: u32,
    entry: &FromEntry<'_>,
) -> Result<Option<Key>, Memory>
    requires { length entries.now < 2 ^ 32 }
    ensures { IfOk result (λ key. key ≡ (if spec.times_mentioned entry.now.found.number (shown.entries entries.now) == 1
        then points.point_of at entry.now.found.table.now.key (option_map (λ f. f.now) filter.entry) else None)) }
{
    if times_mentioned(entries, entry.found.number) == 1 {
        point_of(alloc, filter, at, entry.found.table.key)
    } else {
        Ok(None)
    }
}

/// For each entry the key at which it is read, where it isn't scanned.
pub fn points_of(
    alloc: Global,
    entries: &[FromEntry<'_>],
    filter: Option<&TypedExpr>,
) -> Result<Items<Option<Key>>, Memory>
    requires { length entries.now < 2 ^ 32 }
    ensures { IfOk result (λ all. all
        ≡ spec.points_from (shown.entries entries.now) (option_map (λ f. f.now) filter.entry) 0 (shown.entries entries.now)) }
{
    let mut all = Items::new(alloc);
    for (at, entry) in entries.iter().enumerate() {
        all.push(entry_point(alloc, entries, filter, at as u32, entry)?)?;
    }
    Ok(all)
}
