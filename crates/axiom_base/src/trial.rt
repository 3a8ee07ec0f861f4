// The pairs that a further read of a pending transaction forces.
ghost use Rattle.std.specs.Prelude.{◌≡◌, ◌<◌, ◌≤◌, ◌+◌, ◌↔◌, ◌⊎◌, ℕ, Any, IsTrue, IfOk, OnOk, length, Contains};
ghost use Rattle.std.specs.List.Sorted.{IsStrictlyIncreasing};
ghost use Rattle.cell_base.specs.declared.level.Level.{Level};
ghost use Rattle.history_core.specs.Events.{begun};
ghost use Rattle.history_core.specs.Relations.{Writes};
ghost use Rattle.history_core.specs.Records.{Saw};
ghost use Rattle.saturation.specs.Views.{source_of};
ghost use Rattle.axiom_base.specs.Axioms.{IsUnderway, AreTrialAt};
ghost use Rattle.axiom_base.specs.Sights.{IsSight, IsSightWith, IsDemandedBy, IsDemandedOf, IsTrialIn, IsTarget, AreAllWith, AreGathered, IsFirstBelow};

use crate::reads::{is_rival, number, source};
use crate::sight::{Sight, sees};
use cell_base::{Cell, Memory};
use graph_base::Edge;
use history_core::{History, Seen};
use std::alloc::Global;

/// A further read of a pending transaction.
#[derive(Debug, Drop)]
struct FurtherRead {
    /// The transaction.
    reader: u32,
    /// The read, as the record of the transaction would show it.
    seen: Seen,
}

/// Whether the read, from the second, sees the first, which writes a cell that it gave.
fn is_demanded_by(history: &History, sight: &Sight, seen: &Seen, first: u32, second: u32) -> bool
    requires size { length sight.now.since.items ≡ begun history.now.events + 1 }
    requires first { first ≤ begun history.now.events }
    ensures { IsTrue result ↔ IsDemandedBy history.now.events sight.now.since.items seen.now first second }
{
    if second != source(seen) {
        return false;
    }
    sees(sight, number(seen), first) && is_rival(history, seen, first)
}

/// Whether one of these reads demands the pair.
fn demand_one(history: &History, sight: &Sight, all: &[Seen], first: u32, second: u32) -> bool
    requires size { length sight.now.since.items ≡ begun history.now.events + 1 }
    requires first { first ≤ begun history.now.events }
    ensures { IsTrue result ↔ Any (λ s. IsDemandedBy history.now.events sight.now.since.items s first second) all.now }
{
    all.iter()
        .any(|seen| is_demanded_by(history, sight, seen, first, second))
}

/// Whether one of the reads of the reader demands the pair.
fn is_demanded(history: &History, sight: &Sight, reader: u32, first: u32, second: u32) -> bool
    requires some { 0 < reader }
    requires reader { reader ≤ begun history.now.events }
    requires size { length sight.now.since.items ≡ begun history.now.events + 1 }
    requires first { first ≤ begun history.now.events }
    ensures { IsTrue result ↔ IsDemandedOf history.now.events reader sight.now.since.items first second }
{
    demand_one(
        history,
        sight,
        history.txn(reader).seen.as_slice(),
        first,
        second,
    )
}

/// Whether the pair is demanded with the further read.
fn is_demanded_with(
    history: &History,
    sight: &Sight,
    read: &FurtherRead,
    first: u32,
    second: u32,
) -> bool
    requires some { 0 < read.now.reader }
    requires reader { read.now.reader ≤ begun history.now.events }
    requires size { length sight.now.since.items ≡ begun history.now.events + 1 }
    requires first { first ≤ begun history.now.events }
    ensures { IsTrue result ↔ (IsDemandedOf history.now.events read.now.reader sight.now.since.items first second
        ⊎ IsDemandedBy history.now.events sight.now.since.items read.now.seen first second) }
{
    is_demanded(history, sight, read.reader, first, second)
        || is_demanded_by(history, sight, &read.seen, first, second)
}

/// Whether the further read forces the pair: as its source and its reader, or since it is demanded with the read and wasn't before.
fn is_forced(
    history: &History,
    read: &FurtherRead,
    before: &Sight,
    after: &Sight,
    first: u32,
    second: u32,
) -> bool
    requires some { 0 < read.now.reader }
    requires reader { read.now.reader ≤ begun history.now.events }
    requires before { length before.now.since.items ≡ begun history.now.events + 1 }
    requires after { length after.now.since.items ≡ begun history.now.events + 1 }
    requires first { first ≤ begun history.now.events }
    ensures { IsTrue result ↔ IsTrialIn history.now.events read.now.reader read.now.seen before.now.since.items after.now.since.items first second }
{
    if first == source(&read.seen) && second == read.reader {
        return true;
    }
    is_demanded_with(history, after, read, first, second)
        && !is_demanded(history, before, read.reader, first, second)
}

/// Whether one of these reads is from the transaction.
fn has_source(all: &[Seen], number: u32) -> bool
    ensures { IsTrue result ↔ Any (λ s. number ≡ source_of s) all.now }
{
    all.iter().any(|seen| number == source(seen))
}

/// Whether the transaction is the reader, or one of the reader's reads is from it, the further one included.
fn is_target(history: &History, read: &FurtherRead, number: u32) -> bool
    requires some { 0 < read.now.reader }
    requires reader { read.now.reader ≤ begun history.now.events }
    requires number { number ≤ begun history.now.events }
    ensures { IsTrue result ↔ IsTarget history.now.events read.now.reader read.now.seen number }
{
    if number == read.reader || number == source(&read.seen) {
        return true;
    }
    has_source(history.txn(read.reader).seen.as_slice(), number)
}

/// The second numbers of the pairs that the further read may force, ascending.
fn targets(alloc: Global, history: &History, read: &FurtherRead) -> Result<Vec<u32>, Memory>
    requires some { 0 < read.now.reader }
    requires reader { read.now.reader ≤ begun history.now.events }
    ensures { IfOk result (λ numbers. AreAllWith (IsTarget history.now.events read.now.reader read.now.seen) numbers.items) }
{
    let mut numbers = Vec::new(alloc);
    for number in 0..history.begun() + 1 {
        if is_target(history, read, number) {
            numbers.push(number)?;
        }
    }
    Ok(numbers)
}

/// Adds the pairs of the first number that the further read forces.
fn add_pairs(
    history: &History,
    read: &FurtherRead,
    before: &Sight,
    after: &Sight,
    first: u32,
    seconds: &[u32],
    edges: &mut Vec<Edge>,
) -> Result<(), Memory>
    requires some { 0 < read.now.reader }
    requires reader { read.now.reader ≤ begun history.now.events }
    requires before { length before.now.since.items ≡ begun history.now.events + 1 }
    requires after { length after.now.since.items ≡ begun history.now.events + 1 }
    requires first { first ≤ begun history.now.events }
    requires ascending { IsStrictlyIncreasing seconds.now }
    requires reached { (second : ℕ) → IsTrialIn history.now.events read.now.reader read.now.seen before.now.since.items after.now.since.items first second →
        Contains seconds.now second }
    requires gathered { AreGathered (IsTrialIn history.now.events read.now.reader read.now.seen before.now.since.items after.now.since.items)
        (IsFirstBelow first) edges.old.items }
    ensures { OnOk result (AreGathered (IsTrialIn history.now.events read.now.reader read.now.seen before.now.since.items after.now.since.items)
        (IsFirstBelow (first + 1)) edges.new.items) }
{
    for number in seconds {
        let second = *number;
        if is_forced(history, read, before, after, first, second) {
            edges.push(Edge {
                before: first,
                after: second,
            })?;
        }
    }
    Ok(())
}

/// The pairs that a further read of the cell from the source forces, each once, ascending: the source before the reader, and what the reader
/// demands with it and didn't demand before. By `before` its reads see without that read, by `after` with it.
pub fn trial_by(
    alloc: Global,
    history: &History,
    reader: u32,
    cell: &Cell,
    source: u32,
    before: &Sight,
    after: &Sight,
) -> Result<Vec<Edge>, Memory>
    requires pending { IsUnderway history.now.events reader }
    requires writes { Writes history.now.events source cell.now }
    requires before { length before.now.since.items ≡ begun history.now.events + 1 }
    requires after { length after.now.since.items ≡ begun history.now.events + 1 }
    ensures { IfOk result (λ edges. (level : Level) → IsSight level history.now.events reader before.now.since.items →
        IsSightWith level history.now.events reader cell.now source after.now.since.items → AreTrialAt level history.now.events reader cell.now source edges.items) }
{
    let _events = history.events();
    let read = FurtherRead {
        reader,
        seen: Seen::Read {
            number: history.next_number(),
            cell: cell.copy(alloc)?,
            source,
        },
    };
    let seconds = targets(alloc, history, &read)?;
    let mut edges = Vec::new(alloc);
    for first in 0..history.begun() + 1 {
        add_pairs(history, &read, before, after, first, &seconds, &mut edges)?;
    }
    Ok(edges)
}
