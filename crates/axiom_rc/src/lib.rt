//! The axiom of Read Committed by plain lists: what a read sees, and what a further read forces, whatever level the reader runs at.
//!
//! At Read Committed a read sees the transactions that earlier reads of its own transaction were from. `visible` lists them, and `trial` lists the
//! pairs that a further read forces on each commit order. A scan is a read from the initial transaction, since there is always a key that it
//! doesn't list. These are slow programs for readers and tests; the store decides by rows of bits.
#![tactic(auto)]

ghost use Rattle.std.specs.Prelude.{◌≡◌, ◌≤◌, ◌<◌, ◌↔◌, ◌⊎◌, ℕ, None, IfOk, length, replicate};
ghost use Rattle.cell_base.specs.declared.level.Level.TheVariants.{Rc};
ghost use Rattle.history_core.specs.Events.{begun};
ghost use Rattle.history_core.specs.Relations.{Writes};
ghost use Rattle.saturation.specs.Views.{source_of};
ghost use Rattle.axiom_base.specs.Axioms.{IsUnderway, AreVisibleAt, AreTrialAt};
ghost use Rattle.axiom_base.specs.Sights.{IsAfter, IsSight};
ghost use Rattle.axiom_rc.specs.Notes.{Notes};

use axiom_base::{Sight, number, source, trial_by, visible_by};
use cell_base::{Cell, Memory};
use graph_base::Edge;
use history_core::{History, Seen};
use std::alloc::Global;

/// The earlier of the two, where there is one.
fn earlier(old: Option<u32>, number: u32) -> u32
    ensures { (later : ℕ) → (result < later) ↔ (IsAfter old later ⊎ (number < later)) }
{
    match old {
        Some(event) => event.min(number),
        None => number,
    }
}

/// Notes one read more: later reads see its source.
fn note(since: &mut Vec<Option<u32>>, seen: &Seen)
    requires { source_of seen.now < length since.old.items }
    ensures { Notes since.old.items seen.now since.new.items }
{
    let at = source(seen) as usize;
    since[at] = Some(earlier(since[at], number(seen)));
}

/// No read sees any of so many transactions.
fn nothing_seen(alloc: Global, size: usize) -> Result<Vec<Option<u32>>, Memory>
    ensures { IfOk result (λ since. since.items ≡ replicate size None) }
{
    let since = vec![in alloc; None; size]?;
    Ok(since)
}

/// What the reads of the reader see.
fn sight(alloc: Global, history: &History, reader: u32) -> Result<Sight, Memory>
    requires some { 0 < reader }
    requires begun { reader ≤ begun history.now.events }
    ensures { IfOk result (λ sight. IsSight Rc history.now.events reader sight.since.items) }
{
    let _events = history.events();
    let mut since = nothing_seen(alloc, history.begun() as usize + 1)?;
    for seen in history.txn(reader).seen.as_slice() {
        note(&mut since, seen);
    }
    Ok(Sight { since })
}

/// The transactions that the external read of the reader sees which is the event of the number `place`, ascending. Events are numbered from 1.
pub fn visible(
    alloc: Global,
    history: &History,
    reader: u32,
    place: u32,
) -> Result<Vec<u32>, Memory>
    requires some { 0 < reader }
    requires begun { reader ≤ begun history.now.events }
    ensures { IfOk result (λ writers. AreVisibleAt Rc history.now.events reader place writers.items) }
{
    let sight = sight(alloc, history, reader)?;
    let writers = visible_by(alloc, history, &sight, place)?;
    Ok(writers)
}

/// The pairs that a further read of the cell from the source forces: the source before the reader, and what the reader demands with it and
/// didn't demand before. Each pair stands once, in ascending order.
pub fn trial(
    alloc: Global,
    history: &History,
    reader: u32,
    cell: &Cell,
    source: u32,
) -> Result<Vec<Edge>, Memory>
    requires pending { IsUnderway history.now.events reader }
    requires writes { Writes history.now.events source cell.now }
    ensures { IfOk result (λ edges. AreTrialAt Rc history.now.events reader cell.now source edges.items) }
{
    let sight = sight(alloc, history, reader)?;
    let edges = trial_by(alloc, history, reader, cell, source, &sight, &sight)?;
    Ok(edges)
}
