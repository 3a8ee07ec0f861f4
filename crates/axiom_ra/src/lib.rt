//! The axiom of Read Atomic by plain lists: what a read sees, and what a further read forces, whatever level the reader runs at.
//!
//! At Read Atomic a read sees the transactions that precede its own one, by session order or by the write-read relation. `visible` lists them,
//! and `trial` lists the pairs that a further read forces on each commit order. These are slow programs for readers and tests; the store decides
//! by rows of bits.
#![tactic(auto)]

ghost use Rattle.std.specs.Prelude.{◌≤◌, ◌<◌, IfOk};
ghost use Rattle.cell_base.specs.declared.level.Level.TheVariants.{Ra};
ghost use Rattle.cell_base.specs.declared.cell.Cell.{Cell};
ghost use Rattle.history_core.specs.Events.{begun};
ghost use Rattle.history_core.specs.Relations.{Writes};
ghost use Rattle.axiom_base.specs.Axioms.{IsUnderway, AreVisibleAt, AreTrialAt};
ghost use Rattle.axiom_base.specs.Sights.{IsSight, IsSightWith};

use axiom_base::{Sight, always_seen, predecessors, trial_by, visible_by};
use cell_base::{Cell, Memory};
use graph_base::Edge;
use history_core::History;
use std::alloc::Global;

/// What the reads of the reader see.
fn sight(alloc: Global, history: &History, reader: u32) -> Result<Sight, Memory>
    requires { reader ≤ begun history.now.events }
    ensures { IfOk result (λ sight. IsSight Ra history.now.events reader sight.since.items) }
{
    let _events = history.events();
    let marks = predecessors(alloc, history, reader)?;
    let sight = always_seen(alloc, &marks)?;
    Ok(sight)
}

/// What they see with a further read from the source.
fn sight_with(alloc: Global, history: &History, reader: u32, source: u32) -> Result<Sight, Memory>
    requires reader { reader ≤ begun history.now.events }
    requires source { source ≤ begun history.now.events }
    ensures { IfOk result (λ sight. (cell : Cell) → IsSightWith Ra history.now.events reader cell source sight.since.items) }
{
    let _events = history.events();
    let mut marks = predecessors(alloc, history, reader)?;
    marks[source as usize] = true;
    let sight = always_seen(alloc, &marks)?;
    Ok(sight)
}

/// The transactions that the external read of the reader sees which is the event of the number `place`, ascending. Events are numbered from 1.
pub fn visible(
    alloc: Global,
    history: &History,
    reader: u32,
    place: u32,
) -> Result<Vec<u32>, Memory>
    requires some { 0 < reader }
    requires begun { reader ≤ begun history.now.events }
    ensures { IfOk result (λ writers. AreVisibleAt Ra history.now.events reader place writers.items) }
{
    let sight = sight(alloc, history, reader)?;
    let writers = visible_by(alloc, history, &sight, place)?;
    Ok(writers)
}

/// The pairs that a further read of the cell from the source forces: the source before the reader, and what the reader demands with it and
/// didn't demand before. Each pair stands once, in ascending order.
pub fn trial(
    alloc: Global,
    history: &History,
    reader: u32,
    cell: &Cell,
    source: u32,
) -> Result<Vec<Edge>, Memory>
    requires pending { IsUnderway history.now.events reader }
    requires writes { Writes history.now.events source cell.now }
    ensures { IfOk result (λ edges. AreTrialAt Ra history.now.events reader cell.now source edges.items) }
{
    let before = sight(alloc, history, reader)?;
    let after = sight_with(alloc, history, reader, source)?;
    let edges = trial_by(alloc, history, reader, cell, source, &before, &after)?;
    Ok(edges)
}
