// Whether a further read is permitted: its source writes the cell, and the pairs that the history with the read forces have no cycle.
ghost use Rattle.std.specs.Prelude.{◌≡◌, ◌<◌, ◌≤◌, ◌+◌, ◌↔◌, ℕ, IsTrue, IfOk, OnOk, length};
ghost use Rattle.cell_base.specs.declared.value.Value.{Value};
ghost use Rattle.history_core.specs.Events.{begun};
ghost use Rattle.history_core.specs.Transactions.{IsPending, HasPending};
ghost use Rattle.history_core.specs.Relations.{Writes};
ghost use Rattle.history_core.specs.Legal.{IsPermitted};
ghost use Rattle.history_core.specs.Forced.{IsForced, IsPairList};
ghost use Rattle.history_core.specs.declared.txn.Seen.TheVariants.{Read as SeenRead};
ghost use Rattle.saturation.specs.Laws.{AreForced, with_read};
ghost use Rattle.saturation.specs.Pairs.{AddsPairs, IsAddedByRead, IsSeenDemand};

use crate::demands::{add_demands, add_edge, add_seen_demands};
use crate::pairs::is_writer;
use crate::past::{predecessors, widen};
use cell_base::{Cell, Memory};
use graph_base::{Edge, Graph};
use history_core::{History, Seen, Txn};
use order_witness::holds_cycle;
use std::alloc::Global;

/// Adds the pairs that a further read of the cell demands.
fn add_further_demands(
    alloc: Global,
    history: &History,
    reader: &Txn,
    marks: &[bool],
    cell: &Cell,
    source: u32,
    edges: &mut Vec<Edge>,
) -> Result<(), Memory>
    requires { length marks.now ≡ begun history.now.events + 1 }
    ensures { OnOk result (AddsPairs (IsSeenDemand history.now.events reader.now.level reader.now.seen marks.now (SeenRead (length history.now.events + 1) cell.now source)) edges.old.items edges.new.items) }
{
    let further = Seen::Read {
        number: history.next_number(),
        cell: cell.copy(alloc)?,
        source,
    };
    let added = add_seen_demands(history, reader, marks, &further, edges);
    drop(further);
    added
}

/// The forced pairs, and those that a further read of the transaction `number` adds, where what it sees is marked.
fn edges_with_read(
    alloc: Global,
    history: &History,
    forced: &Graph,
    number: u32,
    reader: &Txn,
    marks: &[bool],
    cell: &Cell,
    source: u32,
) -> Result<Vec<Edge>, Memory>
    requires { length marks.now ≡ begun history.now.events + 1 }
    ensures { IfOk result (λ edges. AddsPairs (IsAddedByRead history.now.events number cell.now source reader.now.level reader.now.seen marks.now) forced.now.edges.items edges.items) }
{
    let mut edges = Vec::from_slice(alloc, &forced.edges)?;
    add_edge(&mut edges, source, number)?;
    add_demands(history, reader, marks, &mut edges)?;
    add_further_demands(alloc, history, reader, marks, cell, source, &mut edges)?;
    Ok(edges)
}

/// The pairs that the history forces with a further read of the pending transaction, whatever the read's count, word and value.
fn forced_with_read(
    alloc: Global,
    history: &History,
    forced: &Graph,
    session: u32,
    reader: u32,
    cell: &Cell,
    source: u32,
) -> Result<Graph, Memory>
    requires forced { AreForced history.now.events forced.now.edges.items }
    requires pending { IsPending history.now.events reader session }
    requires writes { Writes history.now.events source cell.now }
    ensures size { IfOk result (λ graph. graph.size ≡ begun history.now.events + 1) }
    ensures pairs { IfOk result (λ graph. (count word : ℕ) (value : Value) →
        IsPairList (IsForced (with_read history.now.events session cell.now source count word value)) (begun history.now.events + 1) graph.edges.items) }
{
    let _events = history.events();
    let txn = history.txn(reader);
    let mut marks = predecessors(alloc, history, reader)?;
    marks[source as usize] = true;
    widen(history, txn.level, &mut marks);
    let edges = edges_with_read(alloc, history, forced, reader, txn, &marks, cell, source)?;
    let size = history.begun() + 1;
    Ok(Graph { size, edges })
}

/// Whether the pending transaction of the session may read the cell from the source next, where `forced` has the pairs that the history forces.
pub fn is_permitted(
    alloc: Global,
    history: &History,
    forced: &Graph,
    session: u32,
    cell: &Cell,
    source: u32,
) -> Result<bool, Memory>
    requires forced { AreForced history.now.events forced.now.edges.items }
    requires pending { HasPending history.now.events session }
    ensures { IfOk result (λ permitted. IsTrue permitted ↔ IsPermitted history.now.events session cell.now source) }
{
    if !is_writer(history, source, cell) {
        return Ok(false);
    }
    let Some(reader) = history.pending(session) else {
        unreachable!()
    };
    let graph = forced_with_read(alloc, history, forced, session, reader, cell, source)?;
    let cyclic = holds_cycle(alloc, &graph)?;
    Ok(!cyclic)
}
