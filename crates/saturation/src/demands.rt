// The pairs that the reads of one transaction demand: a writer that the read sees, before the transaction that it read from.
ghost use Rattle.std.specs.Prelude.{◌≡◌, ◌<◌, ◌≤◌, ◌+◌, ◌↔◌, IsTrue, OnOk, length};
ghost use Rattle.history_core.specs.Events.{begun};
ghost use Rattle.saturation.specs.Views.{Sees, IsRival, number_of, source_of};
ghost use Rattle.saturation.specs.Pairs.{AddsPairs, IsSeenDemand, IsDemandIn};

use crate::records::{has_read_before, is_committed, number, shows_one_of, source};
use cell_base::{Level, Memory};
use graph_base::Edge;
use history_core::{History, Seen, Txn};

/// Whether a read of the reader takes the writer into account: at Read Committed where an earlier read was from it, else where it is
/// marked.
fn sees(reader: &Txn, marks: &[bool], before: u32, writer: u32) -> bool
    requires { writer < length marks.now }
    ensures { IsTrue result ↔ Sees reader.now.level reader.now.seen marks.now before writer }
{
    match reader.level {
        Level::Rc => has_read_before(reader.seen.as_slice(), before, writer),
        Level::Ra => marks[writer as usize],
        Level::Cc => marks[writer as usize],
    }
}

/// Whether the transaction, which isn't the source of the read, writes a cell that it gave.
fn is_rival(history: &History, seen: &Seen, writer: u32) -> bool
    requires some { 0 < writer }
    requires writer { writer ≤ begun history.now.events }
    ensures { IsTrue result ↔ IsRival history.now.events seen.now writer }
{
    if writer == source(seen) {
        return false;
    }
    let txn = history.txn(writer);
    if !is_committed(txn) {
        return false;
    }
    shows_one_of(seen, &txn.buffer)
}

/// Whether the read demands the writer before its source.
fn is_demanded(history: &History, reader: &Txn, marks: &[bool], seen: &Seen, writer: u32) -> bool
    requires size { length marks.now ≡ begun history.now.events + 1 }
    requires some { 0 < writer }
    requires writer { writer ≤ begun history.now.events }
    ensures { IsTrue result ↔ (Sees reader.now.level reader.now.seen marks.now (number_of seen.now) writer × IsRival history.now.events seen.now writer) }
{
    sees(reader, marks, number(seen), writer) && is_rival(history, seen, writer)
}

/// Adds one pair.
pub fn add_edge(edges: &mut Vec<Edge>, before: u32, after: u32) -> Result<(), Memory>
    ensures { OnOk result (AddsPairs (λ a b. (a ≡ before) × (b ≡ after)) edges.old.items edges.new.items) }
{
    edges.push(Edge { before, after })?;
    Ok(())
}

/// Adds the pair of the writer and the source of the read, where the read demands it.
fn add_demand(
    history: &History,
    reader: &Txn,
    marks: &[bool],
    seen: &Seen,
    writer: u32,
    edges: &mut Vec<Edge>,
) -> Result<(), Memory>
    requires size { length marks.now ≡ begun history.now.events + 1 }
    requires some { 0 < writer }
    requires writer { writer ≤ begun history.now.events }
    ensures { OnOk result (AddsPairs (λ a b. (a ≡ writer) × IsSeenDemand history.now.events reader.now.level reader.now.seen marks.now seen.now a b) edges.old.items edges.new.items) }
{
    if is_demanded(history, reader, marks, seen, writer) {
        add_edge(edges, writer, source(seen))
    } else {
        Ok(())
    }
}

/// Adds the pairs that one read of the reader demands.
pub fn add_seen_demands(
    history: &History,
    reader: &Txn,
    marks: &[bool],
    seen: &Seen,
    edges: &mut Vec<Edge>,
) -> Result<(), Memory>
    requires { length marks.now ≡ begun history.now.events + 1 }
    ensures { OnOk result (AddsPairs (IsSeenDemand history.now.events reader.now.level reader.now.seen marks.now seen.now) edges.old.items edges.new.items) }
{
    for writer in 1..history.begun() + 1 {
        add_demand(history, reader, marks, seen, writer, edges)?;
    }
    Ok(())
}

/// Adds the pairs that the reads of the reader demand.
pub fn add_demands(
    history: &History,
    reader: &Txn,
    marks: &[bool],
    edges: &mut Vec<Edge>,
) -> Result<(), Memory>
    requires { length marks.now ≡ begun history.now.events + 1 }
    ensures { OnOk result (AddsPairs (IsDemandIn history.now.events reader.now.level reader.now.seen marks.now) edges.old.items edges.new.items) }
{
    for seen in reader.seen.as_slice() {
        add_seen_demands(history, reader, marks, seen, edges)?;
    }
    Ok(())
}
