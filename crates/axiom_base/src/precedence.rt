// Session order and the write-read relation.
ghost use Rattle.std.specs.Prelude.{◌≤◌, ◌<◌, ◌↔◌, Any, IsTrue, IfOk};
ghost use Rattle.history_core.specs.Events.{begun};
ghost use Rattle.history_core.specs.Relations.{IsSessionOrdered, ReadsFrom, Precedes};
ghost use Rattle.saturation.specs.Views.{IsReadFrom, ArePredecessors};

use cell_base::Memory;
use history_core::{History, Seen};
use std::alloc::Global;

/// Whether session order has the first before the second.
fn is_session_ordered(history: &History, first: u32, second: u32) -> bool
    requires { second ≤ begun history.now.events }
    ensures { IsTrue result ↔ IsSessionOrdered history.now.events first second }
{
    if first >= second {
        return false;
    }
    if first == 0 {
        return true;
    }
    history.txn(first).session == history.txn(second).session
}

/// Whether it is a read of a cell from the source.
fn is_read_from(seen: &Seen, source: u32) -> bool
    ensures { IsTrue result ↔ IsReadFrom seen.now source }
{
    match seen {
        Seen::Read { source: from, .. } => *from == source,
        Seen::Scan { .. } => false,
    }
}

/// Whether one of these is a read of a cell from the source.
fn has_read_from(all: &[Seen], source: u32) -> bool
    ensures { IsTrue result ↔ Any (λ s. IsReadFrom s source) all.now }
{
    all.iter().any(|seen| is_read_from(seen, source))
}

/// Whether the reader reads from the source, which isn't the initial transaction.
fn reads_from(history: &History, source: u32, reader: u32) -> bool
    requires source { 0 < source }
    requires some { 0 < reader }
    requires begun { reader ≤ begun history.now.events }
    ensures { IsTrue result ↔ ReadsFrom history.now.events source reader }
{
    has_read_from(history.txn(reader).seen.as_slice(), source)
}

/// Whether the first precedes the second, by session order or by the write-read relation.
pub fn precedes(history: &History, first: u32, second: u32) -> bool
    requires { second ≤ begun history.now.events }
    ensures { IsTrue result ↔ Precedes history.now.events first second }
{
    if second == 0 {
        return false;
    }
    if first == 0 {
        return true;
    }
    is_session_ordered(history, first, second) || reads_from(history, first, second)
}

/// Marks on the transactions that precede the reader.
pub fn predecessors(alloc: Global, history: &History, reader: u32) -> Result<Vec<bool>, Memory>
    requires { reader ≤ begun history.now.events }
    ensures { IfOk result (λ marks. ArePredecessors history.now.events reader marks.items) }
{
    let mut marks = Vec::new(alloc);
    for first in 0..history.begun() + 1 {
        marks.push(precedes(history, first, reader))?;
    }
    Ok(marks)
}
