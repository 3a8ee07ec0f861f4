// What comes before a transaction: session order, the write-read relation, and the causal past, by marks on the transactions' numbers.
ghost use Rattle.std.specs.Prelude.{◌≡◌, ◌<◌, ◌≤◌, ◌+◌, ◌↔◌, ℕ, IsTrue, IfOk, IfSome, IfNone, length};
ghost use Rattle.order_witness.specs.Marks.{IsMarked, IsUnmarked};
ghost use Rattle.history_core.specs.Events.{begun};
ghost use Rattle.history_core.specs.Relations.{IsSessionOrdered, ReadsFrom, Precedes};
ghost use Rattle.saturation.specs.Views.{ArePredecessors, IsPastOf, PrecedesMarked, Widens};

use crate::records::reads_from;
use cell_base::{Level, Memory};
use history_core::History;
use std::alloc::Global;

/// Whether session order has the first before the second.
fn is_session_ordered(history: &History, first: u32, second: u32) -> bool
    requires { second ≤ begun history.now.events }
    ensures { IsTrue result ↔ IsSessionOrdered history.now.events first second }
{
    if first >= second {
        return false;
    }
    if first == 0 {
        return true;
    }
    history.txn(first).session == history.txn(second).session
}

/// Whether the reader reads from the source, which isn't the initial transaction.
fn is_source(history: &History, source: u32, reader: u32) -> bool
    requires some { 0 < source }
    requires reader { reader ≤ begun history.now.events }
    ensures { IsTrue result ↔ ReadsFrom history.now.events source reader }
{
    if reader == 0 {
        return false;
    }
    reads_from(history.txn(reader), source)
}

/// Whether the first precedes the second, by session order or by the write-read relation.
fn precedes(history: &History, first: u32, second: u32) -> bool
    requires { second ≤ begun history.now.events }
    ensures { IsTrue result ↔ Precedes history.now.events first second }
{
    let ordered = is_session_ordered(history, first, second);
    if first == 0 {
        return ordered;
    }
    ordered || is_source(history, first, second)
}

/// Marks on the transactions that precede the reader.
pub fn predecessors(alloc: Global, history: &History, reader: u32) -> Result<Vec<bool>, Memory>
    requires { reader ≤ begun history.now.events }
    ensures { IfOk result (λ marks. ArePredecessors history.now.events reader marks.items) }
{
    let mut marks = Vec::new(alloc);
    for first in 0..history.begun() + 1 {
        marks.push(precedes(history, first, reader))?;
    }
    Ok(marks)
}

/// Whether the second is marked, and the first precedes it.
fn precedes_marked(history: &History, marks: &[bool], first: u32, second: u32) -> bool
    requires size { length marks.now ≡ begun history.now.events + 1 }
    requires second { second ≤ begun history.now.events }
    ensures { IsTrue result ↔ (IsMarked marks.now second × Precedes history.now.events first second) }
{
    marks[second as usize] && precedes(history, first, second)
}

/// Whether the transaction precedes a marked one.
fn leads_to_mark(history: &History, marks: &[bool], first: u32) -> bool
    requires { length marks.now ≡ begun history.now.events + 1 }
    ensures { IsTrue result ↔ PrecedesMarked history.now.events marks.now first }
{
    for second in 0..history.begun() + 1 {
        if precedes_marked(history, marks, first, second) {
            return true;
        }
    }
    false
}

/// Whether the transaction has no mark yet and precedes a marked one.
fn lacks_mark(history: &History, marks: &[bool], first: u32) -> bool
    requires size { length marks.now ≡ begun history.now.events + 1 }
    requires first { first ≤ begun history.now.events }
    ensures { IsTrue result ↔ (IsUnmarked marks.now first × PrecedesMarked history.now.events marks.now first) }
{
    !marks[first as usize] && leads_to_mark(history, marks, first)
}

/// A transaction without a mark that precedes a marked one.
fn next_mark(history: &History, marks: &[bool]) -> Option<u32>
    requires { length marks.now ≡ begun history.now.events + 1 }
    ensures unmarked { IfSome result (λ first. IsUnmarked marks.now first) }
    ensures precedes { IfSome result (λ first. PrecedesMarked history.now.events marks.now first) }
    ensures none { IfNone result ((first : ℕ) → IsUnmarked marks.now first → PrecedesMarked history.now.events marks.now first → ⊥) }
{
    for first in 0..history.begun() + 1 {
        if lacks_mark(history, marks, first) {
            return Some(first);
        }
    }
    None
}

/// Marks each transaction from which a chain leads to a marked one.
fn close(history: &History, marks: &mut Vec<bool>)
    requires { length marks.old.items ≡ begun history.now.events + 1 }
    ensures { IsPastOf history.now.events marks.old.items marks.new.items }
{
    while let Some(first) = next_mark(history, marks) {
        marks[first as usize] = true;
    }
}

/// Marks what a reader of the level sees, where what precedes it is marked: at Causal Consistency its whole causal past.
pub fn widen(history: &History, level: Level, marks: &mut Vec<bool>)
    requires { length marks.old.items ≡ begun history.now.events + 1 }
    ensures { Widens level history.now.events marks.old.items marks.new.items }
{
    match level {
        Level::Rc => {}
        Level::Ra => {}
        Level::Cc => close(history, marks),
    }
}
