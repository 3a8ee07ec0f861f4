// The causal past, by marks on the transactions' numbers.
ghost use Rattle.std.specs.Prelude.{◌≡◌, ◌<◌, ◌≤◌, ◌+◌, ℕ, IfSome, IfNone, OnOk, length};
ghost use Rattle.order_witness.specs.Marks.{IsMarked, IsUnmarked};
ghost use Rattle.history_core.specs.Events.{begun};
ghost use Rattle.saturation.specs.Views.{IsPastOf};
ghost use Rattle.axiom_cc.specs.Following.{MarksPredecessors};

use axiom_base::precedes;
use cell_base::Memory;
use history_core::History;
use std::alloc::Global;

/// A marked transaction whose predecessors aren't marked yet.
fn next_open(history: &History, marks: &[bool], done: &[bool]) -> Option<u32>
    requires marks { length marks.now ≡ begun history.now.events + 1 }
    requires done { length done.now ≡ begun history.now.events + 1 }
    ensures marked { IfSome result (IsMarked marks.now) }
    ensures open { IfSome result (IsUnmarked done.now) }
    ensures none { IfNone result ((n : ℕ) → IsMarked marks.now n → IsMarked done.now n) }
{
    for n in 0..history.begun() + 1 {
        if marks[n as usize] && !done[n as usize] {
            return Some(n);
        }
    }
    None
}

/// Marks what precedes the transaction.
fn mark_predecessors(history: &History, second: u32, marks: &mut Vec<bool>)
    requires second { second ≤ begun history.now.events }
    requires size { length marks.old.items ≡ begun history.now.events + 1 }
    ensures { MarksPredecessors history.now.events second marks.old.items marks.new.items }
{
    let _events = history.events();
    for first in 0..history.begun() + 1 {
        if precedes(history, first, second) {
            marks[first as usize] = true;
        }
    }
}

/// Marks each transaction from which a chain leads to a marked one.
pub fn mark_past(alloc: Global, history: &History, marks: &mut Vec<bool>) -> Result<(), Memory>
    requires { length marks.old.items ≡ begun history.now.events + 1 }
    ensures { OnOk result (IsPastOf history.now.events marks.old.items marks.new.items) }
{
    let mut done = vec![in alloc; false; marks.len()]?;
    while let Some(second) = next_open(history, marks, &done) {
        done[second as usize] = true;
        mark_predecessors(history, second, marks);
    }
    Ok(())
}
