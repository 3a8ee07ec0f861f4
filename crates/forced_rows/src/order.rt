// The least order of the forced pairs.
ghost use Rattle.std.specs.Prelude.{◌≡◌, ◌≤◌, ◌<◌, ◌+◌, ◌↔◌, ◌⊎◌, ℕ, List, length, IsTrue, IfSome, IfNone, IfOk};
ghost use Rattle.graph_base.specs.declared.Edge.{Edge};
ghost use Rattle.graph_base.specs.Walk.{Reaches};
ghost use Rattle.graph_base.specs.Order.{IsLeastOrder, IsLower};
ghost use Rattle.order_witness.specs.Marks.{IsUnmarked};
ghost use Rattle.history_core.specs.Events.{begun};
ghost use Rattle.history_core.specs.Relations.{Meets};
ghost use Rattle.history_core.specs.Legal.{IsLegal};
ghost use Rattle.saturation.specs.Laws.{AreForced};
ghost use Rattle.forced_rows.specs.Rows.{AreRowsOf};
ghost use Rattle.forced_rows.specs.Marks.{MayBeMarked, IsPassed, ArePassed, AreMarkedBelow};

use crate::ForcedRows;
use cell_base::Memory;
use indexed_history::IndexedHistory;
use reach_rows::Reach;
use std::alloc::Global;

/// Whether the first is before the second, and isn't marked.
fn blocks(reach: &Reach, marks: &[bool], first: u32, second: u32) -> bool
    requires size { length marks.now ≡ reach.now.size }
    requires first { first < reach.now.size }
    requires second { second < reach.now.size }
    ensures { IsTrue result ↔ (IsUnmarked marks.now first × Reaches reach.now.pairs first second) }
{
    !marks[first as usize] && reach.reaches(first, second)
}

/// The first number from `from` on that is before the number and isn't marked; the size, where there is none.
fn first_blocker(reach: &Reach, marks: &[bool], from: u32, number: u32) -> u32
    requires size { length marks.now ≡ reach.now.size }
    requires from { from ≤ reach.now.size }
    requires number { number < reach.now.size }
    requires passed { IsPassed reach.now.pairs marks.now number from }
    ensures within { result ≤ reach.now.size }
    ensures passed { IsPassed reach.now.pairs marks.now number result }
    ensures blocks { result < reach.now.size → IsUnmarked marks.now result × Reaches reach.now.pairs result number }
{
    for first in from..reach.size() {
        if blocks(reach, marks, first, number) {
            return first;
        }
    }
    reach.size()
}

/// The least number that may be marked next. All below `from` are marked. Of each number `passed` has how far those before it were found marked, so
/// that none is looked at twice.
fn next_marked(reach: &Reach, marks: &[bool], passed: &mut [u32], from: u32) -> Option<u32>
    requires size { length marks.now ≡ reach.now.size }
    requires passed { ArePassed reach.now.size reach.now.pairs marks.now passed.old }
    requires within { from ≤ reach.now.size }
    requires from { AreMarkedBelow marks.now from }
    ensures kept { ArePassed reach.now.size reach.now.pairs marks.now passed.new }
    ensures may { IfSome result (λ n. MayBeMarked reach.now.pairs marks.now n) }
    ensures least { IfSome result (λ n. (m : ℕ) → MayBeMarked reach.now.pairs marks.now m → n ≤ m) }
    ensures none { IfNone result ((m : ℕ) → ¬ MayBeMarked reach.now.pairs marks.now m) }
{
    for number in from..reach.size() {
        if !marks[number as usize] {
            let blocker = first_blocker(reach, marks, passed[number as usize], number);
            passed[number as usize] = blocker;
            if blocker == reach.size() {
                return Some(number);
            }
        }
    }
    None
}

/// How many numbers from the first on are marked, given that so many are.
fn marked_below(marks: &[bool], from: u32) -> u32
    requires size { length marks.now < 4294967296 }
    requires within { from ≤ length marks.now }
    requires from { AreMarkedBelow marks.now from }
    ensures within { result ≤ length marks.now }
    ensures marked { AreMarkedBelow marks.now result }
{
    let mut below = from;
    while (below as usize) < marks.len() && marks[below as usize] {
        below += 1;
    }
    below
}

impl ForcedRows {
    /// The first of all orders that meet the history, compared number by number. It is the least order of the pairs that the history forces: at
    /// each place stands the least transaction of which all that are before it have been placed. An error is out of memory.
    pub fn order(&self, alloc: Global, history: &IndexedHistory) -> Result<Vec<u32>, Memory>
        requires kept { AreRowsOf history.now.events self.now }
        requires legal { IsLegal history.now.initial history.now.events }
        ensures meets { IfOk result (λ order. Meets history.now.events order.items) }
        ensures first { IfOk result (λ order. (other : List ℕ) → Meets history.now.events other → (order.items ≡ other) ⊎ IsLower order.items other) }
        ensures least { IfOk result (λ order. (edges : List Edge) → AreForced history.now.events edges →
            IsLeastOrder (begun history.now.events + 1) edges order.items) }
    {
        let size = self.reach.size();
        let mut marks = vec![in alloc; false; size as usize]?;
        let mut passed = vec![in alloc; 0; size as usize]?;
        let mut below = 0;
        let mut order: Vec<u32> = Vec::new(alloc);
        while let Some(number) = next_marked(&self.reach, &marks, &mut passed, below) {
            order.push(number)?;
            marks[number as usize] = true;
            below = marked_below(&marks, below);
        }
        Ok(order)
    }
}
