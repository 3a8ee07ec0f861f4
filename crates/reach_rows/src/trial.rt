//! Trials whose edges all touch one number: decided by a few bits of the rows.

ghost use Rattle.std.specs.Prelude.{◌≡◌, ◌<◌, ◌↔◌, ◌⊎◌, ◌++◌, ℕ, Any, Contains, IsTrue};
ghost use Rattle.graph_base.specs.Walk.{IsInRange, HasCycle, Leads, Reaches};
ghost use Rattle.graph_base.specs.Trial.{AllTouch, ComesBack, ClosesAt};
ghost use Rattle.reach_rows.specs.Ancestry.{ShareNumber};

use crate::Reach;
use graph_base::Edge;

/// Whether each edge of the trial begins or ends at the hub.
pub(crate) fn all_touch(hub: u32, trial: &[Edge]) -> bool
    ensures { IsTrue result ↔ AllTouch hub trial.now }
{
    trial
        .iter()
        .all(|edge| edge.before == hub || edge.after == hub)
}

/// The number that stands in each edge of the trial, of which `first` is one.
fn hub_of(first: Edge, trial: &[Edge]) -> u32
    requires member { Contains trial.now first }
    requires shared { ShareNumber trial.now }
    ensures touch { AllTouch result trial.now }
    ensures stands { (result ≡ first.before) ⊎ (result ≡ first.after) }
{
    if all_touch(first.before, trial) {
        first.before
    } else {
        first.after
    }
}

impl Reach {
    /// Whether a walk, which may be empty, leads from one number to another.
    fn leads(&self, from: u32, to: u32) -> bool
        requires from { from < self.now.size }
        requires to { to < self.now.size }
        ensures { IsTrue result ↔ Leads self.now.pairs from to }
    {
        self.is_or_reaches(from, to)
    }

    /// Whether an edge ends at the hub and `from` leads to its begin.
    fn enters(&self, from: u32, edge: Edge, hub: u32) -> bool
        requires from { from < self.now.size }
        requires before { edge.before < self.now.size }
        ensures { IsTrue result ↔ ((edge.after ≡ hub) × Leads self.now.pairs from edge.before) }
    {
        edge.after == hub && self.leads(from, edge.before)
    }

    /// Whether some edge of the trial ends at the hub and `from` leads to its begin.
    fn some_enters(&self, from: u32, trial: &[Edge], hub: u32) -> bool
        requires from { from < self.now.size }
        requires in_range { IsInRange self.now.size trial.now }
        ensures { IsTrue result
            ↔ Any (λ e. (e.after ≡ hub) × Leads self.now.pairs from e.before) trial.now }
    {
        trial.iter().any(|edge| self.enters(from, *edge, hub))
    }

    /// Whether one comes back to the hub, over an edge of the trial or without one.
    fn comes_back(&self, from: u32, trial: &[Edge], hub: u32) -> bool
        requires from { from < self.now.size }
        requires hub { hub < self.now.size }
        requires in_range { IsInRange self.now.size trial.now }
        ensures { IsTrue result ↔ ComesBack self.now.pairs trial.now hub from }
    {
        self.leads(from, hub) || self.some_enters(from, trial, hub)
    }

    /// Whether an edge begins at the hub and one comes back from its end.
    fn leaves(&self, edge: Edge, trial: &[Edge], hub: u32) -> bool
        requires after { edge.after < self.now.size }
        requires hub { hub < self.now.size }
        requires in_range { IsInRange self.now.size trial.now }
        ensures { IsTrue result
            ↔ ((edge.before ≡ hub) × ComesBack self.now.pairs trial.now hub edge.after) }
    {
        edge.before == hub && self.comes_back(edge.after, trial, hub)
    }

    /// Whether some edge of the trial begins at the hub and one comes back from its end.
    fn some_leaves(&self, trial: &[Edge], hub: u32) -> bool
        requires hub { hub < self.now.size }
        requires in_range { IsInRange self.now.size trial.now }
        ensures { IsTrue result
            ↔ Any (λ e. (e.before ≡ hub) × ComesBack self.now.pairs trial.now hub e.after) trial.now }
    {
        trial.iter().any(|edge| self.leaves(*edge, trial, hub))
    }

    /// Whether the trial, which touches the hub, closes a way back to it.
    fn closes_at(&self, trial: &[Edge], hub: u32) -> bool
        requires hub { hub < self.now.size }
        requires in_range { IsInRange self.now.size trial.now }
        ensures { IsTrue result ↔ ClosesAt self.now.pairs trial.now hub }
    {
        self.some_leaves(trial, hub) || self.some_enters(hub, trial, hub)
    }

    /// Whether the edges that were added and the edges of the trial together have a cycle. Some one
    /// number stands in each edge of the trial. Takes no memory.
    pub fn would_cycle(&self, trial: &[Edge]) -> bool
        requires in_range { IsInRange self.now.size trial.now }
        requires shared { ShareNumber trial.now }
        ensures { IsTrue result ↔ HasCycle (self.now.pairs ++ trial.now) }
    {
        // Its contract says that the pairs have no cycle of their own.
        let _size = self.size();
        match trial.first() {
            Some(first) => self.closes_at(trial, hub_of(*first, trial)),
            None => false,
        }
    }
}
