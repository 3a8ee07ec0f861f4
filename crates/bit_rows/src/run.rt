//! Runs of numbers: from a first one up to, without, an end.

ghost use Rattle.std.specs.Prelude.{◌≡◌, ◌<◌, ◌≤◌, ◌↔◌, ◌⊎◌, ℕ, IfSome, IsTrue};
ghost use Rattle.bit_rows.specs.Runs.{IsInRun, JoinsRun};

/// The numbers from `first` up to, without, `end`: none where that isn't above `first`.
#[derive(Clone, Copy, Debug)]
pub(crate) struct Run {
    pub(crate) first: u32,
    pub(crate) end: u32,
}

impl Run {
    /// Whether the number is in the run.
    pub(crate) fn has(self, bit: u32) -> bool
        ensures { IsTrue result ↔ IsInRun self.first self.end bit }
    {
        self.first <= bit && bit < self.end
    }

    /// Whether no number is in the run.
    pub(crate) fn is_empty(self) -> bool
        ensures { IsTrue result ↔ (self.end ≤ self.first) }
    {
        self.end <= self.first
    }

    /// The numbers of both, where they are one run: where the runs touch or overlap, or one is empty.
    pub(crate) fn joined(self, other: Run) -> Option<Run>
        ensures { IfSome result (λ run. JoinsRun self.first self.end other.first other.end run.first run.end) }
    {
        if other.is_empty() {
            return Some(self);
        }
        if self.is_empty() {
            return Some(other);
        }
        if other.first > self.end || self.first > other.end {
            return None;
        }
        Some(Run {
            first: self.first.min(other.first),
            end: self.end.max(other.end),
        })
    }
}
