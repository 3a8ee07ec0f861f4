// The law of the summary line.
ghost use Rattle.std.specs.Prelude.{◌≡◌, ℕ, List};
ghost use Rattle.cell_base.specs.declared.level.Level.{Level};
ghost use Rattle.history_core.specs.declared.event.Event.{Event};
ghost use Rattle.history_summary.specs.Line.{IsSummary};

/// A list of events has one summary line at a level and a seed.
pub fn one_summary()
    ensures { (level : Level) (seed : ℕ) (events : List Event) (a b : List ℕ) → IsSummary level seed events a → IsSummary level seed events b → a ≡ b }
{}
