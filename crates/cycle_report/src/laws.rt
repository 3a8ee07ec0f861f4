// The laws of what is judged.
ghost use Rattle.std.specs.Prelude.{◌≡◌, ◌↔◌, ℕ, List};
ghost use Rattle.cell_base.specs.declared.level.Level.{Level};
ghost use Rattle.history_core.specs.declared.event.Event.{Event};
ghost use Rattle.history_core.specs.Transactions.{RunsAt};
ghost use Rattle.history_core.specs.Relations.{Meets};
ghost use Rattle.cycle_report.specs.declared.judgement.Step.{Step};
ghost use Rattle.cycle_report.specs.Judged.{MeetsAt, IsCycleAt};

/// A cycle at a level shows that no commit order meets the history where all its transactions run at the level.
pub fn cycle_excludes_order()
    ensures { (level : Level) (events : List Event) (order : List ℕ) (steps : List Step) → IsCycleAt level events steps → ¬ MeetsAt level events order }
{}

/// Where the transactions of a history do run at the level, an order meets it at the level exactly where it meets it.
pub fn own_level_is_judged()
    ensures { (level : Level) (events : List Event) (order : List ℕ) → ((number : ℕ) (other : Level) → RunsAt events number other → other ≡ level) →
        MeetsAt level events order ↔ Meets events order }
{}
