// At the level of the reader, the definitions with a level are those of histories.
ghost use Rattle.std.specs.Prelude.{◌↔◌, ℕ, List};
ghost use Rattle.cell_base.specs.declared.level.Level.{Level};
ghost use Rattle.cell_base.specs.declared.cell.Cell.{Cell};
ghost use Rattle.history_core.specs.declared.event.Event.{Event};
ghost use Rattle.history_core.specs.Transactions.{RunsAt};
ghost use Rattle.history_core.specs.Relations.{IsVisibleAt, IsVisible};
ghost use Rattle.history_core.specs.Forced.{IsDemandOf, IsTrial};
ghost use Rattle.axiom_base.specs.Axioms.{DemandsAt, IsTrialAt};

/// Where the reader runs at the level, its reads see, demand and force just what the level says.
pub fn own_level_agrees()
    ensures visible { (events : List Event) (reader : ℕ) (level : Level) → RunsAt events reader level → (place writer : ℕ) →
        IsVisibleAt level events reader place writer ↔ IsVisible events reader place writer }
    ensures demands { (events : List Event) (reader : ℕ) (level : Level) → RunsAt events reader level → (first second : ℕ) →
        DemandsAt level events reader first second ↔ IsDemandOf events reader first second }
    ensures trial { (events : List Event) (session reader : ℕ) (level : Level) (cell : Cell) (source : ℕ) → RunsAt events reader level →
        (first second : ℕ) → IsTrialAt level events session reader cell source first second ↔ IsTrial events session reader cell source first second }
{}
