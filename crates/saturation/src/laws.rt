// The laws of forced pairs.
ghost use Rattle.std.specs.Prelude.{◌≡◌, ◌+◌, ◌⊎◌, ◌↔◌, ℕ, List};
ghost use Rattle.graph_base.specs.declared.Edge.{Edge};
ghost use Rattle.graph_base.specs.Walk.{HasCycle};
ghost use Rattle.graph_base.specs.Order.{IsOrder};
ghost use Rattle.cell_base.specs.declared.cell.Cell.{Cell};
ghost use Rattle.cell_base.specs.declared.value.Value.{Value};
ghost use Rattle.history_core.specs.declared.event.Event.{Event};
ghost use Rattle.history_core.specs.Events.{begun};
ghost use Rattle.history_core.specs.Transactions.{IsPending};
ghost use Rattle.history_core.specs.Relations.{Writes, Meets, IsConsistent};
ghost use Rattle.history_core.specs.Legal.{IsFormed};
ghost use Rattle.history_core.specs.Forced.{IsForced, IsDemandOf};
ghost use Rattle.saturation.specs.Laws.{AreForced, with_read};

/// A history is consistent exactly where the pairs that it forces have no cycle, and the commit orders that meet it are exactly those that extend the pairs:
/// the initial transaction is then the first.
pub fn forced_decides()
    ensures decides { (events : List Event) (edges : List Edge) → AreForced events edges → IsConsistent events ↔ (¬ HasCycle edges) }
    ensures orders { (events : List Event) (edges : List Edge) (order : List ℕ) → AreForced events edges → Meets events order ↔ IsOrder (begun events + 1) edges order }
{}

/// With a further read of a pending transaction a history forces what it forced, the source before the reader, and what the reader demands then: no other
/// transaction sees more.
pub fn further_read()
    ensures { (initial : List (Cell × Value)) (events : List Event) (session reader : ℕ) (cell : Cell) (source count word : ℕ) (value : Value) →
        IsFormed initial events → IsPending events reader session → Writes events source cell → (first second : ℕ) →
        IsForced (with_read events session cell source count word value) first second
        ↔ (IsForced events first second ⊎ (((first ≡ source) × (second ≡ reader))
        ⊎ IsDemandOf (with_read events session cell source count word value) reader first second)) }
{}
