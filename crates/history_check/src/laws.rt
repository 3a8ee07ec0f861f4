// The laws of the breaches of a trace.
ghost use Rattle.std.specs.Prelude.{◌≡◌, ℕ, List, None, Some, slice_get, take};
ghost use Rattle.cell_base.specs.declared.cell.Cell.{Cell};
ghost use Rattle.cell_base.specs.declared.value.Value.{Value};
ghost use Rattle.history_core.specs.declared.event.Event.{Event};
ghost use Rattle.history_core.specs.Relations.{IsConsistent, Meets};
ghost use Rattle.history_core.specs.Legal.{Follows, IsFormed, IsLegal, full_for};
ghost use Rattle.history_log.specs.declared.trace.Trace.{Trace};
ghost use Rattle.history_check.specs.declared.breach.Breach.{Breach};
ghost use Rattle.history_check.specs.Breaches.{AreRight, IsFirstEventBreach};
ghost use Rattle.history_check.specs.Orders.{IsRightTrace, IsFirstBreach};

/// The laws of the events of a trace: where each keeps to the rules there is no breach, and there is one first breach at most. Events that keep
/// to the rules fit what comes before each of them, so that within the limits they are a formed history.
pub fn event_laws()
    ensures unbroken { (initial : List (Cell × Value)) (events : List Event) (breach : Breach) → AreRight initial events → IsFirstEventBreach initial events breach → ⊥ }
    ensures one { (initial : List (Cell × Value)) (events : List Event) (a b : Breach) → IsFirstEventBreach initial events a → IsFirstEventBreach initial events b → a ≡ b }
    ensures follows { (initial : List (Cell × Value)) (events : List Event) (k : ℕ) (event : Event) → AreRight initial events → slice_get events k ≡ Some event →
        Follows initial (take k events) event }
    ensures formed { (initial : List (Cell × Value)) (events : List Event) → AreRight initial events →
        ((k : ℕ) (event : Event) → slice_get events k ≡ Some event → full_for initial (take k events) event ≡ None) → IsFormed initial events }
{}

/// The laws of a trace: where it is right it has no breach, and each prefix of its events is consistent; and it has one first breach at most.
pub fn trace_laws()
    ensures unbroken { (trace : Trace) (breach : Breach) → IsRightTrace trace → IsFirstBreach trace breach → ⊥ }
    ensures one { (trace : Trace) (a b : Breach) → IsFirstBreach trace a → IsFirstBreach trace b → a ≡ b }
    ensures prefixes { (trace : Trace) (k : ℕ) → IsRightTrace trace → IsConsistent (take k trace.events) }
{}

/// The law of the histories that a book keeps: a legal one has no breach, with any order that meets it.
pub fn legal_laws()
    ensures { (trace : Trace) (breach : Breach) → IsLegal trace.initial trace.events → Meets trace.events trace.order → IsFirstBreach trace breach → ⊥ }
{}
