// The laws of what an order doesn't keep.
ghost use Rattle.std.specs.Prelude.{◌≡◌, ℕ, List, take};
ghost use Rattle.history_core.specs.declared.event.Event.{Event};
ghost use Rattle.history_core.specs.Relations.{Meets, IsConsistent};
ghost use Rattle.order_test.specs.declared.unkept.Unkept.{Unkept};
ghost use Rattle.order_test.specs.Settled.{IsOrderly};
ghost use Rattle.order_test.specs.Unkept.{IsFirstUnkept};

/// An order that meets a history keeps all of it, and of another one thing at most is told. Where an order meets the whole history, each prefix
/// of it is consistent.
pub fn order_laws()
    ensures kept { (events : List Event) (order : List ℕ) (unkept : Unkept) → Meets events order → IsFirstUnkept events order unkept → ⊥ }
    ensures one { (events : List Event) (order : List ℕ) (a b : Unkept) → IsOrderly events → IsFirstUnkept events order a → IsFirstUnkept events order b → a ≡ b }
    ensures prefixes { (events : List Event) (order : List ℕ) (k : ℕ) → IsOrderly events → Meets events order → IsConsistent (take k events) }
{}
