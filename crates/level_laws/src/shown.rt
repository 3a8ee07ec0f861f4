// All that the levels permit can be shown.
ghost use Rattle.std.specs.Prelude.{◌≡◌, ◌<◌, ℕ, List, [], ◌∷◌, ◌++◌, length, take};
ghost use Rattle.cell_base.specs.declared.cell.Cell.{Cell};
ghost use Rattle.cell_base.specs.declared.value.Value.{Value};
ghost use Rattle.history_core.specs.declared.event.Event.{Event};
ghost use Rattle.history_core.specs.Initial.{IsInitialState};
ghost use Rattle.history_core.specs.Transactions.{HasPending};
ghost use Rattle.history_core.specs.Relations.{IsConsistent};
ghost use Rattle.history_core.specs.Legal.{IsFormed, IsLegal, IsOffer, MayCome, ReadsNothing};
ghost use Rattle.saturation.specs.Laws.{with_read};
ghost use Rattle.level_laws.specs.Shown.{AreAlike, BookCall, IsNextAt, SomeOffer, CanBeShown};

/// All histories can be shown. Let a legal history be equal to another one but for the counts and words of reads, and let the other one
/// stay well formed with a next event. If that is no read, the legal history stays legal with it. If it is a read, and the other history
/// stays consistent with it, then some word below the length of the offer picks its source: with that count and that word the legal
/// history stays legal. It can't be that there is no offer. So it can't be that a well formed and consistent history is equal to no legal
/// one but for counts and words.
pub fn all_histories_can_be_shown()
    ensures others { (initial : List (Cell × Value)) (shown events : List Event) (next : Event) → IsLegal initial shown → AreAlike shown events →
        IsFormed initial (events ++ next ∷ []) → ReadsNothing next → IsLegal initial (shown ++ next ∷ []) }
    ensures reads { (initial : List (Cell × Value)) (shown events : List Event) (session : ℕ) (cell : Cell) (source count word : ℕ) (value : Value) (offer : List ℕ) →
        IsLegal initial shown → AreAlike shown events → IsFormed initial (with_read events session cell source count word value) →
        IsConsistent (with_read events session cell source count word value) → IsOffer shown session cell offer →
        (chosen : ℕ) × (chosen < length offer) × IsLegal initial (with_read shown session cell source (length offer) chosen value) }
    ensures offer { (events : List Event) (session : ℕ) (cell : Cell) → SomeOffer events session cell }
    ensures whole { (initial : List (Cell × Value)) (events : List Event) → IsFormed initial events → IsConsistent events → CanBeShown initial events }
{}

/// Each prefix of a well formed and consistent history is consistent.
pub fn prefixes_are_consistent()
    ensures { (initial : List (Cell × Value)) (events : List Event) (k : ℕ) → IsFormed initial events → IsConsistent events → IsConsistent (take k events) }
{}

/// After a legal history one call, with the word of a read, has one next event.
pub fn one_call_has_one_event()
    ensures { (initial : List (Cell × Value)) (events : List Event) (call : BookCall) (one other : Event) → IsInitialState initial → IsLegal initial events →
        IsNextAt initial events call one → IsNextAt initial events call other → one ≡ other }
{}
