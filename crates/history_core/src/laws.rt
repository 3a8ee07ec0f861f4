// The laws of formed and of legal histories.
ghost use Rattle.std.specs.Prelude.{◌≡◌, ◌↔◌, ◌∷◌, ◌++◌, [], ℕ, List, take};
ghost use Rattle.cell_base.specs.declared.cell.Cell.{Cell};
ghost use Rattle.cell_base.specs.declared.key.Key.{Key};
ghost use Rattle.cell_base.specs.declared.value.Value.{Value};
ghost use Rattle.history_core.specs.declared.event.Event.{Event};
ghost use Rattle.history_core.specs.Initial.{WritesInitially, absent_value, load_of};
ghost use Rattle.history_core.specs.Events.{weights_of};
ghost use Rattle.history_core.specs.Transactions.{HasPending};
ghost use Rattle.history_core.specs.Relations.{IsConsistent};
ghost use Rattle.history_core.specs.Legal.{IsLegal, IsFormed, MayCome, ReadsNothing, SomePermitted, ListsKeys, ListsWrittenKeys};

/// The laws of legal histories, whatever the levels of their transactions: a legal history is formed and consistent, each of its
/// prefixes is legal, and hence consistent, and for each cell that a pending transaction may read, some write is permitted.
pub fn legal_laws()
    ensures formed { (initial : List (Cell × Value)) (events : List Event) → IsLegal initial events → IsFormed initial events }
    ensures consistent { (initial : List (Cell × Value)) (events : List Event) → IsLegal initial events → IsConsistent events }
    ensures prefixes { (initial : List (Cell × Value)) (events : List Event) (k : ℕ) → IsLegal initial events → IsLegal initial (take k events) }
    ensures permitted { (initial : List (Cell × Value)) (events : List Event) (session : ℕ) (cell : Cell) →
        IsLegal initial events → HasPending events session → SomePermitted events session cell }
{}

/// Each event that isn't a read keeps a history consistent, whatever its reads were offered.
pub fn consistency_is_kept()
    ensures { (initial : List (Cell × Value)) (events : List Event) (event : Event) → IsFormed initial events → MayCome initial events event →
        ReadsNothing event → IsConsistent events → IsConsistent (events ++ event ∷ []) }
{}

/// Without an initial state no row is there at the start, no key is listed but those that were written, and the load is that of the
/// events.
pub fn empty_initial_state()
    ensures values { (cell : Cell) (value : Value) → WritesInitially [] cell value ↔ (value ≡ absent_value cell) }
    ensures keys { (events : List Event) (session table : ℕ) (keys : List Key) → ListsKeys [] events session table keys ↔ ListsWrittenKeys events session table keys }
    ensures load { (events : List Event) → load_of [] events ≡ weights_of events }
{}
