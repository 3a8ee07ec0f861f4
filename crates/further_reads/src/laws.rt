// The laws of one further event.
ghost use Rattle.std.specs.Prelude.{◌≡◌, ◌≢◌, ◌<◌, ◌+◌, ◌⊎◌, ◌↔◌, ℕ, false, List, [], ◌∷◌, ◌++◌};
ghost use Rattle.graph_base.specs.declared.Edge.{Edge};
ghost use Rattle.graph_base.specs.Walk.{HasCycle};
ghost use Rattle.graph_base.specs.Chain.{Chained};
ghost use Rattle.cell_base.specs.declared.level.Level.{Level};
ghost use Rattle.cell_base.specs.declared.level.Level.TheVariants.{Rc};
ghost use Rattle.cell_base.specs.declared.cell.Cell.{Cell};
ghost use Rattle.cell_base.specs.declared.value.Value.{Value};
ghost use Rattle.history_core.specs.declared.event.Event.{Event};
ghost use Rattle.history_core.specs.Events.{begun, is_begin};
ghost use Rattle.history_core.specs.Transactions.{IsPending, RunsAt};
ghost use Rattle.history_core.specs.Relations.{Writes, ReadsFrom, Precedes, IsConsistent};
ghost use Rattle.history_core.specs.Legal.{IsFormed, Follows, IsPermitted, ReadsNothing};
ghost use Rattle.history_core.specs.Forced.{IsForced, IsDemandOf};
ghost use Rattle.saturation.specs.Laws.{with_read};
ghost use Rattle.further_reads.specs.Further.{Sees, SeesWith, IsNewlySeen, IsNewDemand, AreNewDemands, IsReadLink, IsForcedOrNew, PrecedesOrNew, HaveForcedClosure};
ghost use Rattle.further_reads.specs.Begun.{ForcesNothing, with_begin, IsBeforeBegun, IsLastBegun, IsBeginLink};

/// With a further read a pending transaction demands what it demanded, and the new demands: of the writers that it sees with the read, those
/// of the cell before the source, and of the writers that it sees only now, those of a cell that it read earlier before the source of that read.
pub fn further_demands()
    ensures { (initial : List (Cell × Value)) (events : List Event) (session reader : ℕ) (level : Level) (cell : Cell) (source count word : ℕ) (value : Value) →
        IsFormed initial events → IsPending events reader session → RunsAt events reader level → Writes events source cell → (first second : ℕ) →
        IsDemandOf (with_read events session cell source count word value) reader first second
        ↔ (IsDemandOf events reader first second ⊎ IsNewDemand level events reader cell source first second) }
{}

/// With a further read of a pending transaction a history forces what it forced, the new demands, and the source before the reader. Of the new
/// demands those of the initial transaction can be left out: it is before all others as it is.
pub fn further_pairs()
    ensures forced { (initial : List (Cell × Value)) (events : List Event) (session reader : ℕ) (level : Level) (cell : Cell) (source count word : ℕ) (value : Value)
        (edges : List Edge) → IsFormed initial events → IsPending events reader session → RunsAt events reader level → Writes events source cell →
        AreNewDemands level events reader cell source edges → (a b : ℕ) →
        IsForced (with_read events session cell source count word value) a b ↔ IsForcedOrNew events edges source reader a b }
    ensures precedes { (initial : List (Cell × Value)) (events : List Event) (session reader : ℕ) (cell : Cell) (source count word : ℕ) (value : Value) →
        IsFormed initial events → IsPending events reader session → (a b : ℕ) →
        Precedes (with_read events session cell source count word value) a b ↔ PrecedesOrNew events source reader a b }
    ensures closure { (initial : List (Cell × Value)) (events : List Event) (session reader : ℕ) (level : Level) (cell : Cell) (source count word : ℕ) (value : Value)
        (edges : List Edge) → IsFormed initial events → IsPending events reader session → RunsAt events reader level → Writes events source cell →
        AreNewDemands level events reader cell source edges → (a b : ℕ) →
        Chained (IsForced (with_read events session cell source count word value)) a b ↔ Chained (IsForcedOrNew events edges source reader) a b }
    ensures past { (initial : List (Cell × Value)) (events : List Event) (session reader : ℕ) (cell : Cell) (source count word : ℕ) (value : Value) →
        IsFormed initial events → IsPending events reader session → (a b : ℕ) →
        Chained (Precedes (with_read events session cell source count word value)) a b ↔ Chained (PrecedesOrNew events source reader) a b }
{}

/// A history with a further read of a pending transaction is consistent exactly where the new demands close no cycle with the pairs that were
/// forced before, and then the read is permitted, whatever its count, word and value. Any list with the closure of these pairs will do, and the
/// pair of the read itself can be left out: nothing follows the reader.
pub fn further_read_is_permitted()
    ensures consistent { (initial : List (Cell × Value)) (events : List Event) (session reader : ℕ) (level : Level) (cell : Cell) (source count word : ℕ) (value : Value)
        (pairs edges : List Edge) → IsFormed initial events → IsPending events reader session → RunsAt events reader level → Writes events source cell →
        HaveForcedClosure events pairs → AreNewDemands level events reader cell source edges →
        IsConsistent (with_read events session cell source count word value) ↔ (¬ HasCycle (pairs ++ edges)) }
    ensures permitted { (initial : List (Cell × Value)) (events : List Event) (session reader : ℕ) (level : Level) (cell : Cell) (source : ℕ) (pairs edges : List Edge) →
        IsFormed initial events → IsPending events reader session → RunsAt events reader level → Writes events source cell →
        HaveForcedClosure events pairs → AreNewDemands level events reader cell source edges →
        IsPermitted events session cell source ↔ (¬ HasCycle (pairs ++ edges)) }
{}

/// A read from a transaction that the reader sees already shows it nothing new: at Read Committed no read does, and at Causal Consistency what is
/// seen is closed under the causal past. So its demands are those of the read itself alone.
pub fn seen_source_shows_nothing_new()
    ensures committed { (events : List Event) (reader source writer : ℕ) → ¬ IsNewlySeen Rc events reader source writer }
    ensures seen { (level : Level) (events : List Event) (reader source writer : ℕ) → Sees level events reader source → ¬ IsNewlySeen level events reader source writer }
    ensures sees { (level : Level) (events : List Event) (reader source writer : ℕ) → Sees level events reader source →
        SeesWith level events reader source writer ↔ Sees level events reader writer }
{}

/// No forced pair begins at a pending transaction, and so no chain of them.
pub fn nothing_follows_pending()
    ensures forced { (initial : List (Cell × Value)) (events : List Event) (session pending other : ℕ) →
        IsFormed initial events → IsPending events pending session → ¬ IsForced events pending other }
    ensures precedes { (initial : List (Cell × Value)) (events : List Event) (session pending other : ℕ) →
        IsFormed initial events → IsPending events pending session → ¬ Precedes events pending other }
    ensures closure { (initial : List (Cell × Value)) (events : List Event) (session pending other : ℕ) →
        IsFormed initial events → IsPending events pending session → ¬ Chained (IsForced events) pending other }
    ensures past { (initial : List (Cell × Value)) (events : List Event) (session pending other : ℕ) →
        IsFormed initial events → IsPending events pending session → ¬ Chained (Precedes events) pending other }
{}

/// Each event but a begin and a read leaves the forced pairs and what precedes what: a commit too, since nobody has seen the transaction before,
/// and a scan, since it lists each key that was written.
pub fn others_force_nothing()
    ensures forced { (initial : List (Cell × Value)) (events : List Event) (event : Event) → IsFormed initial events → Follows initial events event →
        ForcesNothing event → (a b : ℕ) → IsForced (events ++ event ∷ []) a b ↔ IsForced events a b }
    ensures precedes { (initial : List (Cell × Value)) (events : List Event) (event : Event) → IsFormed initial events → Follows initial events event →
        ForcesNothing event → (a b : ℕ) → Precedes (events ++ event ∷ []) a b ↔ Precedes events a b }
{}

/// A begin forces session order into the new transaction, and nothing else. Its closure is that of two pairs: the initial transaction and the
/// last one of the session, before the new one.
pub fn begin_forces()
    ensures forced { (initial : List (Cell × Value)) (events : List Event) (session : ℕ) (level : Level) → IsFormed initial events → (a b : ℕ) →
        IsForced (with_begin events session level) a b ↔ (IsForced events a b ⊎ IsBeforeBegun events session level a b) }
    ensures precedes { (initial : List (Cell × Value)) (events : List Event) (session : ℕ) (level : Level) → IsFormed initial events → (a b : ℕ) →
        Precedes (with_begin events session level) a b ↔ (Precedes events a b ⊎ IsBeforeBegun events session level a b) }
    ensures closure { (initial : List (Cell × Value)) (events : List Event) (session last : ℕ) (level : Level) → IsFormed initial events →
        IsLastBegun events session last → (a b : ℕ) →
        Chained (IsForced (with_begin events session level)) a b ↔ Chained (λ a b. IsForced events a b ⊎ IsBeginLink events last a b) a b }
    ensures past { (initial : List (Cell × Value)) (events : List Event) (session last : ℕ) (level : Level) → IsFormed initial events →
        IsLastBegun events session last → (a b : ℕ) →
        Chained (Precedes (with_begin events session level)) a b ↔ Chained (λ a b. Precedes events a b ⊎ IsBeginLink events last a b) a b }
{}

/// The last transaction that a session has begun: there is one, it is the pending one where there is one, and only a begin of the session changes it.
pub fn last_begun_changes()
    ensures one { (events : List Event) (session a b : ℕ) → IsLastBegun events session a → IsLastBegun events session b → a ≡ b }
    ensures pending { (initial : List (Cell × Value)) (events : List Event) (session number : ℕ) → IsFormed initial events → IsPending events number session →
        IsLastBegun events session number }
    ensures none { (session : ℕ) → IsLastBegun [] session 0 }
    ensures begun { (events : List Event) (session : ℕ) (level : Level) → IsLastBegun (with_begin events session level) session (begun events + 1) }
    ensures other { (events : List Event) (beginning session last : ℕ) (level : Level) → session ≢ beginning → IsLastBegun events session last →
        IsLastBegun (with_begin events beginning level) session last }
    ensures still { (events : List Event) (event : Event) (session last : ℕ) → is_begin event ≡ false → IsLastBegun events session last →
        IsLastBegun (events ++ event ∷ []) session last }
{}

/// From which transactions a transaction reads: a further read adds its source to its reader. Another event adds none but the initial transaction,
/// and a transaction that hasn't begun has read from none.
pub fn sources_change()
    ensures read { (initial : List (Cell × Value)) (events : List Event) (session reader : ℕ) (cell : Cell) (source count word : ℕ) (value : Value) →
        IsFormed initial events → IsPending events reader session → (a b : ℕ) →
        ReadsFrom (with_read events session cell source count word value) a b ↔ (ReadsFrom events a b ⊎ IsReadLink source reader a b) }
    ensures others { (events : List Event) (event : Event) → ReadsNothing event → (a b : ℕ) → 0 < a →
        ReadsFrom (events ++ event ∷ []) a b ↔ ReadsFrom events a b }
    ensures unbegun { (events : List Event) (a b : ℕ) → begun events < b → ¬ ReadsFrom events a b }
{}
