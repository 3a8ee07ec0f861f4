// What Read Atomic and Causal Consistency promise.
ghost use Rattle.std.specs.Prelude.{ℕ, List};
ghost use Rattle.cell_base.specs.declared.level.Level.TheVariants.{Cc};
ghost use Rattle.history_core.specs.declared.event.Event.{Event};
ghost use Rattle.history_core.specs.Transactions.{RunsAt};
ghost use Rattle.history_core.specs.Relations.{IsConsistent};
ghost use Rattle.level_laws.specs.Promises.{RunsAtomically, TakesWhole, TakesNoneOlder, LosesNoCause};

/// No fractured reads, in a consistent history, as each legal one is, whatever the levels of the other transactions. A reader at Read
/// Atomic or Causal Consistency takes two cells that two transactions both wrote from the same one of them. And it takes no cell from
/// the causal past of a transaction that wrote the cell too, and that it has read from, or that is an earlier one of its session.
pub fn no_fractured_reads()
    ensures whole { (events : List Event) (reader : ℕ) → IsConsistent events → RunsAtomically events reader → TakesWhole events reader }
    ensures older { (events : List Event) (reader : ℕ) → IsConsistent events → RunsAtomically events reader → TakesNoneOlder events reader }
{}

/// No lost causes, in a consistent history, whatever the levels of the other transactions. A reader at Causal Consistency takes no cell
/// from the causal past of a transaction that wrote the cell too, and that stands in the reader's own causal past.
pub fn no_lost_causes()
    ensures { (events : List Event) (reader : ℕ) → IsConsistent events → RunsAt events reader Cc → LosesNoCause events reader }
{}
