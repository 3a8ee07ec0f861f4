// What a read may see where one session was opened.
ghost use Rattle.std.specs.Prelude.{◌≤◌, ◌↔◌, ℕ, List};
ghost use Rattle.cell_base.specs.declared.cell.Cell.{Cell};
ghost use Rattle.cell_base.specs.declared.level.Level.{Level};
ghost use Rattle.cell_base.specs.declared.value.Value.{Value};
ghost use Rattle.history_core.specs.declared.event.Event.{Event};
ghost use Rattle.history_core.specs.Events.{opened};
ghost use Rattle.history_core.specs.Transactions.{IsPending, RunsAt};
ghost use Rattle.history_core.specs.Legal.{IsLegal, IsPermitted};
ghost use Rattle.lone_session.specs.Passed.{MaySee};

/// Where one session was opened, whatever the levels of the other transactions: a read at Read Committed may see exactly the
/// writers of the cell that no later writer has passed, from which the same transaction has read before, and a read at Read
/// Atomic or Causal Consistency exactly the last writer of the cell.
pub fn one_session_permits()
    ensures { (initial : List (Cell × Value)) (events : List Event) (session reader : ℕ) (level : Level) (cell : Cell) (source : ℕ) →
        IsLegal initial events → opened events ≤ 1 → IsPending events reader session → RunsAt events reader level →
        IsPermitted events session cell source ↔ MaySee level events reader cell source }
{}
