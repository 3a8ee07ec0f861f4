// The law of kept rows.
ghost use Rattle.std.specs.Prelude.{◌∷◌, ◌++◌, [], List};
ghost use Rattle.cell_base.specs.declared.cell.Cell.{Cell};
ghost use Rattle.cell_base.specs.declared.value.Value.{Value};
ghost use Rattle.history_core.specs.declared.event.Event.{Event};
ghost use Rattle.history_core.specs.Legal.{IsFormed, Follows};
ghost use Rattle.further_reads.specs.Begun.{ForcesNothing};
ghost use Rattle.forced_rows.specs.declared.rows.ForcedRows.{ForcedRows};
ghost use Rattle.forced_rows.specs.Rows.{AreRowsOf};

/// The rows of a history are those of the history with one event more, where that is neither a begin nor a read of a cell.
pub fn rows_stay()
    ensures { (initial : List (Cell × Value)) (events : List Event) (event : Event) (rows : ForcedRows) → IsFormed initial events →
        Follows initial events event → ForcesNothing event → AreRowsOf events rows → AreRowsOf (events ++ event ∷ []) rows }
{}
