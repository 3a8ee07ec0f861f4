// The laws of what is committed at the end of a history, and of what starts with it.
ghost use Rattle.std.specs.Prelude.{◌≡◌, ◌<◌, ◌+◌, List, length};
ghost use Rattle.cell_base.specs.declared.cell.Cell.{Cell};
ghost use Rattle.cell_base.specs.declared.level.Level.{Level};
ghost use Rattle.cell_base.specs.declared.value.Value.{Value};
ghost use Rattle.history_core.specs.Chronicle.{Chronicle, IsLegalChronicle};
ghost use Rattle.history_core.specs.Initial.{initial_load};
ghost use Rattle.committed_rows.specs.Rows.{AreCommittedRows};
ghost use Rattle.committed_rows.specs.Start.{StartsAfter};

/// A history has at most one list of committed rows.
pub fn one_list_of_rows()
    ensures { (history : Chronicle) (a b : List (Cell × Value)) → AreCommittedRows history a → AreCommittedRows history b → a ≡ b }
{}

/// At most one history starts after another one at a level.
pub fn one_start()
    ensures { (level : Level) (setup a b : Chronicle) → StartsAfter level setup a → StartsAfter level setup b → a ≡ b }
{}

/// A legal history that starts after another one has room: the load of its initial state and the number of its tables make less than
/// 1,048,576.
pub fn legal_start_is_small()
    ensures { (level : Level) (setup start : Chronicle) → StartsAfter level setup start → IsLegalChronicle start →
        initial_load start.initial + length start.tables < 1048576 }
{}
