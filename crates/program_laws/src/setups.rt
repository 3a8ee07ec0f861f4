// What holds of the rows that a setup leaves.
ghost use Rattle.std.specs.Prelude.{◌≤◌, ◌+◌, ℕ, List, length};
ghost use Rattle.cell_base.specs.declared.cell.Cell.{Cell};
ghost use Rattle.cell_base.specs.declared.level.Level.{Level};
ghost use Rattle.cell_base.specs.declared.value.Value.{Value};
ghost use Rattle.history_core.specs.Chronicle.{Chronicle};
ghost use Rattle.history_core.specs.Initial.{HoldsWholeRows, initial_load};
ghost use Rattle.setup_session.specs.Setups.{SetsUp};
ghost use Rattle.committed_rows.specs.Rows.{AreCommittedRows};
ghost use Rattle.committed_rows.specs.Start.{HasNoRoom};

/// The rows that are committed at the end of a setup are whole: each is one of a table that the setup defined, and has each field of its table
/// but the key's, and no other. So where nothing may start after a setup, that is for its weight: its rows and its tables make 1,048,576 or more.
pub fn setups_leave_whole_rows()
    ensures whole { (text : List ℕ) (setup : Chronicle) (cells : List (Cell × Value)) → SetsUp text setup → AreCommittedRows setup cells →
        HoldsWholeRows setup.tables cells }
    ensures weight { (text : List ℕ) (level : Level) (setup : Chronicle) (cells : List (Cell × Value)) → SetsUp text setup → HasNoRoom level setup →
        AreCommittedRows setup cells → 1048576 ≤ initial_load cells + length setup.tables }
{}
