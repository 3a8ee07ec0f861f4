// What holds of histories in which rows are kept whole.
ghost use Rattle.std.specs.Prelude.{ℕ, List};
ghost use Rattle.cell_base.specs.declared.cell.Cell.{Cell};
ghost use Rattle.cell_base.specs.declared.value.Value.{Value};
ghost use Rattle.sql_tree.specs.declared.table.Table.{Table};
ghost use Rattle.history_core.specs.declared.event.Event.{Event};
ghost use Rattle.history_core.specs.Initial.{IsInitialState, HoldsWholeRows};
ghost use Rattle.history_core.specs.Legal.{IsLegal};
ghost use Rattle.statement_laws.specs.WholeRows.{KeepsRows, ShowsNoUnset};

/// No read of a legal history shows a cell without a value, from the history or from its own writes, where the initial state holds
/// whole rows of the tables and each transaction keeps them whole: a row that it writes as there has all its fields before anything
/// is read or the transaction commits, and it reads the fields of rows that it was shown to be there. The levels of the transactions
/// may differ.
pub fn rows_are_whole()
    ensures { (tables : List Table) (initial : List (Cell × Value)) (events : List Event) → IsInitialState initial → IsLegal initial events →
        HoldsWholeRows tables initial → KeepsRows tables events → ShowsNoUnset events }
{}
