// What holds of the rows of tables in what sessions make of a history.
ghost use Rattle.std.specs.Prelude.{◌≡◌, ◌⊎◌, ℕ, List, []};
ghost use Rattle.cell_base.specs.declared.level.Level.{Level};
ghost use Rattle.sql_tree.specs.declared.table.Table.{Table};
ghost use Rattle.history_book.specs.Book.{Past};
ghost use Rattle.history_core.specs.Chronicle.{Chronicle, IsLegalChronicle, own_events};
ghost use Rattle.history_core.specs.Initial.{HoldsWholeRows};
ghost use Rattle.block_machine.specs.Script.{Entry, Said, Next};
ghost use Rattle.session_core.specs.declared.served.Served.{Served as Outcome};
ghost use Rattle.session_core.specs.Requests.{Requests};
ghost use Rattle.session_core.specs.Told.{told};
ghost use Rattle.session_core.specs.Record.{IsValidRecord, events_of};
ghost use Rattle.session_core.specs.Serve.{Scene, Account, Serves};
ghost use Rattle.statement_laws.specs.WholeRows.{ShowsNoUnset};
ghost use Rattle.session_laws.specs.Alone.{AreFirst, KeepsRowsAlone};
ghost use Rattle.session_laws.specs.Made.{IsMade};

use history_book::Words;

/// A session keeps the rows of the tables whole that its book has seen, and of any that are defined later: its statements write each row
/// with all its fields, and read the fields of rows that they were shown to be there. The same holds of what a session was told so far,
/// whatever comes next.
pub fn session_keeps_rows<W: Words>()
    ensures serves { (level : Level) (before : Scene W) (outcome : Outcome) (after : Scene W) (account : Account) (tables : List Table) →
        Serves W.gives level before outcome after account → AreFirst after.past.seen.tables tables → KeepsRowsAlone tables (events_of account.entries) }
    ensures told { (level : Level) (requests : Requests) (said : Said) (next : Next) (entries : List Entry) (before : Past) (words : W) (after : Past)
        (left : W) (tables : List Table) → told level requests entries ≡ (said, next) →
        IsValidRecord W.gives before words said.calls entries after left → AreFirst after.seen.tables tables →
        KeepsRowsAlone tables (events_of entries) }
{}

/// No read of a legal history shows a cell without a value, where the initial state holds whole rows of the tables and the events of each
/// session keep them whole.
pub fn kept_rows_are_whole()
    ensures { (history : Chronicle) → IsLegalChronicle history → HoldsWholeRows history.tables history.initial →
        ((session : ℕ) → KeepsRowsAlone history.tables (own_events history.events session)) → ShowsNoUnset history.events }
{}

/// The histories that sessions make: no read of a legal history shows a cell without a value, where the initial state holds whole rows of
/// the tables, and each session that has an event was told what a session is told, over a book of this history.
pub fn made_rows_are_whole<W: Words>()
    ensures { (history : Chronicle) → IsLegalChronicle history → HoldsWholeRows history.tables history.initial →
        ((session : ℕ) → (own_events history.events session ≡ []) ⊎ IsMade W.gives history session) → ShowsNoUnset history.events }
{}
