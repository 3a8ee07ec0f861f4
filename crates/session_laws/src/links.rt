// What holds of the record of one link.
ghost use Rattle.std.specs.Prelude.{◌≡◌, List};
ghost use Rattle.cell_base.specs.declared.level.Level.{Level};
ghost use Rattle.history_book.specs.Book.{Past};
ghost use Rattle.block_machine.specs.Calls.{Call};
ghost use Rattle.block_machine.specs.Script.{Entry, Said, Next};
ghost use Rattle.session_core.specs.declared.served.Served.{Served as Outcome};
ghost use Rattle.session_core.specs.Requests.{Requests};
ghost use Rattle.session_core.specs.Told.{told, opened_in};
ghost use Rattle.session_core.specs.Record.{IsValidRecord, events_of};
ghost use Rattle.session_core.specs.Serve.{Scene, Account, Serves};
ghost use Rattle.session_laws.specs.Openings.{AreOfOneSession};

use history_book::Words;

/// A link opens one session at most. The record of what was served has no event, or it begins with the opening of the session that the
/// outcome names, and each later event is of that session and opens none. The same holds of a record so far, whatever comes next.
pub fn link_opens_one_session<W: Words>()
    ensures serves { (level : Level) (before : Scene W) (outcome : Outcome) (after : Scene W) (account : Account) →
        Serves W.gives level before outcome after account → AreOfOneSession outcome.session (events_of account.entries) }
    ensures told { (level : Level) (requests : Requests) (said : Said) (next : Next) (entries : List Entry) (before : Past) (words : W) (after : Past) (left : W) →
        told level requests entries ≡ (said, next) → IsValidRecord W.gives before words said.calls entries after left →
        AreOfOneSession (opened_in entries) (events_of entries) }
{}
