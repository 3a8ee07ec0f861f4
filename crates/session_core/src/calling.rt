// The call that a session wants.
ghost use Rattle.std.specs.Prelude.{◌≡◌, ◌≢◌, ℕ, ◌+◌, ◌<◌, List, true, false};
ghost use Rattle.cell_base.specs.declared.cell.Cell as cells;
ghost use Rattle.cell_base.specs.declared.value.Value as values;
ghost use Rattle.history_core.specs.Chronicle.{IsLegalChronicle};
ghost use Rattle.block_machine.specs.Calls as calls;
ghost use Rattle.block_machine.specs.Calls.{Call as Asked};
ghost use Rattle.block_machine.specs.Runners.{Runs};
ghost use Rattle.session_core.specs.declared.stage.SessionStage.TheVariants as stages;
ghost use Rattle.session_core.specs.Wants as wishes;
ghost use Rattle.session_core.specs.Stands.{IsLast, Lacks, left_at, message_at, message_work, outer, served_of, statement_at};
ghost use Rattle.session_core.specs.Sessions.{wanted, work_of};
ghost use Rattle.session_core.specs.Running.{IsAnswered, MakesCall, Sits, SitsWhileOthersGoOn};

use crate::calls::{ask, call, define};
use crate::session::Session;
use crate::want::Want;
use block_machine::Answer;
use history_book::{Book, Words};
use statement_course::Demand;

// Whether the session wants a write.
fn wants_write(session: &Session) -> bool
    ensures writes { result ≡ true →
        (cell : cells.Cell) × (value : values.Value) × (wanted session.now ≡ wishes.Book (calls.Write cell value)) }
    ensures running { result ≡ true → session.now.stage ≡ stages.Running }
    ensures reads { result ≡ false →
        (cell : cells.Cell) (value : values.Value) → wanted session.now ≢ wishes.Book (calls.Write cell value) }
{
    match session.demand() {
        Want::Cells => matches!(session.demanded(), Demand::Write(_, _)),
        _ => false,
    }
}

// The answer of the book to the call that the session wants, which isn't a write.
fn answer_of<B: Book, W: Words>(session: &Session, book: &mut B, words: &mut W) -> Answer
    requires wanted { (c : Asked) × (wanted session.now ≡ wishes.Book c) }
    requires reads { (cell : cells.Cell) (value : values.Value) → wanted session.now ≢ wishes.Book (calls.Write cell value) }
    requires sits { Sits session.now (B.past book.old) }
    ensures answered { IsAnswered W.gives session.now (B.past book.old) words.old result (B.past book.new) words.new }
    ensures legal { IsLegalChronicle (B.past book.old).seen → IsLegalChronicle (B.past book.new).seen }
    ensures stays { B.stays book.old book.new }
{
    match session.demand() {
        Want::Define => define(book, words, session.table()),
        Want::Cells => ask(book, words, session.demanded()),
        Want::Book(c) => call(book, words, c),
        Want::Bytes | Want::Message | Want::Send | Want::Ended(_) => unreachable!(),
    }
}

/// Makes the one call of its book that a session wants, and hands the session the answer. The book may have been used by others
/// meanwhile, as long as the session still sits by it. Whatever the session was fed, answered and sent before, its record has grown by
/// just this call, as it was answered, and perhaps by a lack of memory of the session's own after it.
pub fn make_call<B: Book, W: Words>(session: &mut Session, book: &mut B, words: &mut W)
    requires wanted { (c : Asked) × (wanted session.old ≡ wishes.Book c) }
    requires sits { Sits session.old (B.past book.old) }
    ensures made { MakesCall W.gives session.old (B.past book.old) words.old session.new (B.past book.new) words.new }
    ensures sits { Sits session.new (B.past book.new) }
    ensures legal { IsLegalChronicle (B.past book.old).seen → IsLegalChronicle (B.past book.new).seen }
    ensures stays { B.stays book.old book.new }
    // The level of the server stays, and so do the end that the link made, if it made one, and what a failed write left.
    ensures served { served_of session.new.runner ≡ served_of session.old.runner }
    ensures outer { outer session.new.stage ≡ outer session.old.stage }
    ensures lacks { (lost : List ℕ) → Lacks session.old.stage lost → Lacks session.new.stage lost }
    ensures last { IsLast session.old.stage → IsLast session.new.stage }
    // Less work is left.
    ensures work { work_of session.new < work_of session.old + message_at session.new.stage }
    ensures message { session.old.stage ≡ stages.Running →
        message_work session.new.stage session.new.runner <
        message_work session.old.stage session.old.runner + statement_at session.new.stage session.new.runner }
    ensures left { session.old.stage ≡ stages.Running → Runs session.old.runner →
        left_at session.new.stage session.new.runner < left_at session.old.stage session.old.runner }
{
    if wants_write(session) {
        session.write(book);
    } else {
        let answer = answer_of(session, book, words);
        session.answer(answer);
    }
}

/// A session may make its next call also after others have added to the history.
pub fn sessions_sit_while_others_go_on()
    ensures { SitsWhileOthersGoOn }
{}
