// The turns of a session: a call is made, a reply sent or a message looked at, until bytes are wanted or the end is there.
ghost use Rattle.std.specs.Prelude.{◌≡◌, ℕ, ◌+◌, ◌<◌, ◌≤◌, true, false};
ghost use Rattle.history_core.specs.Chronicle.{IsLegalChronicle};
ghost use Rattle.link_traits.specs.Faults.{Rose};
ghost use Rattle.link_traits.specs.Traffic.{Both, Sight, Wrote, WrotePart, sight_of};
ghost use Rattle.session_core.specs.declared.stage.SessionStage.TheVariants as stages;
ghost use Rattle.session_core.specs.Wants as wishes;
ghost use Rattle.session_core.specs.Wants.{IsResting};
ghost use Rattle.session_core.specs.Stands.{IsHolding, IsLast, left_at, message_at, message_work, statement_at};
ghost use Rattle.session_core.specs.Sessions.{wanted, work_of};
ghost use Rattle.session_core.specs.Serve.{Scene, scene_of};
ghost use Rattle.session_core.specs.Running.{Sits, Ran};
ghost use Rattle.cell_base.specs.declared.level.Level.{Level};

use crate::calling::make_call;
use crate::session::Session;
use crate::want::Want;
use history_book::{Book, Words};
use link_traits::{Link, send_all};

// Sends a reply. Answers whether it was sent whole.
fn send_whole<L: Link>(link: &mut L, reply: &[u8]) -> bool
    ensures whole { result ≡ true → Both (Wrote reply.now) (L.traffic link.old) (L.traffic link.new) }
    ensures part { result ≡ false → Both (WrotePart reply.now) (L.traffic link.old) (L.traffic link.new) }
    ensures failed { result ≡ false → Rose (L.write_faults link.old) (L.write_faults link.new) }
    ensures read_faults { L.read_faults link.new ≡ L.read_faults link.old }
    ensures write_faults { L.write_faults link.old ≤ L.write_faults link.new }
{
    send_all(link, reply).is_ok()
}

// Sends the reply that the session holds.
fn send<B: Book, L: Link, W: Words>(session: &mut Session, book: &B, link: &mut L, words: &W)
    requires holding { IsHolding session.old.stage session.old.runner }
    requires sits { Sits session.old (B.past book.now) }
    ensures ran { (level : Level) (before : Scene W) (many : ℕ) →
        Ran W.gives level before session.old (scene_of (B.past book.now) words.now (sight_of L.traffic L.read_faults L.write_faults link.old)) many →
        Ran W.gives level before session.new (scene_of (B.past book.now) words.now (sight_of L.traffic L.read_faults L.write_faults link.new)) many }
    ensures sits { Sits session.new (B.past book.now) }
    ensures work { work_of session.new < work_of session.old + message_at session.new.stage }
    ensures message { session.old.stage ≡ stages.Running →
        message_work session.new.stage session.new.runner < message_work session.old.stage session.old.runner }
    ensures last { IsLast session.old.stage → IsLast session.new.stage }
{
    if send_whole(link, session.reply()) {
        session.sent();
    } else {
        session.unsent();
    }
}

// Looks at the next message of those that the session holds.
fn take<B: Book, W: Words>(session: &mut Session, book: &B, words: &W)
    requires wanted { wanted session.old ≡ wishes.Message }
    requires sits { Sits session.old (B.past book.now) }
    ensures ran { (level : Level) (before : Scene W) (seen : Sight) (many : ℕ) →
        Ran W.gives level before session.old (scene_of (B.past book.now) words.now seen) many →
        Ran W.gives level before session.new (scene_of (B.past book.now) words.now seen) many }
    ensures sits { Sits session.new (B.past book.now) }
    ensures work { work_of session.new < work_of session.old }
{
    session.take();
}

// Does what the session wants. Answers whether it wanted something.
fn serve_want<B: Book, L: Link, W: Words>(
    session: &mut Session,
    book: &mut B,
    link: &mut L,
    words: &mut W,
) -> bool
    requires sits { Sits session.old (B.past book.old) }
    ensures ran { (level : Level) (before : Scene W) (many : ℕ) →
        Ran W.gives level before session.old (scene_of (B.past book.old) words.old (sight_of L.traffic L.read_faults L.write_faults link.old)) many →
        Ran W.gives level before session.new (scene_of (B.past book.new) words.new (sight_of L.traffic L.read_faults L.write_faults link.new)) many }
    ensures sits { Sits session.new (B.past book.new) }
    ensures work { result ≡ true → work_of session.new < work_of session.old + message_at session.new.stage }
    ensures message { session.old.stage ≡ stages.Running →
        message_work session.new.stage session.new.runner <
        message_work session.old.stage session.old.runner + statement_at session.new.stage session.new.runner }
    ensures rests { result ≡ false → IsResting (wanted session.new) }
    // Where a message runs something is wanted.
    ensures runs { session.old.stage ≡ stages.Running → result ≡ true }
    ensures last { IsLast session.old.stage → IsLast session.new.stage }
    ensures legal { IsLegalChronicle (B.past book.old).seen → IsLegalChronicle (B.past book.new).seen }
    ensures stays { B.stays book.old book.new }
{
    match session.demand() {
        Want::Message => {
            take(session, book, words);
            true
        }
        Want::Send => {
            send(session, book, link, words);
            true
        }
        Want::Define | Want::Cells | Want::Book(_) => {
            make_call(session, book, words);
            true
        }
        Want::Bytes | Want::Ended(_) => false,
    }
}

// Where a statement runs, makes the call that it demands. Answers whether one runs.
fn step_on<B: Book, W: Words>(session: &mut Session, book: &mut B, words: &mut W) -> bool
    requires sits { Sits session.old (B.past book.old) }
    ensures ran { (level : Level) (before : Scene W) (seen : Sight) (many : ℕ) →
        Ran W.gives level before session.old (scene_of (B.past book.old) words.old seen) many →
        Ran W.gives level before session.new (scene_of (B.past book.new) words.new seen) many }
    ensures sits { Sits session.new (B.past book.new) }
    ensures work { work_of session.new + message_at session.old.stage ≤ work_of session.old + message_at session.new.stage }
    ensures message { message_work session.new.stage session.new.runner + statement_at session.old.stage session.old.runner ≤
        message_work session.old.stage session.old.runner + statement_at session.new.stage session.new.runner }
    ensures left { result ≡ true → left_at session.new.stage session.new.runner < left_at session.old.stage session.old.runner }
    ensures at_rest { result ≡ false → statement_at session.new.stage session.new.runner ≡ 0 }
    ensures last { IsLast session.old.stage → IsLast session.new.stage }
    ensures legal { IsLegalChronicle (B.past book.old).seen → IsLegalChronicle (B.past book.new).seen }
    ensures stays { B.stays book.old book.new }
{
    match session.demand() {
        Want::Cells => {
            make_call(session, book, words);
            true
        }
        _ => false,
    }
}

// Makes all calls that a running statement demands.
fn run_on<B: Book, W: Words>(session: &mut Session, book: &mut B, words: &mut W)
    requires sits { Sits session.old (B.past book.old) }
    ensures ran { (level : Level) (before : Scene W) (seen : Sight) (many : ℕ) →
        Ran W.gives level before session.old (scene_of (B.past book.old) words.old seen) many →
        Ran W.gives level before session.new (scene_of (B.past book.new) words.new seen) many }
    ensures sits { Sits session.new (B.past book.new) }
    ensures work { work_of session.new + message_at session.old.stage ≤ work_of session.old + message_at session.new.stage }
    ensures message { message_work session.new.stage session.new.runner + statement_at session.old.stage session.old.runner ≤
        message_work session.old.stage session.old.runner }
    ensures last { IsLast session.old.stage → IsLast session.new.stage }
    ensures legal { IsLegalChronicle (B.past book.old).seen → IsLegalChronicle (B.past book.new).seen }
    ensures stays { B.stays book.old book.new }
{
    while step_on(session, book, words) {}
}

// Where a message runs, makes a call or sends a reply, and runs a statement to its end. Answers whether a message runs.
fn step_message<B: Book, L: Link, W: Words>(
    session: &mut Session,
    book: &mut B,
    link: &mut L,
    words: &mut W,
) -> bool
    requires sits { Sits session.old (B.past book.old) }
    ensures ran { (level : Level) (before : Scene W) (many : ℕ) →
        Ran W.gives level before session.old (scene_of (B.past book.old) words.old (sight_of L.traffic L.read_faults L.write_faults link.old)) many →
        Ran W.gives level before session.new (scene_of (B.past book.new) words.new (sight_of L.traffic L.read_faults L.write_faults link.new)) many }
    ensures sits { Sits session.new (B.past book.new) }
    ensures work { work_of session.new + message_at session.old.stage ≤ work_of session.old + message_at session.new.stage }
    ensures message { result ≡ true → message_work session.new.stage session.new.runner <
        message_work session.old.stage session.old.runner }
    ensures at_rest { result ≡ false → message_at session.new.stage ≡ 0 }
    ensures last { IsLast session.old.stage → IsLast session.new.stage }
    ensures legal { IsLegalChronicle (B.past book.old).seen → IsLegalChronicle (B.past book.new).seen }
    ensures stays { B.stays book.old book.new }
{
    if !session.is_running() {
        return false;
    }
    serve_want(session, book, link, words);
    run_on(session, book, words);
    true
}

// Runs a message to its end.
fn run_message<B: Book, L: Link, W: Words>(
    session: &mut Session,
    book: &mut B,
    link: &mut L,
    words: &mut W,
)
    requires sits { Sits session.old (B.past book.old) }
    ensures ran { (level : Level) (before : Scene W) (many : ℕ) →
        Ran W.gives level before session.old (scene_of (B.past book.old) words.old (sight_of L.traffic L.read_faults L.write_faults link.old)) many →
        Ran W.gives level before session.new (scene_of (B.past book.new) words.new (sight_of L.traffic L.read_faults L.write_faults link.new)) many }
    ensures sits { Sits session.new (B.past book.new) }
    ensures work { work_of session.new + message_at session.old.stage ≤ work_of session.old }
    ensures last { IsLast session.old.stage → IsLast session.new.stage }
    ensures legal { IsLegalChronicle (B.past book.old).seen → IsLegalChronicle (B.past book.new).seen }
    ensures stays { B.stays book.old book.new }
{
    while step_message(session, book, link, words) {}
}

// One turn: a call is made, a reply sent or a message looked at, and a message that runs is run to its end. Answers whether the
// session wanted it.
fn turn<B: Book, L: Link, W: Words>(
    session: &mut Session,
    book: &mut B,
    link: &mut L,
    words: &mut W,
) -> bool
    requires sits { Sits session.old (B.past book.old) }
    ensures ran { (level : Level) (before : Scene W) (many : ℕ) →
        Ran W.gives level before session.old (scene_of (B.past book.old) words.old (sight_of L.traffic L.read_faults L.write_faults link.old)) many →
        Ran W.gives level before session.new (scene_of (B.past book.new) words.new (sight_of L.traffic L.read_faults L.write_faults link.new)) many }
    ensures sits { Sits session.new (B.past book.new) }
    ensures work { result ≡ true → work_of session.new < work_of session.old }
    ensures rests { result ≡ false → IsResting (wanted session.new) }
    ensures last { IsLast session.old.stage → IsLast session.new.stage }
    ensures legal { IsLegalChronicle (B.past book.old).seen → IsLegalChronicle (B.past book.new).seen }
    ensures stays { B.stays book.old book.new }
{
    if !serve_want(session, book, link, words) {
        return false;
    }
    run_message(session, book, link, words);
    true
}

/// Serves the session until it wants bytes or has ended: each call that it wants is made of the book, and each reply is sent, in the order in
/// which it wants them. So when `drive` returns, all calls of which the client was told anything have been made of the book as it stands then.
/// `serve_link` reads its link between two such calls.
pub fn drive<B: Book, L: Link, W: Words>(
    session: &mut Session,
    book: &mut B,
    link: &mut L,
    words: &mut W,
)
    requires sits { Sits session.old (B.past book.old) }
    ensures ran { (level : Level) (before : Scene W) (many : ℕ) →
        Ran W.gives level before session.old (scene_of (B.past book.old) words.old (sight_of L.traffic L.read_faults L.write_faults link.old)) many →
        Ran W.gives level before session.new (scene_of (B.past book.new) words.new (sight_of L.traffic L.read_faults L.write_faults link.new)) many }
    ensures sits { Sits session.new (B.past book.new) }
    ensures rests { IsResting (wanted session.new) }
    ensures last { IsLast session.old.stage → IsLast session.new.stage }
    ensures legal { IsLegalChronicle (B.past book.old).seen → IsLegalChronicle (B.past book.new).seen }
    ensures stays { B.stays book.old book.new }
{
    while turn(session, book, link, words) {}
}
