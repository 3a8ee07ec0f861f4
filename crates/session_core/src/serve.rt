// Serves a session over a link.
ghost use Rattle.std.specs.Prelude.{◌≡◌, ℕ, ◌+◌, ◌<◌, ◌≤◌, List, [], length, IfOk};
ghost use Rattle.history_core.specs.Chronicle.{IsLegalChronicle};
ghost use Rattle.history_book.specs.Book.{no_session};
ghost use Rattle.link_traits.specs.Traffic.{sight_of};
ghost use Rattle.block_machine.specs.Calls.{Call as Asked};
ghost use Rattle.block_machine.specs.Knowledge.{at_start};
ghost use Rattle.block_machine.specs.Script.{Entry, has_short};
ghost use Rattle.block_machine.specs.Runners.{knowledge_of, tables_of};
ghost use Rattle.session_core.specs.declared.phase.Phase.TheVariants as phases;
ghost use Rattle.session_core.specs.declared.stage.SessionStage.TheVariants as stages;
ghost use Rattle.session_core.specs.Wants as wishes;
ghost use Rattle.session_core.specs.Wants.{IsOver};
ghost use Rattle.session_core.specs.Told.{opened_in};
ghost use Rattle.session_core.specs.Stands.{IsFit, IsLast, served_of};
ghost use Rattle.session_core.specs.Sessions.{Stands, wanted};
ghost use Rattle.session_core.specs.Serve.{Scene, scene_of, Account, Serves, most_at_once};
ghost use Rattle.session_core.specs.Running.{Sits, Ran};

use crate::driving::drive;
use crate::served::Served;
use crate::session::Session;
use crate::want::Want;
use block_machine::{End, Stop};
use cell_base::{Level, Memory};
use history_book::{Book, Words};
use link_traits::Link;
use std::alloc::Global;

/// The greatest number of bytes that are read from a link.
pub const MOST_READ: usize = 1_073_741_824;

// The greatest number of bytes that are read at once.
const ROOM: usize = 8192;

// Reads a piece of at most so many bytes into the session, or tells it to stop. Answers how many bytes were read.
fn take_in<B: Book, L: Link, W: Words>(
    session: &mut Session,
    book: &B,
    link: &mut L,
    words: &W,
    room: &mut [u8],
    most: usize,
) -> usize
    requires wanted { wanted session.old ≡ wishes.Bytes }
    requires room { 0 < length room.old }
    requires at_once { length room.old ≤ most_at_once }
    requires sits { Sits session.old (B.past book.now) }
    ensures ran { (level : Level) (before : Scene W) (many : ℕ) → many + most ≡ 1073741824 →
        Ran W.gives level before session.old (scene_of (B.past book.now) words.now (sight_of L.traffic L.read_faults L.write_faults link.old)) many →
        Ran W.gives level before session.new (scene_of (B.past book.now) words.now (sight_of L.traffic L.read_faults L.write_faults link.new))
        (many + result) }
    ensures sits { Sits session.new (B.past book.now) }
    ensures within { result ≤ most }
    ensures stopped { result ≡ 0 → IsLast session.new.stage }
{
    if most == 0 {
        session.stop(Stop::Spent);
        return 0;
    }
    let size = most.min(room.len());
    let piece = &mut room[..size];
    match link.read(piece) {
        Ok(n) => {
            if n == 0 {
                session.stop(Stop::EndOfInput);
            } else {
                session.feed(&piece[..n]);
            }
            n
        }
        Err(_) => {
            session.stop(Stop::ReadFault);
            0
        }
    }
}

// What became of a session that has ended.
fn finish(session: &Session) -> Served
    requires { IsOver (wanted session.now) }
    ensures end { wanted session.now ≡ wishes.Ended result.end }
    ensures opened { (taken : List ℕ) (entries : List Entry) (asked : List Asked) (sent : List ℕ) →
        Stands session.now taken entries asked sent → result.session ≡ opened_in entries }
    ensures short { (taken : List ℕ) (entries : List Entry) (asked : List Asked) (sent : List ℕ) →
        Stands session.now taken entries asked sent → result.short ≡ has_short entries }
{
    let number = session.number();
    let short = session.is_short();
    match session.demand() {
        Want::Ended(end) => Served {
            session: number,
            end,
            short,
        },
        _ => unreachable!(),
    }
}

// What a session is served with.
#[derive(Drop)]
struct Start {
    session: Session,
    room: Vec<u8>,
}

fn begin(alloc: Global, level: Level) -> Result<Start, Memory>
    ensures empty { IfOk result (λ s. Stands s.session [] [] [] []) }
    ensures stage { IfOk result (λ s. s.session.stage ≡ stages.Waiting phases.Startup) }
    ensures level { IfOk result (λ s. served_of s.session.runner ≡ level) }
    ensures known { IfOk result (λ s. knowledge_of s.session.runner ≡ at_start level) }
    ensures fit { IfOk result (λ s. IsFit s.session.runner) }
    ensures room { IfOk result (λ s. 0 < length s.room.items) }
    ensures at_once { IfOk result (λ s. length s.room.items ≤ most_at_once) }
{
    Ok(Start {
        session: Session::new(alloc, level)?,
        room: vec![in alloc; 0u8; ROOM]?,
    })
}

// Serves a session from its beginning on.
fn run<B: Book, L: Link, W: Words>(
    alloc: Global,
    session: &mut Session,
    room: &mut [u8],
    book: &mut B,
    link: &mut L,
    words: &mut W,
) -> Served
    requires empty { Stands session.old [] [] [] [] }
    requires stage { session.old.stage ≡ stages.Waiting phases.Startup }
    requires known { tables_of session.old.runner ≡ [] }
    requires fit { IsFit session.old.runner }
    requires room { 0 < length room.old }
    requires at_once { length room.old ≤ most_at_once }
    requires no_session { (B.past book.old).state ≡ no_session }
    ensures served { (account : Account) ×
        Serves W.gives (served_of session.old.runner)
        (scene_of (B.past book.old) words.old (sight_of L.traffic L.read_faults L.write_faults link.old)) result
        (scene_of (B.past book.new) words.new (sight_of L.traffic L.read_faults L.write_faults link.new)) account }
    ensures no_session { (B.past book.new).state ≡ no_session }
    ensures legal { IsLegalChronicle (B.past book.old).seen → IsLegalChronicle (B.past book.new).seen }
    ensures stays { B.stays book.old book.new }
{
    let mut left = MOST_READ;
    loop {
        drive(session, book, link, words);
        if let Want::Ended(_) = session.demand() {
            return finish(session);
        }
        let n = take_in(session, book, link, words, room, left);
        if n == 0 {
            drive(session, book, link, words);
            return finish(session);
        }
        left -= n;
    }
}

/// Serves one session at a level over a link, on a book that has none, with the words that choose what its reads find. What is sent,
/// but for what a failed write left, what is asked of the book and how the session ends are told of the bytes that were read and of a
/// record, whose events are those that the book has made its own. `session` is the session that the record opened, and `short` says
/// whether the record has a lack of memory. A history that was legal when the session began is legal when it has ended.
pub fn serve_link<B: Book, L: Link, W: Words>(
    alloc: Global,
    level: Level,
    book: &mut B,
    link: &mut L,
    words: &mut W,
) -> Served
    requires { (B.past book.old).state ≡ no_session }
    ensures served { (account : Account) ×
        Serves W.gives level (scene_of (B.past book.old) words.old (sight_of L.traffic L.read_faults L.write_faults link.old)) result
        (scene_of (B.past book.new) words.new (sight_of L.traffic L.read_faults L.write_faults link.new)) account }
    ensures no_session { (B.past book.new).state ≡ no_session }
    ensures legal { IsLegalChronicle (B.past book.old).seen → IsLegalChronicle (B.past book.new).seen }
    ensures stays { B.stays book.old book.new }
{
    match begin(alloc, level) {
        Ok(mut start) => run(
            alloc,
            &mut start.session,
            &mut start.room,
            book,
            link,
            words,
        ),
        Err(Memory) => Served {
            session: None,
            end: End::Memory,
            short: true,
        },
    }
}
