// Two workers with one link each over one history, whose sessions meet: each waits inside its statement until the other one has come as far.
//
// A server that runs sessions one after another, in whichever order, never gets there, and neither does one that holds the history over a
// whole statement. No contract speaks of the order in which threads run.
ghost use Rattle.std.specs.Prelude.{◌≡◌, ◌+◌, ◌≤◌, IfOk, vec_len, vec_capacity};
ghost use Rattle.history_book.specs.Book.{no_session};
ghost use Rattle.doors.specs.Passage.{IsUnused};
ghost use Rattle.doors.specs.MemDoors.{mem_passage};
ghost use Rattle.door_workers.specs.Workers.{IsReady, post_of};

use crate::meeting_book::{MeetingBook, Ones, meeting_book};
use cell_base::{Items, Level, Memory};
use choice_stream::ListWords;
use door_workers::{Progress, Worker, serve_doors};
use doors::MemDoor;
use history_book::Book;
use history_core::InitialState;
use link_traits::{MemLink, MemPlan};
use session_core::serve_link;
use session_text::{Unread, reply_bytes, request_bytes};
use shared_book::Shared;
use std::alloc::Global;
use std::sync::Wait;
use std::sync::atomic::AtomicBool;
use std::test::Fail;
use std::thread::Threads;
use valid_writes::{SeatBook, Store};

// Session 1 makes a table and its row.
const MAKES: &str = r"
> StartupMessage user=a
> Query CREATE TABLE t (k bigint PRIMARY KEY, v bigint)
> Query INSERT INTO t VALUES (1, 10)
> Terminate
";

// A reader whose session is number 2, and number 3.
const SECOND: &str = r"
> StartupMessage user=a
+ started as session 2
> Query SELECT v FROM t WHERE k = 1
< RowDescription v bigint
< DataRow 10
< CommandComplete SELECT 1
< ReadyForQuery I
> Terminate
";

const THIRD: &str = r"
> StartupMessage user=a
+ started as session 3
> Query SELECT v FROM t WHERE k = 1
< RowDescription v bigint
< DataRow 10
< CommandComplete SELECT 1
< ReadyForQuery I
> Terminate
";

// What a reader sends, and what it is sent where its session is number 2, and number 3.
#[derive(Drop)]
struct Reader {
    client: Vec<u8>,
    second: Vec<u8>,
    third: Vec<u8>,
}

fn written_reader(alloc: Global) -> Result<Reader, Unread> {
    Ok(Reader {
        client: request_bytes(alloc, SECOND)?,
        second: reply_bytes(alloc, SECOND)?,
        third: reply_bytes(alloc, THIRD)?,
    })
}

// A side that does all that it is asked to.
fn plan(alloc: Global) -> MemPlan
    ensures { result.piece ≡ 10000 }
{
    MemPlan {
        piece: 10_000,
        fails: Items::new(alloc),
        bytes: 10_000,
        reads: 100,
    }
}

fn link(alloc: Global, client: &[u8]) -> Result<MemLink, Memory> {
    MemLink::new(
        alloc,
        Vec::from_slice(alloc, client)?,
        plan(alloc),
        plan(alloc),
    )
}

// A door of one link, which has this client.
fn door(alloc: Global, client: &[u8]) -> Result<MemDoor, Memory>
    ensures { IfOk result (λ door. IsUnused (mem_passage door)) }
{
    let mut links = Vec::with_capacity(alloc, 1)?;
    links.push(link(alloc, client)?)?;
    MemDoor::new(alloc, links, Vec::new(alloc))
}

// A book of a new store at Causal Consistency.
fn new_book(alloc: Global) -> Result<SeatBook, Memory>
    ensures { IfOk result (λ book. book.state ≡ no_session) }
{
    Ok(Store::new(alloc, Level::Cc, InitialState::empty(alloc))?.seat(None))
}

// A store whose session 1 was this client's.
fn prepared(alloc: Global, client: &[u8]) -> Result<Store, Memory> {
    let mut book = new_book(alloc)?;
    let mut link = link(alloc, client)?;
    let mut words = ListWords::new(Items::new(alloc));
    serve_link(alloc, Level::Cc, &mut book, &mut link, &mut words);
    Ok(book.into_store())
}

// A worker that accepts one link, which has this client.
fn worker<'a, R: Wait>(
    alloc: Global,
    client: &[u8],
    book: MeetingBook<'a, R>,
) -> Result<Worker<MeetingBook<'a, R>, MemDoor, Ones>, Memory>
    requires { book.book.state ≡ no_session }
    ensures ready { IfOk result (λ worker. IsReady (post_of ⟦<MeetingBook<'a, R> as Book>⟧.past mem_passage worker)) }
    ensures room { IfOk result (λ worker. vec_len worker.served + worker.accept ≤ vec_capacity worker.served) }
{
    Ok(Worker {
        book,
        door: door(alloc, client)?,
        words: Ones,
        accept: 1,
        served: Vec::with_capacity(alloc, 1)?,
        fault: None,
    })
}

// What came of a worker: whether its session met the other one, and which number it had; 0 where its client wasn't sent what such a session
// sends.
type Came = (bool, u32);

fn came_of<B, W>(worker: &Worker<B, MemDoor, W>, reader: &Reader, met: bool) -> Came {
    let session = match worker.door.back() {
        [link] if link.written() == reader.second.as_slice() => 2,
        [link] if link.written() == reader.third.as_slice() => 3,
        _ => 0,
    };
    (met, session)
}

// What comes of two workers over one history, by which a reader each comes in.
fn meet<R: Threads + Wait + Eprint + Sync>(
    rt: &R,
    alloc: Global,
    store: Store,
    reader: &Reader,
) -> Result<(Came, Came), Memory> {
    let Ok((shared, mut pass)) = Shared::new(alloc, store) else {
        return Err(Memory);
    };
    let other = shared.split(&mut pass);
    let (first, second) = (AtomicBool::new(false), AtomicBool::new(false));
    let one = worker(
        alloc,
        &reader.client,
        meeting_book(shared.book(rt, pass), &first, &second),
    )?;
    let two = worker(
        alloc,
        &reader.client,
        meeting_book(shared.book(rt, other), &second, &first),
    )?;
    let mut workers = [one, two];
    serve_doors(rt, alloc, Level::Cc, Progress::Silent, &mut workers);
    let [one, two] = &workers;
    Ok((
        came_of(one, reader, one.book.met),
        came_of(two, reader, two.book.met),
    ))
}

#[test]
fn serves_two_sessions_at_the_same_time(rt: HostRuntime) -> Result<(), Fail> {
    let alloc = rt.alloc();
    let reader = written_reader(alloc)?;
    assert_eq!(rt; reader.second.len(), 251);
    assert_eq!(rt; reader.third.len(), 251);
    let store = prepared(alloc, &request_bytes(alloc, MAKES)?)?;
    let came = meet(&rt, alloc, store, &reader)?;
    assert!(rt; came == ((true, 2), (true, 3)) || came == ((true, 3), (true, 2)));
    Ok(())
}
