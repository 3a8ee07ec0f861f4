// Serves the links of doors.
ghost use Rattle.std.specs.Prelude.{◌≡◌, ◌≤◌, ◌<◌, ◌+◌, ◌++◌, ◌∷◌, ℕ, [], true, false, None, Some, All, length, vec_len, vec_capacity, cond};
ghost use Rattle.link_traits.specs.Traffic.{Sight, sight_of};
ghost use Rattle.history_core.specs.Chronicle.{IsLegalChronicle};
ghost use Rattle.history_book.specs.Book.{no_session};
ghost use Rattle.session_core.specs.Serve.{Account, Serves, scene_of};
ghost use Rattle.doors.specs.Passage.{given_back};
ghost use Rattle.door_workers.specs.Pairs.{EachPair};
ghost use Rattle.door_workers.specs.Workers.{Post, Attended, Worked, IsReady, IsNoneLeft, faults_after, post_of};

use crate::progress::{Progress, tell_came, tell_fault, tell_none, tell_went};
use crate::worker::Worker;
use cell_base::Level;
use doors::Door;
use history_book::{Book, Words};
use session_core::{Served, serve_link};
use std::alloc::Global;
use std::thread;
use std::thread::Threads;

// Serves a link that came in, and gives it back.
fn serve_visit<B: Book, D: Door, W: Words>(
    alloc: Global,
    level: Level,
    worker: &mut Worker<B, D, W>,
    mut link: D::Link,
) -> Served
    requires no_session { (B.past worker.old.book).state ≡ no_session }
    requires balance { length (D.passage worker.old.door).back < (D.passage worker.old.door).accepted }
    requires room { vec_len worker.old.served < vec_capacity worker.old.served }
    ensures served { (account : Account) × (went : Sight) ×
        Serves W.gives level
        (scene_of (B.past worker.old.book) worker.old.words (sight_of D.Link.traffic D.Link.read_faults D.Link.write_faults link)) result
        (scene_of (B.past worker.new.book) worker.new.words went) account ×
        (D.passage worker.new.door ≡ given_back went (D.passage worker.old.door)) }
    ensures kept { worker.new.served.items ≡ worker.old.served.items ++ result ∷ [] }
    ensures len { vec_len worker.new.served ≡ vec_len worker.old.served + 1 }
    ensures capacity { vec_capacity worker.new.served ≡ vec_capacity worker.old.served }
    ensures no_session { (B.past worker.new.book).state ≡ no_session }
    ensures legal { IsLegalChronicle (B.past worker.old.book).seen → IsLegalChronicle (B.past worker.new.book).seen }
    ensures stays { B.stays worker.old.book worker.new.book }
    ensures accept { worker.new.accept ≡ worker.old.accept }
    ensures fault { worker.new.fault ≡ worker.old.fault }
{
    let served = serve_link(alloc, level, &mut worker.book, &mut link, &mut worker.words);
    worker.door.done(link);
    worker.served.push_reserved(served);
    served
}

// Serves the next link, and answers whether one came.
fn serve_next<R: Eprint, B: Book, D: Door, W: Words>(
    rt: &R,
    alloc: Global,
    level: Level,
    progress: Progress,
    number: usize,
    worker: &mut Worker<B, D, W>,
) -> bool
    requires ready { IsReady (post_of B.past D.passage worker.old) }
    requires room { vec_len worker.old.served < vec_capacity worker.old.served }
    ensures attended { Attended B.stays W.gives level (cond result 1 0) (post_of B.past D.passage worker.old) (post_of B.past D.passage worker.new) }
    ensures faults { (D.passage worker.new.door).faults ≡ faults_after worker.new.fault (D.passage worker.old.door).faults }
    ensures goes_on { result ≡ true → worker.new.fault ≡ None }
    ensures none_left { result ≡ false → worker.new.fault ≡ None → IsNoneLeft (D.passage worker.new.door).to_come }
    ensures balance { length (D.passage worker.new.door).back ≤ (D.passage worker.new.door).accepted }
    ensures len { vec_len worker.new.served ≤ vec_len worker.old.served + 1 }
    ensures capacity { vec_capacity worker.new.served ≡ vec_capacity worker.old.served }
{
    match worker.door.accept() {
        Ok(Some(link)) => {
            tell_came(rt, progress, number);
            let served = serve_visit(alloc, level, worker, link);
            tell_went(rt, progress, number, served);
            true
        }
        Ok(None) => {
            tell_none(rt, progress, number);
            false
        }
        Err(fault) => {
            tell_fault(rt, progress, number, fault);
            worker.fault = Some(fault);
            false
        }
    }
}

// Serves the links of a worker's door until there are no more, or until as many as it may accept were accepted.
fn work<R: Eprint, B: Book, D: Door, W: Words>(
    rt: &R,
    alloc: Global,
    level: Level,
    progress: Progress,
    number: usize,
    worker: &mut Worker<B, D, W>,
)
    requires ready { IsReady (post_of B.past D.passage worker.old) }
    requires room { vec_len worker.old.served + worker.old.accept ≤ vec_capacity worker.old.served }
    ensures { Worked B.stays W.gives level (post_of B.past D.passage worker.old) (post_of B.past D.passage worker.new) }
{
    for _ in 0..worker.accept {
        if !serve_next(rt, alloc, level, progress, number, worker) {
            return;
        }
    }
}

/// Runs the workers to their ends, each in a thread of its own where there are at most 64. Each accepts the links of its door until it has
/// accepted as many as it may, none comes any more, or accepting failed; it serves each link at the level on its book, with its words, and
/// gives it back. Where no thread can be made, workers run one after another.
///
/// With `Progress::Told` lines on standard error tell when a link came in, and of its session when it has gone back.
pub fn serve_doors<R: Threads + Eprint + Sync, B: Book + Send, D: Door, W: Words + Send>(
    rt: &R,
    alloc: Global,
    level: Level,
    progress: Progress,
    workers: &mut [Worker<B, D, W>],
)
    requires ready { All (λ worker. IsReady (post_of B.past D.passage worker)) workers.old }
    requires room { All (λ worker. vec_len worker.served + worker.accept ≤ vec_capacity worker.served) workers.old }
    ensures { EachPair (λ before after. Worked B.stays W.gives level (post_of B.past D.passage before) (post_of B.past D.passage after)) workers.old workers.new }
{
    let one = |i: usize, worker: &mut Worker<B, D, W>|
        requires { IsReady (post_of B.past D.passage worker.now) × (vec_len worker.now.served + worker.now.accept ≤ vec_capacity worker.now.served) }
    { work(rt, alloc, level, progress, i.saturating_add(1), worker) };
    thread::for_each_mut(rt, workers, 64, &one);
}
