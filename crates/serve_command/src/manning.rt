// The workers of a server: each gets a door, a book and its words, and leaves them when it has ended.
ghost use Rattle.std.specs.Prelude.{◌≡◌, ◌+◌, ◌<◌, ◌≤◌, ◌++◌, ℕ, List, [], All, IfOk, length, map, vec_len, vec_capacity};
ghost use Rattle.cell_base.specs.declared.level.Level.{Level as AtLevel};
ghost use Rattle.history_core.specs.Chronicle.{Chronicle, IsLegalChronicle};
ghost use Rattle.turn_lock.specs.Passes.{PassValue, split_off};
ghost use Rattle.doors.specs.Passage.{Passage, IsUnused};
ghost use Rattle.door_workers.specs.Visits.{events_of_visits};
ghost use Rattle.shared_book.specs.declared.entry.Entry.{Entry};
ghost use Rattle.shared_book.specs.Entries.{event_lists};
ghost use Rattle.shared_book.specs.Fronts.{GoesOnFrom};
ghost use Rattle.serve_command.specs.Parts.{Part, AreParts, begins_with, worse as worse_of, worst_of};
ghost use Rattle.serve_command.specs.Manning.{AreManned, HaveEnded, MayLeave};
ghost use Rattle.shared_book.specs.Books.{fresh_book, past_of};

use cell_base::Memory;
use choice_stream::SeedWords;
use command_line::ServeOptions;
use door_workers::Worker;
use doors::Door;
use link_traits::HostFault;
use session_core::Served;
use shared_book::{Pass, Shared, SharedBook};
use std::alloc::Global;
use std::sync::Wait;

/// Rooms for what becomes of the sessions of so many workers, of which each accepts so many links at most.
pub fn rooms(alloc: Global, workers: u32, accept: u32) -> Result<Vec<Vec<Served>>, Memory>
    ensures number { IfOk result (λ rooms. vec_len rooms ≡ workers) }
    ensures empty { IfOk result (λ rooms. All (λ room. vec_len room ≡ 0) rooms.items) }
    ensures room { IfOk result (λ rooms. All (λ room. accept ≤ vec_capacity room) rooms.items) }
{
    let mut rooms = Vec::with_capacity(alloc, workers as usize)?;
    for _ in 0..workers {
        rooms.push(Vec::with_capacity(alloc, accept as usize)?)?;
    }
    Ok(rooms)
}

/// Makes a worker for each door, the one of the first door with stream 0, and so on. The worker of the first door stands last. Takes no memory.
pub fn man<'a, R: Wait, D: Door>(
    rt: &'a R,
    shared: &'a Shared,
    pass: &mut Pass,
    options: &ServeOptions,
    doors: &mut Vec<D>,
    rooms: &mut Vec<Vec<Served>>,
    workers: &mut Vec<Worker<SharedBook<'a, R>, D, SeedWords>>,
)
    requires lock { pass.old.lock ≡ shared.now }
    requires parts { vec_len doors.old < pass.old.parts }
    requires number { vec_len rooms.old ≡ vec_len doors.old }
    requires empty { All (λ room. vec_len room ≡ 0) rooms.old.items }
    requires room { All (λ room. options.now.accept ≤ vec_capacity room) rooms.old.items }
    requires none { workers.old.items ≡ [] }
    requires capacity { vec_len doors.old ≤ vec_capacity workers.old }
    ensures manned { AreManned (split_off pass.old) options.now.seed options.now.accept 0 doors.old.items workers.new.items }
    ensures pass { pass.new ≡ record pass.old { parts = pass.new.parts } }
    ensures parts { pass.new.parts + vec_len doors.old ≡ pass.old.parts }
    ensures number { vec_len workers.new ≡ vec_len doors.old }
    ensures emptied { doors.new.items ≡ [] }
    ensures capacity { vec_capacity doors.new ≡ vec_capacity doors.old }
{
    while let Some(door) = doors.pop() {
        let stream = doors.len() as u64;
        let Some(served) = rooms.pop() else {
            unreachable!()
        };
        workers.push_reserved(Worker {
            book: shared.book(rt, shared.split(pass)),
            door,
            words: SeedWords::new(options.seed, stream),
            accept: options.accept,
            served,
            fault: None,
        });
    }
}

// Of two faults the one that decides: out of memory stands before a failure.
fn worse(one: Option<HostFault>, other: Option<HostFault>) -> Option<HostFault>
    ensures { result ≡ worse_of one other }
{
    match (one, other) {
        (None, fault) => fault,
        (Some(HostFault::Memory), _) => Some(HostFault::Memory),
        (Some(HostFault::Failed), Some(HostFault::Memory)) => Some(HostFault::Memory),
        (Some(HostFault::Failed), Some(HostFault::Failed)) => Some(HostFault::Failed),
        (Some(HostFault::Failed), None) => Some(HostFault::Failed),
    }
}

/// Takes the doors of workers that have ended back, in their order, and joins their passes into one. Answers the fault that decides. What the
/// workers' books saw are fronts of each legal history that goes on from what the one pass has seen then. Takes no memory.
pub fn leave<R: Wait, D: Door>(
    shared: &Shared,
    pass: &mut Pass,
    workers: &mut Vec<Worker<SharedBook<'_, R>, D, SeedWords>>,
    doors: &mut Vec<D>,
) -> Option<HostFault>
    requires lock { pass.old.lock ≡ shared.now }
    requires workers { All (MayLeave shared.now) workers.old.items }
    requires none { doors.old.items ≡ [] }
    requires capacity { vec_len workers.old ≤ vec_capacity doors.old }
    ensures left { (level : AtLevel) (begun history : Chronicle) (start : PassValue Entry) (seed accept : ℕ) (opened : List Passage) →
        IsLegalChronicle history → GoesOnFrom history pass.new →
        past_of (fresh_book start) ≡ begins_with begun → start.kept ≡ [] → All IsUnused opened →
        HaveEnded D.passage level start seed accept 0 opened workers.old.items →
        (parts : List Part) × AreParts level begun history seed accept 0 opened parts (map D.passage doors.new.items)
        × (event_lists pass.new ≡ event_lists pass.old ++ map (λ part. events_of_visits part.visits) parts) × (result ≡ worst_of parts) }
    ensures lock { pass.new.lock ≡ shared.now }
    ensures parts { pass.new.parts ≡ pass.old.parts + vec_len workers.old }
    ensures emptied { workers.new.items ≡ [] }
{
    let mut fault = None;
    while let Some(worker) = workers.pop() {
        let Worker {
            book,
            door,
            words: _,
            accept: _,
            served: _,
            fault: kept,
        } = worker;
        shared.join(pass, book.into_pass());
        doors.push_reserved(door);
        fault = worse(fault, kept);
    }
    fault
}
