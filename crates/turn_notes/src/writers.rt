//! Writers, each with a pass of its own, in one thread and in two.
ghost use Rattle.std.specs.Prelude.{◌≡◌, ◌≢◌, ◌<◌, [], ◌∷◌, ◌++◌, length, slice_get, Some, IfSome};
ghost use mathlib.Core.List.{IsPrefix};
ghost use Rattle.turn_lock.specs.Entries.{HasKey};
ghost use Rattle.turn_notes.specs.Numbered.{note, numbered, notes_by, SameButEntries};

use crate::notes::{Add, First, Note, Notes, Start};
use std::alloc::Global;
use std::sync::Wait;
use std::thread::{Threads, join};
use turn_lock::{Pass, TurnLock};

/// The first of the notes that stood there when the lock was made.
pub fn first_note<R: Wait>(rt: &R, lock: &TurnLock<Notes>, pass: &mut Pass<Notes>) -> Note
    requires lock { pass.old.lock ≡ lock.now }
    requires some { 0 < length lock.now.start }
    ensures same { SameButEntries pass.old pass.new }
    ensures own { pass.new.own ≡ pass.old.own }
    ensures first { slice_get lock.now.start 0 ≡ Some result }
{
    lock.with_turn(rt, pass, First, &mut ())
}

/// Adds the first note of a new writer, whose number is the answer. `None` when out of memory.
pub fn start_writing<R: Wait>(rt: &R, lock: &TurnLock<Notes>, pass: &mut Pass<Notes>) -> Option<u64>
    requires { pass.old.lock ≡ lock.now }
    ensures same { SameButEntries pass.old pass.new }
    ensures wrote { IfSome result (λ by. pass.new.own ≡ pass.old.own ++ note by 0 ∷ []) }
{
    lock.with_turn(rt, pass, Start, &mut ())
}

/// Adds a note of a writer that has written under this pass. `None` when out of memory.
pub fn add_note<R: Wait>(
    rt: &R,
    lock: &TurnLock<Notes>,
    pass: &mut Pass<Notes>,
    note: Note,
) -> Option<()>
    requires lock { pass.old.lock ≡ lock.now }
    requires own { HasKey (λ n. n.by) note.by pass.old.own }
    ensures same { SameButEntries pass.old pass.new }
    ensures wrote { IfSome result (λ _. pass.new.own ≡ pass.old.own ++ note ∷ []) }
{
    lock.with_turn(rt, pass, Add { note }, &mut ())
}

// Adds `count` notes, with the values from 0 on, under a number that nobody else has.
fn write_all<R: Wait>(
    rt: &R,
    lock: &TurnLock<Notes>,
    pass: &mut Pass<Notes>,
    count: u64,
) -> Option<u64>
    requires lock { pass.old.lock ≡ lock.now }
    requires fresh { (pass.old.own ≡ []) × (0 < count) }
    ensures same { SameButEntries pass.old pass.new }
    ensures wrote { IfSome result (λ by. pass.new.own ≡ numbered by count) }
{
    let by = start_writing(rt, lock, pass)?;
    for value in 1..count {
        add_note(rt, lock, pass, Note { by, value })?;
    }
    Some(by)
}

/// Adds `count` notes, with the values from 0 on, under a number that nobody else has. `None` when out of memory.
pub fn write<R: Wait>(
    rt: &R,
    lock: &TurnLock<Notes>,
    mut pass: Pass<Notes>,
    count: u64,
) -> (Pass<Notes>, Option<u64>)
    requires lock { pass.lock ≡ lock.now }
    requires fresh { (pass.own ≡ []) × (0 < count) }
    ensures same { SameButEntries pass result.0 }
    ensures wrote { IfSome result.1 (λ by. result.0.own ≡ numbered by count) }
{
    let by = write_all(rt, lock, &mut pass, count);
    (pass, by)
}

/// Two threads add `count` notes each to those that are given. The answer is the notes and the two writers'
/// numbers. `None` when out of memory.
pub fn two_writers<R: Threads + Wait + Sync>(
    rt: &R,
    alloc: Global,
    notes: Notes,
    count: u64,
) -> Option<(Notes, u64, u64)>
    requires { 0 < count }
    ensures start { IfSome result (λ r. IsPrefix notes.notes.items r.0.notes.items) }
    ensures numbers { IfSome result (λ r. r.1 ≢ r.2) }
    ensures first { IfSome result (λ r. notes_by r.1 r.0.notes.items ≡ numbered r.1 count) }
    ensures second { IfSome result (λ r. notes_by r.2 r.0.notes.items ≡ numbered r.2 count) }
{
    let (lock, mut first) = TurnLock::new(alloc, notes).ok()?;
    let second = lock.split(&mut first);
    let ((mut first, a), (second, b)) = join(
        rt,
        || write(rt, &lock, first, count),
        || write(rt, &lock, second, count),
    );
    lock.join(&mut first, second);
    let notes = lock.close(first);
    Some((notes, a?, b?))
}
