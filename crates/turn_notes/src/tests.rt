// What no clause says: that all turns come, and that no note is added besides.
ghost use Rattle.std.specs.Prelude.{◌≡◌, ◌+◌, ◌<◌, ◌≤◌, []};

use super::*;
use std::alloc::Global;
use std::sync::Wait;
use std::test::Fail;
use std::thread::{Threads, join};
use turn_lock::{Pass, TurnLock};

// The answer, without what it was asked of. What lets go of a value costs much to check wherever it stands, so it is let go here.
fn alone<T: Drop, A>(_held: T, answer: A) -> A {
    answer
}

// How many of the notes have this number, where they have the values from 0 on in order.
fn count_of(notes: &[Note], by: u64) -> Option<u64> {
    let mut next = 0u64;
    for note in notes {
        if note.by == by {
            if note.value != next {
                return None;
            }
            next = next.wrapping_add(1);
        }
    }
    Some(next)
}

// Whether of each number the notes have the values from 0 to `count` - 1 in order, and there are no others.
fn are_right(notes: &[Note], numbers: &[u64], count: u64) -> bool {
    let mut others = notes.len() as u64;
    for by in numbers {
        if count_of(notes, *by) != Some(count) {
            return false;
        }
        others = others.wrapping_sub(count);
    }
    others == 0
}

// Whether the first note has this number, and so many others are right.
fn are_right_after(
    notes: &[Note],
    before: u64,
    numbers: &[u64],
    count: u64,
    others: usize,
) -> bool {
    match notes.split_first() {
        Some((first, added)) => {
            first.by == before && added.len() == others && are_right(added, numbers, count)
        }
        None => false,
    }
}

#[test]
fn two_threads_add_a_hundred_each(rt: HostRuntime) -> Result<(), Fail> {
    let mut notes = Notes::new(rt.alloc());
    let before = notes.start().ok_or("memory")?;
    let (notes, a, b) = two_writers(&rt, rt.alloc(), notes, 100).ok_or("memory")?;
    let right = are_right_after(notes.as_slice(), before, &[a, b], 100, 200);
    assert!(rt; alone(notes, right));
    Ok(())
}

// So many that the threads meet, and one has to wake the other.
#[test]
fn a_waiting_thread_is_woken(rt: HostRuntime) -> Result<(), Fail> {
    let none = Notes::new(rt.alloc());
    let (notes, a, b) = two_writers(&rt, rt.alloc(), none, 20_000).ok_or("memory")?;
    assert_eq!(rt; notes.as_slice().len(), 40_000);
    let right = are_right(notes.as_slice(), &[a, b], 20_000);
    assert!(rt; alone(notes, right));
    Ok(())
}

// Writes in two threads. The second pass takes in the first.
fn write_in_two<R: Threads + Wait + Sync>(
    rt: &R,
    lock: &TurnLock<Notes>,
    first: Pass<Notes>,
    second: Pass<Notes>,
    count: u64,
) -> (Pass<Notes>, Option<(u64, u64)>)
    requires lock { (first.lock ≡ lock.now) × (second.lock ≡ lock.now) }
    requires fresh { (first.own ≡ []) × (second.own ≡ []) × (0 < count) }
    ensures lock { result.0.lock ≡ lock.now }
    ensures parts { result.0.parts ≡ first.parts + second.parts }
{
    let ((first, a), (mut second, b)) = join(
        rt,
        || write(rt, lock, first, count),
        || write(rt, lock, second, count),
    );
    lock.join(&mut second, first);
    (second, a.zip(b))
}

// Splits the pass twice, and writes in three threads. The first pass takes in the others again.
fn write_in_three<R: Threads + Wait + Sync>(
    rt: &R,
    lock: &TurnLock<Notes>,
    mut first: Pass<Notes>,
    count: u64,
) -> (Pass<Notes>, Option<(u64, (u64, u64))>)
    requires lock { first.lock ≡ lock.now }
    requires parts { 3 ≤ first.parts }
    requires fresh { (first.own ≡ []) × (0 < count) }
    ensures lock { result.0.lock ≡ lock.now }
    ensures parts { result.0.parts ≡ first.parts }
{
    let second = lock.split(&mut first);
    let third = lock.split(&mut first);
    let ((mut first, a), (third, b)) = join(
        rt,
        || write(rt, lock, first, count),
        ||
            requires { (second.lock ≡ lock.now) × (third.lock ≡ lock.now)
                × (second.own ≡ []) × (third.own ≡ []) × (0 < count) }
        { write_in_two(rt, lock, second, third, count) },
    );
    lock.join(&mut first, third);
    (first, a.zip(b))
}

// Four threads, of which one splits its pass for two more. The pass that was split off first takes in the others.
fn four_writers<R: Threads + Wait + Sync>(
    rt: &R,
    alloc: Global,
    count: u64,
) -> Option<(Notes, [u64; 4])>
    requires { 0 < count }
{
    let (lock, mut first) = TurnLock::new(alloc, Notes::new(alloc)).ok()?;
    let second = lock.split(&mut first);
    let ((first, three), (mut second, last)) = join(
        rt,
        ||
            requires { (first.lock ≡ lock) × (3 ≤ first.parts) × (first.own ≡ []) × (0 < count) }
        { write_in_three(rt, &lock, first, count) },
        || write(rt, &lock, second, count),
    );
    lock.join(&mut second, first);
    let notes = lock.close(second);
    let (a, (b, c)) = three?;
    Some((notes, [a, b, c, last?]))
}

#[test]
fn four_threads_split_inside_and_join_in_another_order(rt: HostRuntime) -> Result<(), Fail> {
    let (notes, numbers) = four_writers(&rt, rt.alloc(), 5_000).ok_or("memory")?;
    assert_eq!(rt; notes.as_slice().len(), 20_000);
    let right = are_right(notes.as_slice(), &numbers, 5_000);
    assert!(rt; alone(notes, right));
    Ok(())
}

// The first note of a list with one note, and that of all that a writer has added after it.
fn show_first<R: Wait>(rt: &R, alloc: Global) -> Option<(Note, Note)> {
    let mut notes = Notes::new(alloc);
    notes.start()?;
    let (lock, mut pass) = TurnLock::new(alloc, notes).ok()?;
    let one = first_note(rt, &lock, &mut pass);
    start_writing(rt, &lock, &mut pass)?;
    let two = first_note(rt, &lock, &mut pass);
    Some((one, two))
}

#[test]
fn the_first_note_stays(rt: HostRuntime) -> Result<(), Fail> {
    let (one, two) = show_first(&rt, rt.alloc()).ok_or("memory")?;
    assert_eq!(rt; one.by, 0);
    assert_eq!(rt; two.by, 0);
    Ok(())
}
