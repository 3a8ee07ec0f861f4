//! Words of many lines, one line's after another's: each line of words has a segment, as many words
//! as there is room for.

ghost use Rattle.std.specs.Prelude.{◌≡◌, ◌<◌, ◌≤◌, ◌+◌, ◌-◌, ◌*◌, ◌%◌, ◌++◌, ◌↔◌, ◌⊎◌, [], ℕ, All, Contains, IsTrue, length, vec_len, vec_capacity, replicate};
ghost use Rattle.bit_rows.specs.Members.{IsUnion, members};
ghost use Rattle.bit_rows.specs.Runs.{IsInRun, numbers_of};
ghost use Rattle.bit_rows.specs.Segments.{AreCopied, ClearsSegment, JoinsSegment, segment};

use crate::growing::append;
use crate::marking::fill;
use crate::run::Run;
use crate::{BLOCK, WORDS, lanes};

/// Whether the number is a member of the segment.
pub(crate) fn has(pool: &[u64], place: usize, room: usize, bit: u32) -> bool
    requires { place + room ≤ length pool.now }
    ensures { IsTrue result ↔ Contains (members (segment pool.now place room)) bit }
{
    let word = bit as usize / 64;
    if word >= room {
        return false;
    }
    (pool[place + word] >> (bit % 64)) & 1 == 1
}

/// Above all members of some words: the first bit after the last word that isn't zero.
pub(crate) fn end_of(words: &[u64]) -> u32
    requires { length words.now ≤ WORDS }
    ensures { (n : ℕ) → Contains (members words.now) n → n < result }
{
    for done in 0..words.len() {
        let count = words.len() - done;
        if words[count - 1] != 0 {
            return 64 * count as u32;
        }
    }
    0
}

/// Adds the numbers of a run to a segment.
pub(crate) fn fill_segment(pool: &mut [u64], place: usize, room: usize, run: Run)
    requires room { place + room ≤ length pool.old }
    requires within { (n : ℕ) → IsInRun run.first run.end n → n < 64 * room }
    ensures { JoinsSegment place room (numbers_of run.first run.end) pool.old pool.new }
{
    fill(&mut pool[place..place + room], run);
}

/// Adds the members of some words, all of which there is room for, to a segment.
pub(crate) fn join_segment(pool: &mut [u64], place: usize, room: usize, words: &[u64])
    requires room { place + room ≤ length pool.old }
    requires blocks { room % BLOCK ≡ 0 }
    requires other_blocks { length words.now % BLOCK ≡ 0 }
    requires within { All (λ n. n < 64 * room) (members words.now) }
    ensures { JoinsSegment place room (members words.now) pool.old pool.new }
{
    lanes::join(&mut pool[place..place + room], words);
}

/// Adds the members of a segment to another one.
pub(crate) fn join_segments(pool: &mut [u64], place: usize, room: usize, other: usize)
    requires room { place + room ≤ length pool.old }
    requires other_room { other + room ≤ length pool.old }
    requires blocks { room % BLOCK ≡ 0 }
    requires apart { (place + room ≤ other) ⊎ (other + room ≤ place) }
    ensures { JoinsSegment place room (members (segment pool.old other room)) pool.old pool.new }
{
    lanes::join_within(pool, place, other, room);
}

/// Removes all members of a segment.
pub(crate) fn clear_segment(pool: &mut [u64], place: usize, room: usize)
    requires { place + room ≤ length pool.old }
    ensures { ClearsSegment place room pool.old pool.new }
{
    pool[place..place + room].fill(0);
}

/// Adds zeros after the last word.
pub(crate) fn lengthen(pool: &mut Vec<u64>, count: usize)
    requires { vec_len pool.old + count ≤ vec_capacity pool.old }
    ensures items { pool.new.items ≡ pool.old.items ++ replicate count 0 }
    ensures len { vec_len pool.new ≡ vec_len pool.old + count }
    ensures capacity { vec_capacity pool.old ≤ vec_capacity pool.new }
{
    match pool.resize(pool.len() + count, 0) {
        Ok(()) => {}
        Err(_) => unreachable!(),
    }
}

/// Adds a segment of other words after the last word, with more room.
fn copy_segment(pool: &[u64], place: usize, room: usize, wider: &mut Vec<u64>, more: usize)
    requires room { place + room ≤ length pool.now }
    requires larger { room ≤ more }
    requires capacity { vec_len wider.old + more ≤ vec_capacity wider.old }
    ensures items { wider.new.items ≡ wider.old.items ++ (segment pool.now place room ++ replicate (more - room) 0) }
    ensures len { vec_len wider.new ≡ vec_len wider.old + more }
    ensures capacity { vec_capacity wider.old ≤ vec_capacity wider.new }
{
    append(wider, &pool[place..place + room]);
    lengthen(wider, more - room);
}

/// Adds so many segments of other words, each with more room, to no words.
pub(crate) fn copy_segments(
    pool: &[u64],
    segments: usize,
    room: usize,
    wider: &mut Vec<u64>,
    more: usize,
)
    requires room { segments * room ≤ length pool.now }
    requires larger { room ≤ more }
    requires none { vec_len wider.old ≡ 0 }
    requires capacity { segments * more ≤ vec_capacity wider.old }
    ensures copied { AreCopied segments room more pool.now wider.new.items }
    ensures len { vec_len wider.new ≡ segments * more }
    ensures capacity { vec_capacity wider.old ≤ vec_capacity wider.new }
{
    for number in 0..segments {
        copy_segment(pool, number * room, room, wider, more);
    }
}
