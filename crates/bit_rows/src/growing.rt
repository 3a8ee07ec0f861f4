//! The words of a row as they lengthen, within the room that is there.

ghost use Rattle.std.specs.Prelude.{◌≡◌, ◌<◌, ◌≤◌, ◌+◌, ◌*◌, ◌/◌, ◌%◌, ◌++◌, ℕ, length, max, vec_len, vec_capacity};
ghost use Rattle.bit_rows.specs.Members.{IsUnion, members};
ghost use Rattle.bit_rows.specs.Runs.{IsInRun, numbers_of};
ghost use Rattle.bit_rows.specs.Words.{AreJoined, AreSame};

use crate::run::Run;
use crate::{BLOCK, WORDS, lanes, marking};

/// Lengthens the words by zeros to the end of a word's block, where the word isn't there.
pub(crate) fn reach(words: &mut Vec<u64>, word: usize)
    requires blocks { vec_len words.old % BLOCK ≡ 0 }
    requires room { (word / BLOCK + 1) * BLOCK ≤ vec_capacity words.old }
    ensures there { word < vec_len words.new }
    ensures len { vec_len words.new ≡ max (vec_len words.old) ((word / BLOCK + 1) * BLOCK) }
    ensures capacity { vec_capacity words.old ≤ vec_capacity words.new }
    ensures same { AreSame words.old.items words.new.items }
{
    if word < words.len() {
        return;
    }
    match words.resize((word / BLOCK + 1) * BLOCK, 0) {
        Ok(()) => {}
        Err(_) => unreachable!(),
    }
}

/// Adds words after the last one.
pub(crate) fn append(words: &mut Vec<u64>, others: &[u64])
    requires room { vec_len words.old + length others.now ≤ vec_capacity words.old }
    ensures items { words.new.items ≡ words.old.items ++ others.now }
    ensures len { vec_len words.new ≡ vec_len words.old + length others.now }
    ensures capacity { vec_capacity words.old ≤ vec_capacity words.new }
{
    match words.extend_from_slice(others) {
        Ok(()) => {}
        Err(_) => unreachable!(),
    }
}

/// Joins the words with others: as far as both go by the kernel, and then there are the others
/// alone.
pub(crate) fn join(words: &mut Vec<u64>, others: &[u64])
    requires blocks { vec_len words.old % BLOCK ≡ 0 }
    requires other_blocks { length others.now % BLOCK ≡ 0 }
    requires room { length others.now ≤ vec_capacity words.old }
    ensures len { vec_len words.new ≡ max (vec_len words.old) (length others.now) }
    ensures capacity { vec_capacity words.old ≤ vec_capacity words.new }
    ensures joined { AreJoined words.old.items words.new.items others.now }
{
    let common = words.len().min(others.len());
    lanes::join(words, others);
    append(words, &others[common..]);
}

/// Adds the numbers of a run to the members of the words.
pub(crate) fn fill(words: &mut Vec<u64>, run: Run)
    requires blocks { vec_len words.old % BLOCK ≡ 0 }
    requires room { WORDS ≤ vec_capacity words.old }
    requires within { (n : ℕ) → IsInRun run.first run.end n → n < 64 * WORDS }
    ensures blocks { vec_len words.new % BLOCK ≡ 0 }
    ensures len { vec_len words.new ≤ max (vec_len words.old) WORDS }
    ensures capacity { vec_capacity words.old ≤ vec_capacity words.new }
    ensures union { IsUnion (members words.old.items) (numbers_of run.first run.end) (members words.new.items) }
{
    if run.is_empty() {
        return;
    }
    reach(words, (run.end - 1) as usize / 64);
    marking::fill(words, run);
}
