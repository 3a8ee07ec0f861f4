//! The bits of a run of numbers, set in words: whole words at once.

ghost use Rattle.std.specs.Prelude.{◌≡◌, ◌<◌, ◌≤◌, ◌+◌, ◌-◌, ◌*◌, ◌^◌, ℕ, length};
ghost use Rattle.bit_rows.specs.Members.{IsUnion, members};
ghost use Rattle.bit_rows.specs.Runs.{FillsWords, IsInRun, SetsWords, bits_of_run, numbers_of};

use crate::run::Run;

/// The word whose bits from `low` up to, without, `high` are 1.
#[inline(always)]
fn mask(low: u32, high: u32) -> u64
    requires low { low < high }
    requires high { high ≤ 64 }
    ensures { result ≡ 2 ^ high - 2 ^ low }
{
    (u64::MAX >> (64 - high)) - ((1 << low) - 1)
}

/// The bits of one word that a run has.
#[inline(always)]
fn word_of(run: Run, word: u32) -> u64
    requires some { run.first < run.end }
    requires low { run.first < 64 * word + 64 }
    requires high { 64 * word < run.end }
    ensures { result ≡ bits_of_run run.first run.end word }
{
    let start = 64 * word;
    mask(run.first.saturating_sub(start), (run.end - start).min(64))
}

/// Sets the bits of one word that a run has.
fn fill_word(words: &mut [u64], run: Run, word: u32)
    requires some { run.first < run.end }
    requires low { run.first < 64 * word + 64 }
    requires high { 64 * word < run.end }
    requires there { word < length words.old }
    ensures { FillsWords run.first run.end word (word + 1) words.old words.new }
{
    words[word as usize] |= word_of(run, word);
}

/// Sets all bits of the words from one on, up to another one.
fn fill_whole(words: &mut [u64], from: u32, to: u32)
    requires order { from ≤ to }
    requires there { to ≤ length words.old }
    ensures { SetsWords from to words.old words.new }
{
    for word in from..to {
        words[word as usize] |= u64::MAX;
    }
}

/// Adds the numbers of a run to the members of some words.
pub(crate) fn fill(words: &mut [u64], run: Run)
    requires { (n : ℕ) → IsInRun run.first run.end n → n < 64 * length words.old }
    ensures size { length words.new ≡ length words.old }
    ensures union { IsUnion (members words.old) (numbers_of run.first run.end) (members words.new) }
{
    if run.is_empty() {
        return;
    }
    let from = run.first / 64;
    let last = (run.end - 1) / 64;
    fill_word(words, run, from);
    if from == last {
        return;
    }
    fill_whole(words, from + 1, last);
    fill_word(words, run, last);
}
