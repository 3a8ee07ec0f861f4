//! The kernels as plain loops over words, to be measured beside the lanes.

use crate::pool::Bits;
use bit_rows::{ROW_BITS, Row};
use held_values::{kept, without};
use std::alloc::{AllocError, Global};

/// A row as words.
#[derive(Drop)]
pub(crate) struct Words {
    words: Vec<u64>,
}

fn push_words(words: &mut Vec<u64>, row: &Row) -> Result<(), AllocError> {
    let mut word = 0u64;
    for number in 0..ROW_BITS {
        if row.has(number) {
            word |= 1 << (number % 64);
        }
        if number % 64 == 63 {
            words.push(word)?;
            word = 0;
        }
    }
    Ok(())
}

/// The words of a row.
fn words_of(alloc: Global, row: &Row) -> Result<Vec<u64>, AllocError> {
    let mut words = Vec::new(alloc);
    let pushed = push_words(&mut words, row);
    kept(words, pushed)
}

/// Adds the bits of other words.
#[inline(never)]
fn join(words: &mut [u64], others: &[u64]) {
    for (word, other) in words.iter_mut().zip(others) {
        *word |= *other;
    }
}

/// Whether two rows of words have a bit in common.
#[inline(never)]
fn meet(left: &[u64], right: &[u64]) -> bool {
    for (word, other) in left.iter().zip(right) {
        if *word & *other != 0 {
            return true;
        }
    }
    false
}

/// Whether three rows of words have a bit in common.
#[inline(never)]
fn meet_three(first: &[u64], second: &[u64], third: &[u64]) -> bool {
    for ((word, other), last) in first.iter().zip(second).zip(third) {
        if *word & *other & *last != 0 {
            return true;
        }
    }
    false
}

/// How many bits are set.
#[inline(never)]
fn count(words: &[u64]) -> u32 {
    let mut total = 0u32;
    for word in words {
        total = total.wrapping_add(word.count_ones());
    }
    total
}

impl Bits for Words {
    fn of_rest(alloc: Global, rest: u32) -> Result<Words, AllocError> {
        let row = Row::of_rest(alloc, rest)?;
        let words = words_of(alloc, &row);
        let words = without(row, words)?;
        Ok(Words { words })
    }

    fn add_bits(&mut self, other: &Words) {
        join(&mut self.words, &other.words);
    }

    fn meets_one(&self, other: &Words) -> bool {
        meet(&self.words, &other.words)
    }

    fn meets_two(&self, second: &Words, third: &Words) -> bool {
        meet_three(&self.words, &second.words, &third.words)
    }

    fn count_bits(&self) -> u32 {
        count(&self.words)
    }
}
