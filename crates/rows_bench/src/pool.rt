//! A pool of rows, and its kernels.

use held_values::{both, kept};
use std::alloc::{AllocError, Global};

/// A row of bits, with its kernels.
pub(crate) trait Bits: Sized {
    /// The row of the numbers with this rest by 3.
    fn of_rest(alloc: Global, rest: u32) -> Result<Self, AllocError>;

    /// Adds the bits of another row.
    fn add_bits(&mut self, other: &Self);

    /// Whether it has a bit in common with another row.
    fn meets_one(&self, other: &Self) -> bool;

    /// Whether it has a bit in common with two others.
    fn meets_two(&self, second: &Self, third: &Self) -> bool;

    /// How many bits are set.
    fn count_bits(&self) -> u32;
}

/// A kernel of rows.
#[derive(Clone, Copy)]
pub(crate) enum Kernel {
    /// Adds the bits of another row.
    Join,
    /// Whether two rows have a bit in common.
    Meet,
    /// Whether three rows have a bit in common.
    MeetThree,
    /// How many bits are set.
    Count,
}

/// Rows that have each third number, so that no two rows of different rests meet, and each row has
/// all its words.
#[derive(Drop)]
pub(crate) struct Pool<T> {
    /// The rows, each with the numbers of rest 0 by 3.
    rows: Vec<T>,
    /// A row with the numbers of rest 1 by 3.
    probe: T,
    /// The row that the others are added to. It begins as the probe.
    joined: T,
}

fn push_rows<T: Bits + Drop>(
    rows: &mut Vec<T>,
    alloc: Global,
    size: u32,
) -> Result<(), AllocError> {
    for _ in 0..size {
        rows.push(T::of_rest(alloc, 0)?)?;
    }
    Ok(())
}

fn rows_of<T: Bits + Drop>(alloc: Global, size: u32) -> Result<Vec<T>, AllocError> {
    let mut rows = Vec::new(alloc);
    let pushed = push_rows(&mut rows, alloc, size);
    kept(rows, pushed)
}

/// A pool of so many rows.
pub(crate) fn pool_of<T: Bits + Drop>(alloc: Global, size: u32) -> Result<Pool<T>, AllocError> {
    let ones = both(T::of_rest(alloc, 1), T::of_rest(alloc, 1));
    let (rows, (probe, joined)) = both(rows_of::<T>(alloc, size), ones)?;
    Ok(Pool {
        rows,
        probe,
        joined,
    })
}

fn join_all<T: Bits>(row: &mut T, others: &[T]) {
    for other in others {
        row.add_bits(other);
    }
}

/// How many rows meet the probe.
fn count_meeting<T: Bits>(rows: &[T], probe: &T) -> u32 {
    let mut met = 0u32;
    for row in rows {
        if row.meets_one(probe) {
            met = met.wrapping_add(1);
        }
    }
    met
}

/// How many rows meet themselves and the probe.
fn count_meeting_three<T: Bits>(rows: &[T], probe: &T) -> u32 {
    let mut met = 0u32;
    for row in rows {
        if row.meets_two(row, probe) {
            met = met.wrapping_add(1);
        }
    }
    met
}

/// How many bits all rows have.
fn count_all<T: Bits>(rows: &[T]) -> u32 {
    let mut all = 0u32;
    for row in rows {
        all = all.wrapping_add(row.count_bits());
    }
    all
}

/// Takes the kernel over each row of the pool once. How many rows met, or how many bits were
/// counted.
pub(crate) fn pass<T: Bits>(pool: &mut Pool<T>, kernel: Kernel) -> u32 {
    match kernel {
        Kernel::Join => {
            join_all(&mut pool.joined, &pool.rows);
            0
        }
        Kernel::Meet => count_meeting(&pool.rows, &pool.probe),
        Kernel::MeetThree => count_meeting_three(&pool.rows, &pool.probe),
        Kernel::Count => count_all(&pool.rows),
    }
}

/// How many bits the row has that the others were added to.
pub(crate) fn count_joined<T: Bits>(pool: &Pool<T>) -> u32 {
    pool.joined.count_bits()
}
