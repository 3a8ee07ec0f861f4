//! Rows: lengths, unions, common members and counts.

use crate::bits::agreed::agree;
use bit_rows::{ROW_BITS, Row};
use held_values::{both, without};
use std::alloc::{AllocError, Global};
use std::test::Fail;

/// Numbers below `ROW_BITS`.
type Bits = &'static [u32];

/// A call on a row, and what is to come of it.
#[derive(Clone, Copy)]
enum Step {
    /// Adds one number.
    Set(u32),
    /// Adds each number.
    SetAll,
    /// Adds the members of a row with these.
    Or(Bits),
    /// Makes it a row with these members.
    Copy(Bits),
    /// How many members it has.
    Count(u32),
    /// Whether it has the number.
    Has(u32, bool),
    /// How many members it has, and whether it has 3, 2,047, 2,048 and 65,535.
    Read(u32, [bool; 4]),
    /// It has these numbers and no others.
    Only(Bits),
    /// Whether it has a member in common with a row of these.
    Meets(Bits, bool),
    /// Whether it has a member in common with two rows of these.
    AndAny(Bits, Bits, bool),
}

/// Adds the number, where it is below `ROW_BITS`. Whether it is.
fn set(row: &mut Row, bit: u32) -> bool {
    if bit < ROW_BITS {
        row.set(bit);
        return true;
    }
    false
}

/// Adds each number.
fn set_all(row: &mut Row) -> bool {
    for bit in 0..ROW_BITS {
        row.set(bit);
    }
    true
}

fn set_bits(row: &mut Row, bits: &[u32]) {
    for bit in bits {
        set(row, *bit);
    }
}

/// The row with these members.
fn row_of(alloc: Global, bits: &[u32]) -> Result<Row, AllocError> {
    let mut row = Row::new(alloc)?;
    set_bits(&mut row, bits);
    Ok(row)
}

fn or(alloc: Global, row: &mut Row, bits: &[u32]) -> Result<bool, AllocError> {
    let other = row_of(alloc, bits)?;
    row.or_into(&other);
    Ok(without(other, true))
}

fn copy(alloc: Global, row: &mut Row, bits: &[u32]) -> Result<bool, AllocError> {
    let other = row_of(alloc, bits)?;
    row.copy_from(&other);
    Ok(without(other, true))
}

/// Whether the number is a member; no where it isn't below `ROW_BITS`.
fn has(row: &Row, bit: u32) -> bool {
    if bit < ROW_BITS {
        return row.has(bit);
    }
    false
}

/// How many members a row has, and whether it has 3, 2,047, 2,048 and 65,535.
fn read(row: &Row) -> (u32, [bool; 4]) {
    let ends = [row.has(3), row.has(2_047), row.has(2_048), row.has(65_535)];
    (row.count(), ends)
}

/// Whether the row has these numbers and no others.
fn has_only(row: &Row, bits: &[u32]) -> bool {
    for bit in 0..ROW_BITS {
        if row.has(bit) != bits.contains(&bit) {
            return false;
        }
    }
    true
}

fn meets(alloc: Global, row: &Row, bits: &[u32], wanted: bool) -> Result<bool, AllocError> {
    let other = row_of(alloc, bits)?;
    let meets = row.meets(&other);
    Ok(without(other, meets == wanted))
}

fn and_any(
    alloc: Global,
    row: &Row,
    left: &[u32],
    right: &[u32],
    wanted: bool,
) -> Result<bool, AllocError> {
    let (left, right) = both(row_of(alloc, left), row_of(alloc, right))?;
    let meet = row.and_any(&left, &right);
    Ok(without((left, right), meet == wanted))
}

/// Whether what is to come of the step does.
fn holds(alloc: Global, row: &mut Row, step: Step) -> Result<bool, AllocError> {
    match step {
        Step::Set(bit) => Ok(set(row, bit)),
        Step::SetAll => Ok(set_all(row)),
        Step::Or(bits) => or(alloc, row, bits),
        Step::Copy(bits) => copy(alloc, row, bits),
        Step::Count(wanted) => Ok(row.count() == wanted),
        Step::Has(bit, wanted) => Ok(has(row, bit) == wanted),
        Step::Read(count, ends) => Ok(read(row) == (count, ends)),
        Step::Only(bits) => Ok(has_only(row, bits)),
        Step::Meets(bits, wanted) => meets(alloc, row, bits, wanted),
        Step::AndAny(left, right, wanted) => and_any(alloc, row, left, right, wanted),
    }
}

fn go_on(alloc: Global, row: &mut Row, steps: &[Step]) -> Result<(), Fail> {
    for (place, step) in steps.iter().enumerate() {
        agree(holds(alloc, row, *step)?, place)?;
    }
    Ok(())
}

/// Takes the steps on a row that begins with these members.
fn play(alloc: Global, bits: &[u32], steps: &[Step]) -> Result<(), Fail> {
    let mut row = row_of(alloc, bits)?;
    let taken = go_on(alloc, &mut row, steps);
    without(row, taken)
}

const EMPTY: Bits = &[];

const WORKED: Bits = &[0, 63, 64, 65_535];

const OF_WORKED: &[Step] = &[
    Step::Count(4),
    Step::Meets(LAST, true),
    Step::AndAny(LAST, WORKED, true),
    Step::Only(WORKED),
];

const LAST: Bits = &[65_535];

const ENDS: Bits = &[0, 65_535];

/// The worked row: its four bits are the first and last of a word, the first of the next word and
/// the last of all. The first and the last of all alone are two.
#[test]
fn worked_row(rt: HostRuntime) -> Result<(), Fail> {
    play(rt.alloc(), WORKED, OF_WORKED)?;
    play(rt.alloc(), ENDS, &[Step::Count(2)])?;
    play(rt.alloc(), LAST, &[Step::Meets(WORKED, true)])
}

const ONE_BLOCK: Bits = &[3, 2_047];

const TWO_BLOCKS: Bits = &[3, 2_048];

const WHOLE: Bits = &[2_048, 65_535];

const LENGTHS: &[Step] = &[
    Step::Read(0, [false, false, false, false]),
    Step::Or(ONE_BLOCK),
    Step::Read(2, [true, true, false, false]),
    Step::Or(WHOLE),
    Step::Read(4, [true, true, true, true]),
    Step::Or(TWO_BLOCKS),
    Step::Read(4, [true, true, true, true]),
    Step::Or(EMPTY),
    Step::Read(4, [true, true, true, true]),
    Step::Copy(ONE_BLOCK),
    Step::Read(2, [true, true, false, false]),
    Step::Copy(WHOLE),
    Step::Read(2, [false, false, true, true]),
    Step::Copy(TWO_BLOCKS),
    Step::Read(2, [true, false, true, false]),
    Step::Copy(EMPTY),
    Step::Read(0, [false, false, false, false]),
    Step::Copy(TWO_BLOCKS),
    Step::Read(2, [true, false, true, false]),
    Step::Set(65_535),
    Step::Read(3, [true, false, true, true]),
];

/// Unions and copies of rows of unlike lengths, and numbers added to them: the first block ends at
/// 2,048. What is left was found by hand.
#[test]
fn lengths(rt: HostRuntime) -> Result<(), Fail> {
    play(rt.alloc(), EMPTY, LENGTHS)
}

const OF_WHOLE: &[Step] = &[
    Step::Meets(ONE_BLOCK, false),
    Step::Meets(TWO_BLOCKS, true),
    Step::AndAny(TWO_BLOCKS, WHOLE, true),
    Step::AndAny(TWO_BLOCKS, ONE_BLOCK, false),
];

const EACH_NUMBER: &[Step] = &[
    Step::SetAll,
    Step::Read(65_536, [true, true, true, true]),
    Step::Copy(ONE_BLOCK),
    Step::Read(2, [true, true, false, false]),
];

/// Common members of rows of unlike lengths, and a row that has each number.
#[test]
fn unlike_lengths_meet(rt: HostRuntime) -> Result<(), Fail> {
    play(rt.alloc(), ONE_BLOCK, &[Step::Meets(WHOLE, false)])?;
    play(rt.alloc(), TWO_BLOCKS, &[Step::Meets(WHOLE, true)])?;
    play(rt.alloc(), WHOLE, OF_WHOLE)?;
    play(rt.alloc(), EMPTY, EACH_NUMBER)
}

const LOW: Bits = &[5, 511, 512];

const HIGH: Bits = &[65_471, 65_472, 65_534];

const BOTH: Bits = &[5, 65_534];

const OF_LOW: &[Step] = &[Step::Meets(HIGH, false), Step::Meets(BOTH, true)];

const OF_BOTH: &[Step] = &[
    Step::AndAny(LOW, HIGH, false),
    Step::AndAny(BOTH, HIGH, true),
];

const UNION: &[Step] = &[
    Step::Or(LOW),
    Step::Or(BOTH),
    Step::Count(5),
    Step::Has(5, true),
    Step::Has(6, false),
    Step::Has(7, true),
    Step::Has(511, true),
    Step::Has(512, true),
    Step::Has(65_534, true),
    Step::Has(65_535, false),
    Step::Copy(HIGH),
    Step::Count(3),
    Step::Has(65_471, true),
    Step::Has(7, false),
];

/// Unions, common members and counts of rows with members in the first block, in the last one and
/// in none, with answers found by hand.
#[test]
fn kernels(rt: HostRuntime) -> Result<(), Fail> {
    play(rt.alloc(), EMPTY, &[Step::Meets(EMPTY, false)])?;
    play(rt.alloc(), LOW, OF_LOW)?;
    play(rt.alloc(), HIGH, &[Step::Meets(BOTH, true)])?;
    play(rt.alloc(), BOTH, OF_BOTH)?;
    play(rt.alloc(), &[7], UNION)
}
