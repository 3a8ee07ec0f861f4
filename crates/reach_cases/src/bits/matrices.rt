//! Matrices: rows that grow together.

ghost use Rattle.std.specs.Prelude.{◌<◌, length};

use crate::bits::agreed::agree;
use bit_rows::{BitMatrix, ROW_BITS, Row};
use held_values::without;
use std::alloc::{AllocError, Global};
use std::test::Fail;

/// How many members a row of a matrix has, and whether it has 3, 2,047, 2,048 and 4,096.
type Found = (u32, [bool; 4]);

/// A call on a matrix, and what is to come of it.
#[derive(Clone, Copy)]
enum Step {
    /// Adds rows until there are so many.
    Grow(u32),
    /// How many rows there are.
    Len(usize),
    /// Adds a number and the members of its row to another row.
    Link(u32, u32),
    /// Removes the last row.
    TakeLast,
    /// What is found of a row; none where there is no such row.
    Read(u32, Option<Found>),
}

/// Adds rows to the matrix until it has so many, or all that there may be. Whether it has so many.
fn grow_to(matrix: &mut BitMatrix, rows: u32) -> Result<bool, AllocError> {
    for _ in 0..rows {
        let len = matrix.len();
        if len < rows as usize && len < ROW_BITS as usize {
            matrix.push()?;
        }
    }
    Ok(matrix.len() == rows as usize)
}

/// Adds a number and the members of its row to another row, where both are there. Whether they are.
fn link(matrix: &mut BitMatrix, number: u32, target: u32) -> bool {
    let len = matrix.len();
    if (number as usize) < len && (target as usize) < len && number != target {
        matrix.join_up_to(number, target);
        return true;
    }
    false
}

/// Removes the last row, where there is one. Whether there was.
fn take_last(matrix: &mut BitMatrix) -> bool {
    let len = matrix.len();
    if 0 < len {
        matrix.pop();
        return true;
    }
    false
}

/// Whether a row of the matrix has 3, 2,047, 2,048 and 4,096.
fn ends_of(matrix: &BitMatrix, number: u32) -> [bool; 4]
    requires { number < length matrix.now }
{
    [
        matrix.has(number, 3),
        matrix.has(number, 2_047),
        matrix.has(number, 2_048),
        matrix.has(number, 4_096),
    ]
}

/// How many members a row of the matrix has, where another row that has one becomes like it.
fn count_of(matrix: &BitMatrix, alloc: Global, number: u32) -> Result<u32, AllocError>
    requires { number < length matrix.now }
{
    let mut row = Row::new(alloc)?;
    row.set(65_535);
    matrix.copy_to(number, &mut row);
    let count = row.count();
    Ok(without(row, count))
}

/// What is found of a row of the matrix; none where there is no such row.
fn read_row(matrix: &BitMatrix, alloc: Global, number: u32) -> Result<Option<Found>, AllocError> {
    if (number as usize) >= matrix.len() {
        return Ok(None);
    }
    let count = count_of(matrix, alloc, number)?;
    Ok(Some((count, ends_of(matrix, number))))
}

/// Whether what is to come of the step does.
fn holds(alloc: Global, matrix: &mut BitMatrix, step: Step) -> Result<bool, AllocError> {
    match step {
        Step::Grow(rows) => grow_to(matrix, rows),
        Step::Len(wanted) => Ok(matrix.len() == wanted),
        Step::Link(number, target) => Ok(link(matrix, number, target)),
        Step::TakeLast => Ok(take_last(matrix)),
        Step::Read(number, wanted) => Ok(read_row(matrix, alloc, number)? == wanted),
    }
}

fn go_on(alloc: Global, matrix: &mut BitMatrix, steps: &[Step]) -> Result<(), Fail> {
    for (place, step) in steps.iter().enumerate() {
        agree(holds(alloc, matrix, *step)?, place)?;
    }
    Ok(())
}

fn go_through(alloc: Global, matrix: &mut BitMatrix, parts: &[&[Step]]) -> Result<(), Fail> {
    for steps in parts {
        go_on(alloc, matrix, steps)?;
    }
    Ok(())
}

/// Takes the steps of each part on a matrix that begins without rows.
fn play(alloc: Global, parts: &[&[Step]]) -> Result<(), Fail> {
    let mut matrix = BitMatrix::new(alloc);
    let taken = go_through(alloc, &mut matrix, parts);
    without(matrix, taken)
}

const MATRIX: &[Step] = &[
    Step::Len(0),
    Step::Read(0, None),
    Step::Grow(2_048),
    Step::Len(2_048),
    Step::Read(0, Some((0, [false, false, false, false]))),
    Step::Link(3, 0),
    Step::Link(2_047, 0),
    Step::Read(0, Some((2, [true, true, false, false]))),
    Step::Grow(2_049),
    Step::Link(2_048, 0),
    Step::Link(0, 2_048),
    Step::Read(0, Some((3, [true, true, true, false]))),
    Step::Read(2_048, Some((4, [true, true, true, false]))),
    Step::Grow(4_097),
    Step::Link(4_096, 1),
    Step::Link(1, 2),
    Step::Link(0, 2),
    Step::Read(0, Some((3, [true, true, true, false]))),
    Step::Read(1, Some((1, [false, false, false, true]))),
    Step::Read(2, Some((6, [true, true, true, true]))),
    Step::Read(4_096, Some((0, [false, false, false, false]))),
];

/// The rows of a matrix keep their members as it grows past 2,048 and past 4,096 rows, and rows of
/// unlike lengths join. What is there was found by hand.
#[test]
fn matrix_grows(rt: HostRuntime) -> Result<(), Fail> {
    play(rt.alloc(), &[MATRIX])
}

const RUNS: &[Step] = &[
    Step::Grow(2_048),
    Step::Link(4, 9),
    Step::Read(9, Some((1, [false, false, false, false]))),
    Step::Link(5, 9),
    Step::Read(9, Some((2, [false, false, false, false]))),
    Step::Link(3, 9),
    Step::Read(9, Some((3, [true, false, false, false]))),
    Step::Link(5, 9),
    Step::Read(9, Some((3, [true, false, false, false]))),
    Step::Link(9, 10),
    Step::Read(10, Some((4, [true, false, false, false]))),
    Step::Link(2_047, 9),
    Step::Read(9, Some((4, [true, true, false, false]))),
    Step::Link(9, 5),
    Step::Read(5, Some((5, [true, true, false, false]))),
    Step::Link(2_046, 12),
    Step::Read(12, Some((1, [false, false, false, false]))),
    Step::Link(2_047, 12),
    Step::Read(12, Some((2, [false, true, false, false]))),
];

const FAR: &[Step] = &[
    Step::Grow(4_097),
    Step::Link(12, 13),
    Step::Read(13, Some((3, [false, true, false, false]))),
    Step::Link(2_048, 12),
    Step::Read(12, Some((3, [false, true, true, false]))),
    Step::Link(12, 9),
    Step::Read(9, Some((7, [true, true, true, false]))),
    Step::Link(4_096, 9),
    Step::Read(9, Some((8, [true, true, true, true]))),
    Step::Link(9, 12),
    Step::Read(12, Some((9, [true, true, true, true]))),
];

/// Rows that are runs grow at both ends, and become words where a far number comes. What is there was
/// found by hand, as the count of members and whether 3, 2,047, 2,048 and 4,096 are there.
#[test]
fn runs_grow(rt: HostRuntime) -> Result<(), Fail> {
    play(rt.alloc(), &[RUNS, FAR])
}

const START: &[Step] = &[Step::Grow(2_048)];

const AS_RUN: &[Step] = &[
    Step::Read(2_047, Some((0, [false, false, false, false]))),
    Step::Link(3, 2_047),
    Step::Link(3, 2_047),
    Step::Read(2_047, Some((1, [true, false, false, false]))),
    Step::TakeLast,
    Step::Read(2_047, None),
    Step::Grow(2_048),
];

const AS_WORDS: &[Step] = &[
    Step::Read(2_047, Some((0, [false, false, false, false]))),
    Step::Link(3, 2_047),
    Step::Link(2_046, 2_047),
    Step::Read(2_047, Some((2, [true, false, false, false]))),
    Step::TakeLast,
    Step::Read(2_047, None),
    Step::Grow(2_048),
];

/// A row that is removed with members is empty where it comes again, as a run and as words.
#[test]
fn rows_come_again(rt: HostRuntime) -> Result<(), Fail> {
    play(rt.alloc(), &[START, AS_RUN, AS_RUN, AS_WORDS, AS_WORDS])
}
