// What is read of the tables of a statement.
ghost use Rattle.std.specs.Prelude.{◌≡◌, [], ◌∷◌, ◌++◌, map, slice_get, IfOk, MatchOption};
ghost use Rattle.statement_course.specs.Reading as course;
ghost use Rattle.table_reading.specs.Left.{part_of as seen};

use cell_base::{Items, Key, Memory};
use sql_tree::{Table, TypedSelect};
use std::alloc::Global;
use std::collections::VecDeque;
use table_reading::Part;

/// What is read of a table at these columns.
pub fn part_of(
    alloc: Global,
    number: u32,
    table: &Table,
    columns: &Items<u32>,
    point: &Option<Key>,
) -> Result<Part, Memory>
    ensures { IfOk result (λ part. seen part ≡ course.part_of number table.now columns.now point.now) }
{
    Ok(Part {
        table: number,
        width: table.columns.len(),
        key_column: table.key,
        point: copied(alloc, point)?,
        columns: columns.copy(alloc)?,
    })
}

fn copied(alloc: Global, point: &Option<Key>) -> Result<Option<Key>, Memory>
    ensures { IfOk result (λ copy. copy ≡ point.now) }
{
    match point {
        Some(key) => Ok(Some(key.copy(alloc)?)),
        None => Ok(None),
    }
}

/// The parts of a SELECT: a table that stands several times in FROM is read once, at its first place.
pub fn parts_of_select(
    alloc: Global,
    tables: &[Table],
    select: &TypedSelect,
) -> Result<Items<Part>, Memory>
    ensures { IfOk result (λ parts. map seen parts ≡ course.parts_from tables.now [] (select.now).tables (select.now).mentioned (select.now).points) }
{
    with_parts(
        alloc,
        Items::new(alloc),
        tables,
        VecDeque::new(alloc),
        select.tables.as_slice(),
        select.mentioned.as_slice(),
        select.points.as_slice(),
    )
}

/// Puts the parts of entries of FROM after others, where the tables of these numbers stand before them.
fn with_parts(
    alloc: Global,
    parts: Items<Part>,
    tables: &[Table],
    before: VecDeque<u32>,
    numbers: &[u32],
    columns: &[Items<u32>],
    points: &[Option<Key>],
) -> Result<Items<Part>, Memory>
    ensures { IfOk result (λ all. map seen all ≡ map seen parts ++ course.parts_from tables.now before.items numbers.now columns.now points.now) }
{
    match (first(numbers), first(columns), first(points)) {
        (Some((number, numbers)), Some((mentioned, columns)), Some((point, points))) => {
            if before.contains(number) {
                with_parts(alloc, parts, tables, before, numbers, columns, points)
            } else {
                let more = with_part(alloc, parts, tables, *number, mentioned, point)?;
                let after = with_number(before, *number)?;
                with_parts(alloc, more, tables, after, numbers, columns, points)
            }
        }
        _ => Ok(parts),
    }
}

fn first<T>(items: &[T]) -> Option<(&T, &[T])>
    ensures { MatchOption result (items.now ≡ []) (λ parts. items.now ≡ parts.0.now ∷ parts.1.now) }
{
    match items {
        [first, others @ ..] => Some((first, others)),
        [] => None,
    }
}

fn with_number(before: VecDeque<u32>, number: u32) -> Result<VecDeque<u32>, Memory>
    ensures { IfOk result (λ after. after.items ≡ number ∷ before.items) }
{
    let mut after = before;
    after.push_front(number)?;
    Ok(after)
}

fn following(parts: Items<Part>, part: Part) -> Result<Items<Part>, Memory>
    ensures { IfOk result (λ all. map seen all ≡ map seen parts ++ seen part ∷ []) }
{
    let mut all = parts;
    all.push(part)?;
    Ok(all)
}

/// Puts the part of a table after others, where there is such a table.
fn with_part(
    alloc: Global,
    parts: Items<Part>,
    tables: &[Table],
    number: u32,
    columns: &Items<u32>,
    point: &Option<Key>,
) -> Result<Items<Part>, Memory>
    ensures { IfOk result (λ all. map seen all ≡ map seen parts ++ course.part_before number (slice_get tables.now number) columns.now point.now []) }
{
    match tables.get(number as usize) {
        Some(table) => following(parts, part_of(alloc, number, table, columns, point)?),
        None => Ok(parts),
    }
}
