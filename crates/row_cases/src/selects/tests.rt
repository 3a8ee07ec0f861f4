// What no clause says: that the definition of a SELECT's rows is SQL's, and that a call with ample memory succeeds.
use crate::selects::answers::{Ask, answer};
use crate::selects::cases::{AGGREGATES, FAULTS, FILTERS, JOINS, ORDERS};
use crate::selects::chance::Chance;
use crate::selects::made;
use crate::selects::world::{long_picture, picture_of, tables};
use case_lines::{is, is_remark};
use cell_base::{Items, Memory};
use held_values::{both, without};
use row_meaning::TableRows;
use sql_tree::Table;
use std::alloc::Global;
use std::test::Fail;

fn is_answered(
    alloc: Global,
    line: &str,
    tables: &[Table],
    picture: &[TableRows],
) -> Result<(), Fail> {
    match line.split_once(" => ") {
        Some((spelled, want)) => {
            let given = answer(alloc, spelled, tables, picture, Ask::Rows);
            is(spelled, given, want)
        }
        None => is_remark(line),
    }
}

fn have_rows_over(
    alloc: Global,
    cases: &str,
    tables: &[Table],
    picture: &[TableRows],
) -> Result<(), Fail> {
    for line in cases.lines() {
        is_answered(alloc, line, tables, picture)?;
    }
    Ok(())
}

/// Whether each text of the table comes to what the table says.
fn have_rows(alloc: Global, cases: &str) -> Result<(), Fail> {
    let (tables, picture) = both(tables(alloc), picture_of(alloc))?;
    let have_rows = have_rows_over(alloc, cases, tables.as_slice(), picture.as_slice());
    without((tables, picture), have_rows)
}

#[test]
fn keeps_rows(rt: HostRuntime) -> Result<(), Fail> {
    have_rows(rt.alloc(), FILTERS)
}

#[test]
fn joins_rows(rt: HostRuntime) -> Result<(), Fail> {
    have_rows(rt.alloc(), JOINS)
}

#[test]
fn groups_rows(rt: HostRuntime) -> Result<(), Fail> {
    have_rows(rt.alloc(), AGGREGATES)
}

#[test]
fn orders_and_cuts_rows(rt: HostRuntime) -> Result<(), Fail> {
    have_rows(rt.alloc(), ORDERS)
}

#[test]
fn tells_the_first_fault(rt: HostRuntime) -> Result<(), Fail> {
    have_rows(rt.alloc(), FAULTS)
}

/// Texts, the length of the last of 256 texts, and how many rows there are.
///
/// A row of one text has 11 bytes beside it, so 255 long rows are 16,714,485 bytes, and 62,731 are left.
const COUNTS: &[(&str, usize, &str)] = &[
    ("SELECT s FROM w", 62_720, "256"),
    ("SELECT s FROM w", 62_721, "S54000"),
    ("SELECT s FROM w LIMIT 255", 62_721, "255"),
    ("SELECT s FROM w OFFSET 1", 62_721, "255"),
];

/// How many rows a text comes to over 255 rows with texts of 65,536 bytes and one with a text of this length.
fn count(alloc: Global, spelled: &str, last: usize, tables: &[Table]) -> Result<String, Memory> {
    match long_picture(alloc, 255, last) {
        Ok(picture) => answer(alloc, spelled, tables, picture.as_slice(), Ask::Count),
        Err(_) => Err(Memory),
    }
}

fn have_counts(alloc: Global, tables: &[Table]) -> Result<(), Fail> {
    for (spelled, last, want) in COUNTS {
        is(*spelled, count(alloc, spelled, *last, tables), want)?;
    }
    Ok(())
}

#[test]
fn bounds_the_bytes_of_a_result(rt: HostRuntime) -> Result<(), Fail> {
    let tables = tables(rt.alloc())?;
    let have_counts = have_counts(rt.alloc(), tables.as_slice());
    without(tables, have_counts)
}

// ---- by chance

/// Whether there are rows, once both programs answered the same.
fn has_rows(spelled: &str, given: &str) -> Result<bool, Fail> {
    match given {
        "same" => Ok(true),
        "none" => Ok(false),
        _ => Err(Fail::new(format_args!("{given} at {spelled}"))),
    }
}

fn judged(spelled: &str, given: Result<String, Memory>) -> Result<bool, Fail> {
    let given = given?;
    has_rows(spelled, given.as_str())
}

fn agrees_at(
    alloc: Global,
    spelled: String,
    tables: &[Table],
    picture: &[TableRows],
) -> Result<bool, Fail> {
    let given = answer(alloc, spelled.as_str(), tables, picture, Ask::Same);
    let judged = judged(spelled.as_str(), given);
    without(spelled, judged)
}

fn agrees_over(
    alloc: Global,
    chance: &mut Chance,
    tables: &[Table],
    picture: Items<TableRows>,
) -> Result<bool, Fail> {
    let spelled = made::statement(alloc, chance)?;
    let agrees = agrees_at(alloc, spelled, tables, picture.as_slice());
    without(picture, agrees)
}

/// Whether one statement by chance, which has the rows of the slow program, has some.
fn agrees(alloc: Global, chance: &mut Chance, tables: &[Table]) -> Result<bool, Fail> {
    let picture = made::picture(alloc, chance)?;
    agrees_over(alloc, chance, tables, picture)
}

fn agree(alloc: Global, tables: &[Table]) -> Result<u32, Fail> {
    let mut chance = Chance::new(2026);
    let mut with_rows: u32 = 0;
    for _ in 0..600 {
        if agrees(alloc, &mut chance, tables)? {
            with_rows = with_rows.wrapping_add(1);
        }
    }
    Ok(with_rows)
}

fn are_many(with_rows: u32) -> Result<(), Fail> {
    if with_rows > 200 {
        return Ok(());
    }
    Err(Fail::new(format_args!("{with_rows} with rows")))
}

/// Statements and rows by chance: each has the rows of the slow program, and many have some.
#[test]
fn agrees_with_a_slow_program(rt: HostRuntime) -> Result<(), Fail> {
    let tables = tables(rt.alloc())?;
    let with_rows = agree(rt.alloc(), tables.as_slice());
    are_many(without(tables, with_rows)?)
}
