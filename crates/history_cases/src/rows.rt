// What no clause says: an initial state of one table, worked out by hand.
use crate::cells::Lit::{Flag, Int, Null};
use crate::cells::Spot::{Field, Presence};
use crate::cells::{Found, Lit, Spot, is_found};
use crate::steps::{push, right, right_at};
use cell_base::{Cell, Level, Memory, Value};
use held_values::{kept, without};
use history_core::{History, InitialState};
use sql_tree::Table;
use std::alloc::Global;
use std::test::Fail;
use table_samples::table;

/// Two rows of the table of `CREATE TABLE t (k bigint PRIMARY KEY, v bigint)`: (1, 10) and (2, null). What is there comes first, and then the
/// fields, each ascending.
const TWO_ROWS: &[(Spot, Lit)] = &[
    (Presence(1), Flag(true)),
    (Presence(2), Flag(true)),
    (Field(1, 1), Int(10)),
    (Field(2, 1), Null),
];

/// What is found in them.
const VALUES: &[Found] = &[
    (Presence(1), Some(Flag(true))),
    (Presence(3), None),
    (Field(1, 1), Some(Int(10))),
    (Field(2, 1), Some(Null)),
    (Field(0, 1), None),
];

fn push_cells(cells: &mut Vec<(Cell, Value)>, rows: &[(Spot, Lit)]) -> Result<(), Memory> {
    for (spot, lit) in rows {
        push(cells, (spot.cell(), lit.value()))?;
    }
    Ok(())
}

fn cells_of(alloc: Global, rows: &[(Spot, Lit)]) -> Result<Vec<(Cell, Value)>, Memory> {
    let mut cells = Vec::new(alloc);
    let pushed = push_cells(&mut cells, rows);
    kept(cells, pushed)
}

fn tables(alloc: Global) -> Result<Vec<Table>, Memory> {
    let table = table(alloc)?;
    let mut tables = Vec::new(alloc);
    let pushed = push(&mut tables, table);
    kept(tables, pushed)
}

fn initial_of(
    tables: &[Table],
    cells: Result<Vec<(Cell, Value)>, Memory>,
) -> Result<InitialState, Memory> {
    match InitialState::new(tables, cells?) {
        Some(initial) => Ok(initial),
        None => Err(Memory),
    }
}

fn two_rows(alloc: Global) -> Result<InitialState, Memory> {
    let tables = tables(alloc)?;
    let initial = initial_of(tables.as_slice(), cells_of(alloc, TWO_ROWS));
    without(tables, initial)
}

fn finds(initial: &InitialState, (spot, want): Found) -> bool {
    let cell = spot.cell();
    is_found(initial.value(&cell), want)
}

fn is_cell(cell: &Cell, spot: Spot) -> bool {
    *cell == spot.cell()
}

fn are_two(rows: &[(Cell, Value)]) -> bool {
    match rows {
        [first, second] => is_cell(&first.0, Presence(1)) && is_cell(&second.0, Presence(2)),
        _ => false,
    }
}

fn finds_values(initial: &InitialState) -> Result<(), Fail> {
    for (place, found) in VALUES.iter().enumerate() {
        right_at("values", place, finds(initial, *found))?;
    }
    Ok(())
}

fn are_there(initial: &InitialState) -> bool {
    initial.cells().len() == 4
        && initial.load() == 4
        && initial.rows(1).len() == 0
        && initial.rows(0).len() == 2
        && are_two(initial.rows(0))
}

fn has_two_rows(initial: &InitialState) -> Result<(), Fail> {
    right("rows", are_there(initial))?;
    finds_values(initial)
}

#[test]
fn two_rows_are_there_from_the_start(rt: HostRuntime) -> Result<(), Fail> {
    let initial = two_rows(rt.alloc())?;
    let has_two_rows = has_two_rows(&initial);
    without(initial, has_two_rows)
}

const OF_FIELD: Found = (Field(1, 1), Some(Int(10)));

fn begins_with_rows(history: &History) -> bool {
    history.load() == 4
        && history.events().len() == 0
        && history.level() == Level::Ra
        && history.initial().rows(0).len() == 2
        && finds(history.initial(), OF_FIELD)
}

/// A history begins with the load of its initial state.
#[test]
fn a_history_begins_with_its_rows(rt: HostRuntime) -> Result<(), Fail> {
    let initial = two_rows(rt.alloc())?;
    let history = History::new(rt.alloc(), Level::Ra, initial);
    let begins = begins_with_rows(&history);
    right("history", without(history, begins))
}

/// Whether the table is there, cells, and whether they are an initial state: a row that lacks its field, a row without its presence, rows of no
/// table, and no row of no table.
const PARTS: &[(bool, &[(Spot, Lit)], bool)] = &[
    (true, &[(Presence(1), Flag(true))], false),
    (true, &[(Field(1, 1), Int(10))], false),
    (false, TWO_ROWS, false),
    (false, &[], true),
];

fn is_initial(tables: &[Table], cells: Result<Vec<(Cell, Value)>, Memory>) -> Result<bool, Memory> {
    Ok(InitialState::new(tables, cells?).is_some())
}

fn are_initial(alloc: Global, tables: &[Table]) -> Result<(), Fail> {
    for (place, (has_table, rows, want)) in PARTS.iter().enumerate() {
        let shown = if *has_table { tables } else { &[] };
        let is_initial = is_initial(shown, cells_of(alloc, rows))?;
        right_at("parts", place, is_initial == *want)?;
    }
    Ok(())
}

#[test]
fn parts_of_rows_are_no_initial_state(rt: HostRuntime) -> Result<(), Fail> {
    let tables = tables(rt.alloc())?;
    let are_initial = are_initial(rt.alloc(), tables.as_slice());
    without(tables, are_initial)
}
