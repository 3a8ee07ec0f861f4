// A store whose first session has made the table.
use cell_base::{Cell, Key, Level, Value};
use held_values::without;
use history_core::InitialState;
use seat_samples::{Stop, open_next, with_table};
use sql_tree::Table;
use std::alloc::Global;
use table_samples::table;
use valid_writes::Store;

/// A store at the level in which five sessions are open, and the first one has made the table `t`. No row is there from the start, or the rows 1
/// with 10 and 2 with 20 are.
pub fn stage(alloc: Global, level: Level, has_rows: bool) -> Result<Store, Stop> {
    let initial = initial(alloc, has_rows)?;
    let mut store = with_table(alloc, Store::new(alloc, level, initial)?)?;
    for _ in 1..5 {
        store = open_next(store)?;
    }
    Ok(store)
}

fn initial(alloc: Global, has_rows: bool) -> Result<InitialState, Stop> {
    if !has_rows {
        return Ok(InitialState::empty(alloc));
    }
    let tables = tables(alloc)?;
    let initial = with_rows(tables.as_slice(), two_rows(alloc));
    without(tables, initial)
}

fn with_rows(
    tables: &[Table],
    rows: Result<Vec<(Cell, Value)>, Stop>,
) -> Result<InitialState, Stop> {
    match InitialState::new(tables, rows?) {
        Some(initial) => Ok(initial),
        None => Err(Stop::Unlike(0)),
    }
}

fn tables(alloc: Global) -> Result<Vec<Table>, Stop> {
    let table = table(alloc)?;
    Ok(vec![in alloc; table]?)
}

fn two_rows(alloc: Global) -> Result<Vec<(Cell, Value)>, Stop> {
    Ok(vec![in alloc;
        (Cell::Presence(0, Key::Int(1)), Value::Flag(true)),
        (Cell::Presence(0, Key::Int(2)), Value::Flag(true)),
        (Cell::Field(0, Key::Int(1), 1), Value::Int(10)),
        (Cell::Field(0, Key::Int(2), 1), Value::Int(20)),
    ]?)
}
