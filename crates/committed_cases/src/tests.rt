// What is committed at the end, and what starts with it.
use crate::cells::{Put, Row, are_cells};
use crate::held::{none, right, some};
use crate::play::{Transaction, played};
use cell_base::{Cell, Level, Value};
use committed_rows::{committed_rows, start_after};
use held_values::without;
use history_core::{BookFault, Event, History};
use std::alloc::Global;
use std::test::Fail;
use valid_writes::Store;

/// Transaction 1 inserts rows 1 and 2 of the first table, and row `b` of the second one. Transaction 2 updates row 1, twice. Transaction 3
/// deletes row 2, and inserts row -5. Transaction 4 updates row 1, deletes row -5, inserts row 3, and is rolled back. Transaction 5 inserts row
/// `a` of the second table. Transaction 6 deletes row `b`, and 7 inserts it once more.
const TRANSACTIONS: &[Transaction] = &[
    Transaction {
        writes: &[
            Put::Row(0, Row::Number(1), true),
            Put::Field(0, Row::Number(1), Some(10)),
            Put::Row(0, Row::Number(2), true),
            Put::Field(0, Row::Number(2), Some(20)),
            Put::Row(1, Row::Name(b"b"), true),
            Put::Field(1, Row::Name(b"b"), Some(7)),
        ],
        commits: true,
    },
    Transaction {
        writes: &[
            Put::Field(0, Row::Number(1), Some(11)),
            Put::Field(0, Row::Number(1), Some(12)),
        ],
        commits: true,
    },
    Transaction {
        writes: &[
            Put::Row(0, Row::Number(2), false),
            Put::Row(0, Row::Number(-5), true),
            Put::Field(0, Row::Number(-5), None),
        ],
        commits: true,
    },
    Transaction {
        writes: &[
            Put::Field(0, Row::Number(1), Some(13)),
            Put::Row(0, Row::Number(-5), false),
            Put::Row(0, Row::Number(3), true),
            Put::Field(0, Row::Number(3), Some(30)),
        ],
        commits: false,
    },
    Transaction {
        writes: &[
            Put::Row(1, Row::Name(b"a"), true),
            Put::Field(1, Row::Name(b"a"), Some(8)),
        ],
        commits: true,
    },
    Transaction {
        writes: &[Put::Row(1, Row::Name(b"b"), false)],
        commits: true,
    },
    Transaction {
        writes: &[
            Put::Row(1, Row::Name(b"b"), true),
            Put::Field(1, Row::Name(b"b"), Some(9)),
        ],
        commits: true,
    },
];

/// The rows at the end of these.
const ROWS: &[Put] = &[
    Put::Row(0, Row::Number(-5), true),
    Put::Row(0, Row::Number(1), true),
    Put::Row(1, Row::Name(b"a"), true),
    Put::Row(1, Row::Name(b"b"), true),
    Put::Field(0, Row::Number(-5), None),
    Put::Field(0, Row::Number(1), Some(12)),
    Put::Field(1, Row::Name(b"a"), Some(8)),
    Put::Field(1, Row::Name(b"b"), Some(9)),
];

/// A row without its field.
const HALF: &[Transaction] = &[Transaction {
    writes: &[Put::Row(0, Row::Number(1), true)],
    commits: true,
}];

/// The store at the end of these.
fn all_played(alloc: Global) -> Result<Store, BookFault> {
    played(alloc, TRANSACTIONS)
}

/// Whether these are the rows.
fn are_rows(alloc: Global, cells: &[(Cell, Value)]) -> Result<bool, BookFault> {
    are_cells(alloc, cells, ROWS)
}

/// Whether these are the rows at the end of the history.
fn ends_with_rows(alloc: Global, history: &History) -> Result<bool, BookFault> {
    let cells = committed_rows(alloc, history)?;
    let are_rows = are_rows(alloc, cells.as_slice());
    without(cells, are_rows)
}

/// Whether the rows are found at the end.
fn finds_rows(alloc: Global) -> Result<bool, BookFault> {
    let store = all_played(alloc)?;
    let ends_with_rows = ends_with_rows(alloc, store.history());
    without(store, ends_with_rows)
}

/// Whether the event opens session 1, defines the table of the name in it, or closes it.
fn is_event(event: &Event, word: &[u8]) -> bool {
    match event {
        Event::Open { session: 1 } => word == b"open".as_slice(),
        Event::Define { session: 1, name } => name.bytes() == word,
        Event::Close { session: 1 } => word == b"close".as_slice(),
        _ => false,
    }
}

/// Whether session 1 has made both tables and was closed, and nothing else was done.
fn has_begun(history: &History) -> bool {
    match history.events() {
        [first, second, third, fourth] => {
            is_event(first, b"open")
                && is_event(second, b"t")
                && is_event(third, b"u")
                && is_event(fourth, b"close")
        }
        _ => false,
    }
}

/// A store of the level that starts after the history.
fn started(alloc: Global, level: Level, setup: &History) -> Result<Store, BookFault> {
    some(start_after(alloc, level, setup))
}

/// Whether a store of the level that starts after the history has the rows and the tables.
fn starts_with_rows(alloc: Global, level: Level, setup: &History) -> Result<bool, BookFault> {
    let store = started(alloc, level, setup)?;
    let has_rows = has_rows(alloc, level, store.history());
    without(store, has_rows)
}

/// Whether the history begins with the rows and the tables.
fn has_rows(alloc: Global, level: Level, history: &History) -> Result<bool, BookFault> {
    Ok(
        are_rows(alloc, history.initial().cells())?
            && has_begun(history)
            && history.tables().len() == 2
            && history.level() == level,
    )
}

/// Whether the history begins with the rows and the tables, and so does a store that starts after it.
fn has_rows_twice(alloc: Global, level: Level, history: &History) -> Result<bool, BookFault> {
    Ok(has_rows(alloc, level, history)? && starts_with_rows(alloc, Level::Rc, history)?)
}

/// Whether a store that starts after the history has the rows, and one that starts after that.
fn starts_from(alloc: Global, setup: &History) -> Result<bool, BookFault> {
    let store = started(alloc, Level::Ra, setup)?;
    let has_rows = has_rows_twice(alloc, Level::Ra, store.history());
    without(store, has_rows)
}

/// Whether what starts after what was played has the rows, and what starts after that.
fn starts_twice(alloc: Global) -> Result<bool, BookFault> {
    let setup = all_played(alloc)?;
    let starts = starts_from(alloc, setup.history());
    without(setup, starts)
}

/// Whether nothing starts after a row without its field.
fn half_a_row_is_refused(alloc: Global) -> Result<bool, BookFault> {
    let setup = played(alloc, HALF)?;
    let refused = none(start_after(alloc, Level::Cc, setup.history()));
    without(setup, refused)
}

#[test]
fn the_rows_at_the_end(rt: HostRuntime) -> Result<(), Fail> {
    right("rows", finds_rows(rt.alloc())?)
}

#[test]
fn a_store_that_starts_with_them(rt: HostRuntime) -> Result<(), Fail> {
    right("starts", starts_twice(rt.alloc())?)
}

#[test]
fn a_row_that_lacks_a_field(rt: HostRuntime) -> Result<(), Fail> {
    right("half a row", half_a_row_is_refused(rt.alloc())?)
}
