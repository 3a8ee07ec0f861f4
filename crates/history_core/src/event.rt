// The events of a history.
use cell_base::{Cell, Items, Key, Level, Text, Value};

/// One event, which is one hold of the history's turn, made by a session.
#[derive(Debug, Drop)]
pub enum Event {
    /// The session starts; sessions are numbered 1, 2, 3 in order of opening.
    Open {
        session: u32,
    },
    /// The session ends.
    Close {
        session: u32,
    },
    /// The next table, numbered from 0, has this name.
    Define {
        session: u32,
        name: Text,
    },
    /// The session saw that so many tables are defined.
    Look {
        session: u32,
        tables: u32,
    },
    /// The next transaction, numbered from 1, starts in the session at this level.
    Begin {
        session: u32,
        level: Level,
    },
    /// The keys of the table that the scan listed, ascending.
    Scan {
        session: u32,
        table: u32,
        keys: Items<Key>,
    },
    /// An external read: of the cell, from the source that the word picks of the offered list, whose length is the count, with
    /// the value that the source wrote last.
    Read {
        session: u32,
        cell: Cell,
        source: u32,
        count: u32,
        word: u32,
        value: Value,
    },
    /// An internal read, of a cell that the own transaction has written.
    Own {
        session: u32,
        cell: Cell,
        value: Value,
    },
    /// A buffered write.
    Write {
        session: u32,
        cell: Cell,
        value: Value,
    },
    /// The pending transaction of the session commits.
    Commit {
        session: u32,
    },
    /// The pending transaction of the session rolls back.
    Rollback {
        session: u32,
    },
    /// The session was told that this event has this number.
    Show {
        session: u32,
        number: u32,
    },
}
