// What a history keeps of each transaction.
use cell_base::{Cell, Items, Key, Level};
use txn_buffer::TxnBuffer;

/// How far a transaction has come.
#[derive(Clone, Copy, Debug, PartialEq, Eq)]
pub enum TxnState {
    /// It has begun, and hasn't ended.
    Pending,
    /// It ended by a Commit.
    Committed,
    /// It ended by a Rollback.
    RolledBack,
}

/// What a transaction saw, with the number of the event; events are numbered from 1.
#[derive(Debug, Drop)]
pub enum Seen {
    /// An external read: the cell, and the transaction whose write it gave.
    Read {
        number: u32,
        cell: Cell,
        source: u32,
    },
    /// A scan: the table, and the keys that it listed.
    Scan {
        number: u32,
        table: u32,
        keys: Items<Key>,
    },
}

/// The record of a transaction.
#[derive(Debug, Drop)]
pub struct Txn {
    /// The session that it runs in.
    pub session: u32,
    /// Its isolation level.
    pub level: Level,
    /// How far it has come.
    pub state: TxnState,
    /// Its external reads and its scans, in order.
    pub seen: Items<Seen>,
    /// Its writes: the last value of each cell that it wrote, committed or not.
    pub buffer: TxnBuffer,
}
