// What a check finds wrong with a trace.
use crate::spelled::SpelledCell;
use cell_base::{Cell, Memory};
use thiserror::Error;

/// The first thing that is wrong with a trace. Events are numbered from 1, and transactions as they begin, the initial one being 0.
#[derive(Debug, Drop, Error)]
pub enum Breach {
    /// The state of the session doesn't allow the event, it names a session, table or transaction that isn't the next one or isn't there, the name
    /// of a table is taken, or a value can't be written.
    #[error("breach event {event} shape")]
    Shape {
        event: u32,
    },
    /// A look or a show should say another number: this one.
    #[error("breach event {event} number {expected}")]
    Number {
        event: u32,
        expected: u32,
    },
    /// A scan doesn't list exactly the keys of the rows that are there from the start, or that committed transactions or its own one wrote, ascending.
    #[error("breach event {event} keys")]
    Keys {
        event: u32,
    },
    /// An external read of a cell that the own transaction has written, or an internal one of a cell that it hasn't.
    #[error("breach event {event} own")]
    Own {
        event: u32,
    },
    /// The source of a read is neither the initial transaction nor a committed one that writes the cell.
    #[error("breach event {event} source")]
    Source {
        event: u32,
    },
    /// The value isn't that of the source, or not the last that the own transaction wrote.
    #[error("breach event {event} value")]
    Value {
        event: u32,
    },
    /// The number of offered sources is 0, or above that of the candidates.
    #[error("breach event {event} count {candidates}")]
    Count {
        event: u32,
        candidates: u32,
    },
    /// The order doesn't hold each transaction once, the initial one first.
    #[error("breach order")]
    Order,
    /// The earlier transaction of a session doesn't stand before the later one in the order; the least such pair.
    #[error("breach session {earlier} {later}")]
    Session {
        earlier: u32,
        later: u32,
    },
    /// The transaction that was read from doesn't stand before the reader.
    #[error("breach event {event} read {origin} {reader}")]
    Read {
        event: u32,
        origin: u32,
        reader: u32,
    },
    /// The reader took the cell from the origin, and saw the rival, which writes the cell too and doesn't stand before the origin; the least
    /// rival, and for a scan then the least cell.
    #[error("breach event {event} axiom {origin} {rival} {reader} {spelled}", spelled = SpelledCell {cell: .cell})]
    Axiom {
        event: u32,
        origin: u32,
        rival: u32,
        reader: u32,
        cell: Cell,
    },
}

/// Why a check doesn't pass.
#[derive(Debug, Drop, Error)]
pub enum CheckFault {
    /// The trace has a breach.
    #[error("{0}")]
    Breach(Breach),
    /// Out of memory.
    #[error("out of memory")]
    Memory,
}

impl From<Memory> for CheckFault {
    ghost use Rattle.std.specs.Prelude.{◌≡◌};
    ghost use Rattle.history_check.specs.declared.breach.CheckFault.TheVariants as faults;

    ghost from_gives = { λ _ e. e ≡ faults.Memory };

    fn from(_: Memory) -> Self {
        CheckFault::Memory
    }
}
