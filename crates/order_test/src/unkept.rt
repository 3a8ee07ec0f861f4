// What a commit order doesn't keep.
use cell_base::Cell;

/// What a commit order doesn't keep of a history. Events are numbered from 1, and transactions as they begin, the initial one being 0.
#[derive(Debug, Drop)]
pub enum Unkept {
    /// The order doesn't hold each transaction once, the initial one first.
    Order,
    /// The earlier transaction of a session doesn't stand before the later one; the least such pair.
    Session {
        earlier: u32,
        later: u32,
    },
    /// The transaction that was read from doesn't stand before the reader.
    Read {
        event: u32,
        origin: u32,
        reader: u32,
    },
    /// The reader took the cell from the origin, and saw the rival, which writes the cell too and doesn't stand before the origin; the least
    /// rival, and for a scan then the least cell.
    Axiom {
        event: u32,
        origin: u32,
        rival: u32,
        reader: u32,
        cell: Cell,
    },
}
