// What is kept of each session.
ghost use Rattle.std.specs.Prelude.{◌≡◌, ◌<◌, ◌↔◌, ℕ, [], length, Contains, OnOk, IsTrue};
ghost use Rattle.bit_rows.specs.declared.TheConstants.{ROW_BITS};
ghost use Rattle.forced_rows.specs.Seats.{seat_at, KeepsSeats, ChangesSeat, ForgetsSources, TakesLast, GainsSource};

use bit_rows::Row;
use cell_base::Memory;
use std::alloc::Global;

/// What is kept of a session.
#[derive(Debug, Drop)]
pub struct Seat {
    /// The last transaction that the session has begun; 0 where it has begun none.
    pub last: u32,
    /// The transactions from which that one has read.
    pub sources: Row,
}

/// The last transaction that the session has begun.
pub fn last_of(seats: &[Seat], session: u32) -> u32
    ensures { result ≡ (seat_at seats.now session).last }
{
    match seats.get(session as usize) {
        Some(seat) => seat.last,
        None => 0,
    }
}

/// Whether the last transaction of the session has read from the source.
pub fn has_source(seats: &[Seat], session: u32, source: u32) -> bool
    requires { source < ROW_BITS }
    ensures { IsTrue result ↔ Contains (seat_at seats.now session).sources source }
{
    match seats.get(session as usize) {
        Some(seat) => seat.sources.has(source),
        None => false,
    }
}

/// Makes seats until the session has one. Those that are there stay.
pub fn add_seats(alloc: Global, seats: &mut Vec<Seat>, session: u32) -> Result<(), Memory>
    ensures ok { OnOk result (session < length seats.new.items) }
    ensures kept { KeepsSeats seats.old.items seats.new.items }
{
    while seats.len() <= session as usize {
        let sources = Row::new(alloc)?;
        seats.push(Seat { last: 0, sources })?;
    }
    Ok(())
}

/// Empties the sources of the session's seat.
pub fn forget_sources(seats: &mut Vec<Seat>, session: u32)
    requires { session < length seats.old.items }
    ensures { ChangesSeat seats.old.items seats.new.items session ForgetsSources }
{
    seats[session as usize].sources.clear();
}

/// The session has begun the transaction.
pub fn set_last(seats: &mut Vec<Seat>, session: u32, number: u32)
    requires { session < length seats.old.items }
    ensures { ChangesSeat seats.old.items seats.new.items session (TakesLast number) }
{
    seats[session as usize].last = number;
}

/// The last transaction of the session has read from the source.
pub fn add_source(seats: &mut Vec<Seat>, session: u32, source: u32)
    requires session { session < length seats.old.items }
    requires source { source < ROW_BITS }
    ensures { ChangesSeat seats.old.items seats.new.items session (GainsSource source) }
{
    seats[session as usize].sources.set(source);
}
