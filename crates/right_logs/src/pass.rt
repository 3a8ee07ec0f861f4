// What one pass over the events of a history notes of them.
ghost use Rattle.std.specs.Prelude.{◌≡◌, ℕ, List, [], IfOk, length};
ghost use Rattle.order_test.specs.Places.{ArePlaces};
ghost use Rattle.right_logs.specs.Passes.{StandsFor};

use crate::guesses::{Guesses, no_guesses};
use crate::noted_values::NotedValues;
use crate::open_reads::SessionReads;
use crate::standing::highest_of;
use crate::txn_notes::{TxnNote, initial_txns};
use bumpalo::Bump;
use cell_base::{Level, Memory, Text};
use cell_writers::{CellNotes, no_cells};
use held_values::kept;
use history_check::{PendingWrites, SessionNote};
use order_test::Places;
use std::alloc::Global;

/// What the events so far come to. Session s has its notes at s - 1 and its last transaction at s, and transaction k its flag at k - 1 and its note
/// at k.
#[derive(Debug, Drop)]
pub struct Pass<'b> {
    pub alloc: Global,
    /// Where the clocks stand.
    pub clocks: &'b Bump,
    pub session_notes: Vec<SessionNote>,
    /// The places of the writes that are pending in each session.
    pub pending: Vec<PendingWrites>,
    /// Whether each transaction has committed.
    pub committed: Vec<bool>,
    /// The names of the tables.
    pub names: Vec<Text>,
    /// The cells, numbered as they come, and for each what is noted of its writers.
    pub cells: CellNotes,
    /// The value of each event that is a write.
    pub values: NotedValues,
    /// The last transaction of each session, 0 where it has begun none.
    pub last: Vec<u32>,
    /// What is noted of each transaction, the initial one first.
    pub txns: Vec<TxnNote<'b>>,
    /// Whether they have clocks.
    pub clocked: bool,
    /// Beside each number the last place in the order of the numbers up to it.
    pub highest: Vec<usize>,
    /// The reads that are pending in each session.
    pub reads: Vec<SessionReads>,
    /// Whether the order keeps what the reads of all transactions that have ended ask.
    pub met: bool,
    pub guesses: Guesses,
}

/// No cell, and room for the numbers of so many events.
fn roomy_cells(alloc: Global, room: usize) -> Result<CellNotes, Memory>
    ensures cells { IfOk result (λ cells. cells.numbers.cells.keys ≡ []) }
    ensures numbers { IfOk result (λ cells. cells.numbers.of_events.items ≡ []) }
    ensures notes { IfOk result (λ cells. cells.notes.items ≡ []) }
{
    let mut cells = no_cells(alloc);
    let came = cells.numbers.of_events.reserve(room);
    Ok(kept(cells, came)?)
}

/// Whether transactions have clocks in the log of a history of the level.
fn has_clocks(level: Level) -> bool {
    match level {
        Level::Rc => false,
        Level::Ra => false,
        Level::Cc => true,
    }
}

/// No event yet of a history of the level, beside the order of these places, and room for so many.
pub fn no_pass<'b>(
    alloc: Global,
    clocks: &'b Bump,
    level: Level,
    places: &Places,
    room: usize,
) -> Result<Pass<'b>, Memory>
    ensures { IfOk result (λ pass. (order : List ℕ) → ArePlaces (length places.now.at.items) order places.now.at.items → StandsFor order places.now.at.items [] pass) }
{
    let mut last = Vec::new(alloc);
    last.push(0)?;
    let txn_room = room.min(places.at.len());
    let txns = initial_txns(alloc, clocks, txn_room)?;
    let committed = Vec::with_capacity(alloc, txn_room)?;
    let highest = highest_of(alloc, &places.at)?;
    let guesses = no_guesses(alloc)?;
    let values = NotedValues::with_room(alloc, room)?;
    let cells = roomy_cells(alloc, room)?;
    Ok(Pass {
        alloc,
        clocks,
        session_notes: Vec::new(alloc),
        pending: Vec::new(alloc),
        committed,
        names: Vec::new(alloc),
        cells,
        values,
        last,
        txns,
        clocked: has_clocks(level),
        highest,
        reads: Vec::new(alloc),
        met: true,
        guesses,
    })
}
