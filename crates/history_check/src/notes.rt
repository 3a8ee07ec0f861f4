// What the judge notes of the events so far.
ghost use Rattle.std.specs.Prelude.{◌≡◌, ◌<◌, ◌↔◌, ℕ, [], Some, IsTrue, length};
ghost use Rattle.history_core.specs.Events.{opened};
ghost use Rattle.history_core.specs.Transactions.{IsPending};
ghost use Rattle.history_core.specs.Legal.{IsOpen};
ghost use Rattle.history_check.specs.Notes.{AreNotes};

use crate::pending_writes::PendingWrites;
use crate::session_note::SessionNote;
use crate::table_keys::{TableKeys, new_keys};
use history_core::Event;
use std::alloc::Global;

/// A note of each session, and the places of the writes that are pending in it; the number of transactions that have begun, and for each of them
/// whether it has committed; for each table the keys whose presence was written; and the number of tables. Session s has its notes at s - 1, and
/// transaction k its flag at k - 1. What is noted of each cell stands in `CellNotes`.
#[derive(Debug, Drop)]
pub struct Notes {
    pub alloc: Global,
    pub session_notes: Vec<SessionNote>,
    pub pending: Vec<PendingWrites>,
    pub begun: u32,
    pub committed: Vec<bool>,
    pub keys: TableKeys,
    pub tables: u32,
}

/// No event yet.
pub fn no_notes(alloc: Global) -> Notes
    ensures { AreNotes [] result }
{
    Notes {
        alloc,
        session_notes: Vec::new(alloc),
        pending: Vec::new(alloc),
        begun: 0,
        committed: Vec::new(alloc),
        keys: new_keys(alloc),
        tables: 0,
    }
}

/// Whether the session is open.
pub fn is_open(notes: &Notes, before: &[Event], session: u32) -> bool
    requires { AreNotes before.now notes.now }
    ensures { IsTrue result ↔ IsOpen before.now session }
{
    if session == 0 {
        return false;
    }
    if session as usize > notes.session_notes.len() {
        return false;
    }
    notes.session_notes[session as usize - 1].is_open
}

/// What is pending in the session.
pub fn pending_in(notes: &Notes, before: &[Event], session: u32) -> Option<u32>
    requires { AreNotes before.now notes.now }
    ensures { (txn : ℕ) → (result ≡ Some txn) ↔ IsPending before.now txn session }
{
    if session == 0 {
        return None;
    }
    if session as usize > notes.session_notes.len() {
        return None;
    }
    notes.session_notes[session as usize - 1].pending
}

/// How many sessions were opened.
pub fn count_opened(notes: &Notes, before: &[Event]) -> u32
    requires notes { AreNotes before.now notes.now }
    requires few { length before.now < 4294967296 }
    ensures { result ≡ opened before.now }
{
    notes.session_notes.len() as u32
}
