// What a history keeps: its events and tables, and a record of each transaction and of each session.
ghost use Rattle.std.specs.Prelude.{◌≡◌, ◌≤◌, ◌<◌, ◌+◌, ◌↔◌, ℕ, [], Some, length, Contains};
ghost use Rattle.history_core.specs.declared.event.Event.{Event};
ghost use Rattle.history_core.specs.Events.{begun, opened, defined};
ghost use Rattle.history_core.specs.Transactions.{IsPending, HasPending};
ghost use Rattle.history_core.specs.Records.{IsRecordOf};
ghost use Rattle.history_core.specs.Kept.{IsKept};

use crate::{Event, InitialState, Txn};
use cell_base::Level;
use sql_tree::Table;
use std::alloc::Global;

/// What is kept of a session.
#[derive(Clone, Copy, Debug)]
pub struct SessionRecord {
    pub is_open: bool,
    pub pending: Option<u32>,
}

/// The parts of a history. The record of transaction k stands at place k - 1 of `txns`, that of session s at place s - 1
/// of `sessions`. `owed` is the number of ends to come, of open sessions and of pending transactions; `events` has spare
/// room for so many.
#[derive(Debug, Drop)]
pub struct Kept {
    pub alloc: Global,
    pub level: Level,
    pub initial: InitialState,
    pub events: Vec<Event>,
    pub tables: Vec<Table>,
    pub txns: Vec<Txn>,
    pub sessions: Vec<SessionRecord>,
    pub load: u64,
    pub owed: usize,
}

/// No event yet.
pub fn new(alloc: Global, level: Level, initial: InitialState) -> Kept
    ensures kept { IsKept result }
    ensures level { result.level ≡ level }
    ensures initial { result.initial ≡ initial }
    ensures events { result.events.items ≡ [] }
    ensures tables { result.tables.items ≡ [] }
{
    let load = initial.load();
    Kept {
        alloc,
        level,
        initial,
        events: Vec::new(alloc),
        tables: Vec::new(alloc),
        txns: Vec::new(alloc),
        sessions: Vec::new(alloc),
        load,
        owed: 0,
    }
}

/// Where the record of an opened session stands.
pub fn session_index(kept: &Kept, session: u32) -> usize
    requires kept { IsKept kept.now }
    requires opened { Contains kept.now.events.items (Event.Open session) }
    ensures number { result + 1 ≡ session }
    ensures within { result < length kept.now.sessions.items }
{
    session as usize - 1
}

/// Where the record of the pending transaction stands.
pub fn pending_index(kept: &Kept, session: u32) -> usize
    requires kept { IsKept kept.now }
    requires pending { HasPending kept.now.events.items session }
    ensures pending { IsPending kept.now.events.items (result + 1) session }
    ensures within { result < length kept.now.txns.items }
{
    let at = session_index(kept, session);
    match kept.sessions[at].pending {
        Some(number) => number as usize - 1,
        None => unreachable!(),
    }
}

/// How many transactions have begun.
pub fn count_begun(kept: &Kept) -> u32
    requires { IsKept kept.now }
    ensures { result ≡ begun kept.now.events.items }
{
    kept.txns.as_slice().len() as u32
}

/// How many sessions were opened.
pub fn count_opened(kept: &Kept) -> u32
    requires { IsKept kept.now }
    ensures { result ≡ opened kept.now.events.items }
{
    kept.sessions.as_slice().len() as u32
}

/// How many tables are defined.
pub fn count_defined(kept: &Kept) -> usize
    requires { IsKept kept.now }
    ensures { result ≡ defined kept.now.events.items }
{
    kept.tables.as_slice().len()
}

/// The number of the next event.
pub fn next_number(kept: &Kept) -> u32
    requires { IsKept kept.now }
    ensures { result ≡ length kept.now.events.items + 1 }
{
    kept.events.as_slice().len() as u32 + 1
}

/// The record of the transaction.
pub fn txn_of(kept: &Kept, number: u32) -> &Txn
    requires kept { IsKept kept.now }
    requires some { 0 < number }
    requires begun { number ≤ begun kept.now.events.items }
    ensures { IsRecordOf kept.now.events.items number result.now }
{
    &kept.txns[number as usize - 1]
}

/// What is pending in the session.
pub fn pending_of(kept: &Kept, session: u32) -> Option<u32>
    requires { IsKept kept.now }
    ensures { (number : ℕ) → (result ≡ Some number) ↔ IsPending kept.now.events.items number session }
{
    if session == 0 {
        return None;
    }
    if session > count_opened(kept) {
        return None;
    }
    kept.sessions[session as usize - 1].pending
}
