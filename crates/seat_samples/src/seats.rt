// Seats in a store whose sessions take turns, which are asked first where the session stands.
ghost use Rattle.std.specs.Prelude.{◌≡◌, ◌<◌, ◌↔◌, length, IsTrue, IfOk, IsErr, Contains};
ghost use Rattle.history_core.specs.declared.event.Event.TheVariants as events;
ghost use Rattle.history_core.specs.Transactions.{HasPending};
ghost use Rattle.history_core.specs.Legal.{IsOpen};
ghost use Rattle.seat_samples.specs.SessionStates.{IsReady, IsBusy, MayBegin, MayGoOn};

use crate::stop::{Stop, misplaced};
use held_values::without;
use history_core::{Event, History};
use valid_writes::{SeatBook, Store};

/// The seat of a session with nothing pending, where there is a table.
pub fn idle_seat(store: Store, session: u32) -> Result<SeatBook, Stop>
    ensures { IfOk result IsReady }
{
    if !may_begin(store.history(), session) {
        return refused(store);
    }
    let book = store.seat(Some(session));
    Ok(book)
}

/// The seat of a session whose transaction is pending, where there is a table.
pub fn busy_seat(store: Store, session: u32) -> Result<SeatBook, Stop>
    ensures { IfOk result IsBusy }
{
    if !may_go_on(store.history(), session) {
        return refused(store);
    }
    let book = store.seat(Some(session));
    Ok(book)
}

/// No seat, since the call can't be made here.
fn refused(store: Store) -> Result<SeatBook, Stop>
    ensures { IsErr result }
{
    let stop = misplaced(store.history());
    without(store, Err(stop))
}

/// Whether the session may begin a transaction, and there is a table.
fn may_begin(history: &History, session: u32) -> bool
    ensures { IsTrue result → MayBegin history.now session }
{
    if has_pending(history, session) {
        return false;
    }
    stands(history, session)
}

/// Whether the session has a pending transaction, and there is a table.
fn may_go_on(history: &History, session: u32) -> bool
    ensures { IsTrue result → MayGoOn history.now session }
{
    if !has_pending(history, session) {
        return false;
    }
    stands(history, session)
}

/// Whether the session is open, and there is a table.
fn stands(history: &History, session: u32) -> bool
    ensures open_is { IsTrue result → IsOpen history.now.events session }
    ensures table { IsTrue result → 0 < length history.now.tables }
{
    if history.tables().is_empty() {
        return false;
    }
    is_open(history.events(), session)
}

/// Whether a transaction of the session is pending.
fn has_pending(history: &History, session: u32) -> bool
    ensures { IsTrue result ↔ HasPending history.now.events session }
{
    match history.pending(session) {
        Some(_) => true,
        None => false,
    }
}

/// Whether the session was opened and not closed.
fn is_open(events: &[Event], session: u32) -> bool
    ensures { IsTrue result ↔ IsOpen events.now session }
{
    if events.iter().any(|event| closes(event, session)) {
        return false;
    }
    events.iter().any(|event| opens(event, session))
}

/// Whether the event opens the session.
fn opens(event: &Event, session: u32) -> bool
    ensures { IsTrue result ↔ (event.now ≡ events.Open session) }
{
    match event {
        Event::Open { session: own } => *own == session,
        _ => false,
    }
}

/// Whether the event closes the session.
fn closes(event: &Event, session: u32) -> bool
    ensures { IsTrue result ↔ (event.now ≡ events.Close session) }
{
    match event {
        Event::Close { session: own } => *own == session,
        _ => false,
    }
}
