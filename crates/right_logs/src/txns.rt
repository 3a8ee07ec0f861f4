// The beginnings and the ends of transactions.
ghost use Rattle.std.specs.Prelude.{◌≡◌, ◌<◌, ◌≤◌, List, IsTrue, IfOk, length, slice_index, slice_set};
ghost use Rattle.history_core.specs.declared.event.Event.{Event as EventOf};
ghost use Rattle.history_check.specs.Notes.{ArePendingIn, StandsForPendingWrites};
ghost use Rattle.right_logs.specs.Passes.{Goes, Stands};

use crate::kept::still_met;
use crate::open_reads::clear_reads;
use crate::pass::Pass;
use crate::places::note_place;
use crate::seats::{is_idle, pending_of};
use crate::txn_notes::add_txn;
use cell_base::{Level, Memory};
use history_check::{PendingWrites, clear_pending, note_all_committed, set_committed, set_pending};
use history_core::Event;
use order_test::{Places, stands_before};

/// The last transaction of the session.
fn last_of(pass: &Pass, session: u32) -> u32
    requires { session < length pass.now.last.items }
    ensures { result ≡ slice_index pass.now.last.items session }
{
    pass.last[session as usize]
}

/// The number of the next transaction.
fn next_number(pass: &Pass) -> u32
    requires { length pass.now.txns.items < 4294967296 }
    ensures { result ≡ length pass.now.txns.items }
{
    pass.txns.len() as u32
}

/// Sets the last transaction of the session.
fn set_last(last: &mut Vec<u32>, session: u32, number: u32)
    requires { session < length last.old.items }
    ensures { last.new.items ≡ slice_set last.old.items session number }
{
    last[session as usize] = number;
}

/// Takes the event that begins a transaction, where the order has it after the last one of its session.
pub fn take_begin(
    pass: &mut Pass,
    places: &Places,
    session: u32,
    level: Level,
) -> Result<bool, Memory>
    requires stands { Stands places.now.at.items pass.old }
    requires few { length pass.old.values < 2147483644 }
    ensures { IfOk result (λ goes. IsTrue goes → Goes places.now.at.items (Event.Begin session level) pass.old pass.new) }
{
    if !is_idle(&pass.session_notes, session) {
        return Ok(false);
    }
    let last = last_of(pass, session);
    let number = next_number(pass);
    if !stands_before(places, last, number) {
        return Ok(false);
    }
    add_txn(
        pass.clocks,
        &mut pass.txns,
        pass.clocked,
        session,
        level,
        last,
    )?;
    pass.committed.push(false)?;
    set_last(&mut pass.last, session, number);
    set_pending(&mut pass.session_notes, session, Some(number));
    note_place(&mut pass.cells.numbers.of_events, &mut pass.values)?;
    Ok(true)
}

/// The places of the writes that are pending in the session.
fn places_in(pending: &[PendingWrites], session: u32) -> &[u32]
    requires some { 0 < session }
    requires opened { session ≤ length pending.now }
    ensures { (events : List EventOf) → StandsForPendingWrites events pending.now → ArePendingIn events session result.now }
{
    pending[session as usize - 1].places.as_slice()
}

/// Takes the event that commits the pending transaction of a session.
pub fn take_commit(pass: &mut Pass, places: &Places, session: u32) -> Result<bool, Memory>
    requires stands { Stands places.now.at.items pass.old }
    requires few { length pass.old.values < 2147483644 }
    ensures { IfOk result (λ goes. IsTrue goes → Goes places.now.at.items (Event.Commit session) pass.old pass.new) }
{
    let Some(number) = pending_of(&pass.session_notes, session) else {
        return Ok(false);
    };
    let met = still_met(pass, places, session, number);
    note_place(&mut pass.cells.numbers.of_events, &mut pass.values)?;
    let writes = places_in(&pass.pending, session);
    let of_events = pass.cells.numbers.of_events.as_slice();
    note_all_committed(&mut pass.cells.notes, of_events, writes, number)?;
    clear_pending(&mut pass.pending, session);
    set_committed(&mut pass.committed, number);
    clear_reads(&mut pass.reads, session);
    pass.met = met;
    set_pending(&mut pass.session_notes, session, None);
    Ok(true)
}

/// Takes the event that rolls the pending transaction of a session back.
pub fn take_rollback(pass: &mut Pass, places: &Places, session: u32) -> Result<bool, Memory>
    requires stands { Stands places.now.at.items pass.old }
    requires few { length pass.old.values < 2147483644 }
    ensures { IfOk result (λ goes. IsTrue goes → Goes places.now.at.items (Event.Rollback session) pass.old pass.new) }
{
    let Some(number) = pending_of(&pass.session_notes, session) else {
        return Ok(false);
    };
    let met = still_met(pass, places, session, number);
    clear_pending(&mut pass.pending, session);
    clear_reads(&mut pass.reads, session);
    pass.met = met;
    set_pending(&mut pass.session_notes, session, None);
    note_place(&mut pass.cells.numbers.of_events, &mut pass.values)?;
    Ok(true)
}
