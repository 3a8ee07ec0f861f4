// Beside each event the last transaction that its session had begun before it.
ghost use Rattle.std.specs.Prelude.{◌≡◌, ◌≤◌, ◌<◌, ◌+◌, ◌∷◌, ◌++◌, [], IfOk, OnOk, length, slice_set};
ghost use Rattle.history_core.specs.Events.{begun, is_begin, session_in};
ghost use Rattle.further_reads.specs.Begun.{IsLastBegun};
ghost use Rattle.order_test.specs.Glance.{AreLast, HoldsLast, IsWidened, AreOwners};
ghost use Rattle.cycle_report.specs.Owned.{AreOwnedBy};

use cell_base::Memory;
use history_core::Event;
use std::alloc::Global;

/// The events so far, by the transactions of their sessions.
#[derive(Debug, Drop)]
pub struct Owners {
    /// For each session up to the greatest one so far the last transaction that it has begun, 0 where it has begun none.
    pub last: Vec<u32>,
    /// For each event that last transaction of its session.
    pub of_events: Vec<u32>,
    /// How many transactions have begun.
    pub begun: u32,
}

/// The session that made the event.
fn session_of(event: &Event) -> u32
    ensures { result ≡ session_in event.now }
{
    match event {
        Event::Open { session } => *session,
        Event::Close { session } => *session,
        Event::Define { session, .. } => *session,
        Event::Look { session, .. } => *session,
        Event::Begin { session, .. } => *session,
        Event::Scan { session, .. } => *session,
        Event::Read { session, .. } => *session,
        Event::Own { session, .. } => *session,
        Event::Write { session, .. } => *session,
        Event::Commit { session } => *session,
        Event::Rollback { session } => *session,
        Event::Show { session, .. } => *session,
    }
}

/// Whether a transaction begins by the event.
pub fn is_begin(event: &Event) -> bool
    ensures { result ≡ is_begin event.now }
{
    match event {
        Event::Begin { .. } => true,
        Event::Open { .. } => false,
        Event::Close { .. } => false,
        Event::Define { .. } => false,
        Event::Look { .. } => false,
        Event::Scan { .. } => false,
        Event::Read { .. } => false,
        Event::Own { .. } => false,
        Event::Write { .. } => false,
        Event::Commit { .. } => false,
        Event::Rollback { .. } => false,
        Event::Show { .. } => false,
    }
}

/// No event yet.
fn no_owners(alloc: Global) -> Result<Owners, Memory>
    ensures { IfOk result (AreOwnedBy []) }
{
    let last = vec![in alloc; 0; 1]?;
    let of_events = Vec::new(alloc);
    Ok(Owners {
        last,
        of_events,
        begun: 0,
    })
}

/// Lengthens the list by zeros.
fn widen(last: &mut Vec<u32>, width: usize) -> Result<(), Memory>
    requires { length last.old.items ≤ width }
    ensures { OnOk result (IsWidened width last.old.items last.new.items) }
{
    last.resize(width, 0)?;
    Ok(())
}

/// Makes room for the last transaction of the event's session. Where there was none, the session has begun none.
fn make_room(last: &mut Vec<u32>, before: &[Event], event: &Event) -> Result<(), Memory>
    requires { HoldsLast before.now last.old.items }
    ensures last { OnOk result (HoldsLast before.now last.new.items) }
    ensures within { OnOk result (session_in event.now < length last.new.items) }
{
    let session = session_of(event);
    if (session as usize) < last.len() {
        return Ok(());
    }
    widen(last, session as usize + 1)
}

/// The last transaction of the event's session.
fn owner_of(last: &[u32], before: &[Event], event: &Event) -> u32
    requires last { AreLast before.now (length last.now) last.now }
    requires within { session_in event.now < length last.now }
    ensures { IsLastBegun before.now (session_in event.now) result }
{
    last[session_of(event) as usize]
}

/// Notes the transaction of the event's session beside the event.
fn note_owner(
    owners: &mut Vec<u32>,
    before: &[Event],
    event: &Event,
    owner: u32,
) -> Result<(), Memory>
    requires owners { AreOwners before.now owners.old.items }
    requires owner { IsLastBegun before.now (session_in event.now) owner }
    ensures { OnOk result (AreOwners (before.now ++ event.now ∷ []) owners.new.items) }
{
    owners.push(owner)?;
    Ok(())
}

/// Notes in the last transactions of the sessions that a transaction begins, where one does; so many had begun before. How many have begun then.
fn note_begin(last: &mut Vec<u32>, before: &[Event], event: &Event, so_far: u32) -> u32
    requires last { HoldsLast before.now last.old.items }
    requires within { session_in event.now < length last.old.items }
    requires count { so_far ≡ begun before.now }
    requires few { length before.now < 4294967295 }
    ensures last { HoldsLast (before.now ++ event.now ∷ []) last.new.items }
    ensures count { result ≡ begun (before.now ++ event.now ∷ []) }
{
    if !is_begin(event) {
        return so_far;
    }
    let number = next_number(so_far, before);
    set_last(last, session_of(event), number);
    number
}

/// The number of the next transaction, after so many.
fn next_number(so_far: u32, before: &[Event]) -> u32
    requires count { so_far ≡ begun before.now }
    requires few { length before.now < 4294967295 }
    ensures { result ≡ so_far + 1 }
{
    so_far + 1
}

/// Puts the last transaction of a session.
fn set_last(last: &mut Vec<u32>, session: u32, number: u32)
    requires { session < length last.old.items }
    ensures { last.new.items ≡ slice_set last.old.items session number }
{
    last[session as usize] = number;
}

/// Notes the event.
fn note(owners: &mut Owners, before: &[Event], event: &Event) -> Result<(), Memory>
    requires owners { AreOwnedBy before.now owners.old }
    requires few { length before.now < 4294967295 }
    ensures { OnOk result (AreOwnedBy (before.now ++ event.now ∷ []) owners.new) }
{
    make_room(&mut owners.last, before, event)?;
    let owner = owner_of(&owners.last, before, event);
    note_owner(&mut owners.of_events, before, event, owner)?;
    owners.begun = note_begin(&mut owners.last, before, event, owners.begun);
    Ok(())
}

/// The transactions of the events.
pub fn owners_of(alloc: Global, events: &[Event]) -> Result<Owners, Memory>
    requires { length events.now < 4294967296 }
    ensures { IfOk result (AreOwnedBy events.now) }
{
    let mut owners = no_owners(alloc)?;
    for at in 0..events.len() {
        note(&mut owners, &events[..at], &events[at])?;
    }
    Ok(owners)
}
