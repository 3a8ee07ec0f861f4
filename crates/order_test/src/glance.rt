// What is light of the events, found in one pass over them.
ghost use Rattle.std.specs.Prelude.{◌≡◌, ◌≤◌, ◌<◌, ◌∷◌, ◌++◌, [], IsTrue, IfOk, OnOk, length};
ghost use Rattle.history_core.specs.Events.{session_in};
ghost use Rattle.further_reads.specs.Begun.{IsLastBegun};
ghost use Rattle.order_test.specs.Settled.{ComesSettled, IsOrderly};
ghost use Rattle.order_test.specs.Places.{ArePlaces, StandsAt};
ghost use Rattle.order_test.specs.Glance.{AreLast, HoldsLast, IsWidened, AreOwners, IsGlance, IsNoted, AddsLimit, RaisesLimit};

use crate::places::{Places, stands_before};
use cell_base::Memory;
use history_core::Event;
use std::alloc::Global;

/// What the events so far come to, as far as it is light.
#[derive(Debug, Drop)]
pub struct Glance {
    /// For each session up to the greatest one so far the last transaction that it has begun, 0 where it has begun none.
    pub last: Vec<u32>,
    /// For each event that last transaction of its session.
    pub owners: Vec<u32>,
    /// For each transaction, the initial one first, a number that none in its causal past is above.
    pub limits: Vec<u32>,
    /// Whether the order keeps session order.
    pub keeps: bool,
    /// Whether there is a scan.
    pub scans: bool,
}

/// The session that made the event.
fn session_of(event: &Event) -> u32
    ensures { result ≡ session_in event.now }
{
    match event {
        Event::Open { session } => *session,
        Event::Close { session } => *session,
        Event::Define { session, .. } => *session,
        Event::Look { session, .. } => *session,
        Event::Begin { session, .. } => *session,
        Event::Scan { session, .. } => *session,
        Event::Read { session, .. } => *session,
        Event::Own { session, .. } => *session,
        Event::Write { session, .. } => *session,
        Event::Commit { session } => *session,
        Event::Rollback { session } => *session,
        Event::Show { session, .. } => *session,
    }
}

/// The limit of the initial transaction, with room for so many limits.
fn first_limits(alloc: Global, room: usize) -> Result<Vec<u32>, Memory>
    ensures { IfOk result (λ limits. limits.items ≡ 0 ∷ []) }
{
    let mut limits = Vec::with_capacity(alloc, room)?;
    limits.push(0)?;
    Ok(limits)
}

/// No event yet, of so many that there is room for, and for as many transactions as the order has.
fn no_glance(alloc: Global, order: &[u32], room: usize) -> Result<Glance, Memory>
    ensures { IfOk result (IsGlance [] order.now) }
{
    let last = vec![in alloc; 0; 1]?;
    let limits = first_limits(alloc, order.len())?;
    let owners = Vec::with_capacity(alloc, room)?;
    Ok(Glance {
        last,
        owners,
        limits,
        keeps: true,
        scans: false,
    })
}

/// The greater of two numbers.
fn greater(first: u32, second: u32) -> u32
    ensures { (first ≤ result) × (second ≤ result) }
{
    first.max(second)
}

/// Whether session order was kept so far, and is with the next transaction after the last one of its session.
fn goes_on(keeps: bool, places: &Places, last: u32, number: u32) -> bool
    ensures { IsTrue result → IsTrue keeps × StandsAt places.now.at.items last number }
{
    keeps && stands_before(places, last, number)
}

/// Notes that a transaction begins in the session, whose last one was this. The order keeps session order where it has that one before.
fn note_begin(glance: &mut Glance, places: &Places, session: u32, last: u32) -> Result<(), Memory>
    requires last { last < length glance.old.limits.items }
    requires session { session < length glance.old.last.items }
    requires few { length glance.old.limits.items < 4294967296 }
    ensures { OnOk result (AddsLimit places.now.at.items session last glance.old glance.new) }
{
    let number = glance.limits.len() as u32;
    let limit = greater(last, glance.limits[last as usize]);
    glance.limits.push(limit)?;
    glance.last[session as usize] = number;
    glance.keeps = goes_on(glance.keeps, places, last, number);
    Ok(())
}

/// Raises the limit of the reader to the source and to its limit.
fn raise_limit(limits: &mut Vec<u32>, reader: u32, source: u32)
    requires reader { reader < length limits.old.items }
    requires source { source < length limits.old.items }
    ensures { RaisesLimit reader source limits.old.items limits.new.items }
{
    let top = greater(source, limits[source as usize]);
    limits[reader as usize] = greater(top, limits[reader as usize]);
}

/// Notes of the event what it changes in the limits. `last` is the last transaction of its session.
fn note_change(
    glance: &mut Glance,
    places: &Places,
    order: &[u32],
    before: &[Event],
    event: &Event,
    last: u32,
) -> Result<(), Memory>
    requires glance { IsNoted before.now order.now event.now last glance.old }
    requires comes { ComesSettled before.now event.now }
    requires places { ArePlaces (length places.now.at.items) order.now places.now.at.items }
    requires few { length before.now < 4294967295 }
    ensures { OnOk result (IsGlance (before.now ++ event.now ∷ []) order.now glance.new) }
{
    match event {
        Event::Begin { session, .. } => note_begin(glance, places, *session, last),
        Event::Read { source, .. } => {
            raise_limit(&mut glance.limits, last, *source);
            Ok(())
        }
        Event::Open { .. } => Ok(()),
        Event::Close { .. } => Ok(()),
        Event::Define { .. } => Ok(()),
        Event::Look { .. } => Ok(()),
        Event::Scan { .. } => {
            glance.scans = true;
            Ok(())
        }
        Event::Own { .. } => Ok(()),
        Event::Write { .. } => Ok(()),
        Event::Commit { .. } => Ok(()),
        Event::Rollback { .. } => Ok(()),
        Event::Show { .. } => Ok(()),
    }
}

/// Lengthens the list by zeros.
fn widen(last: &mut Vec<u32>, width: usize) -> Result<(), Memory>
    requires { length last.old.items ≤ width }
    ensures { OnOk result (IsWidened width last.old.items last.new.items) }
{
    last.resize(width, 0)?;
    Ok(())
}

/// Makes room for the last transaction of the event's session. Where there was none, the session has begun none.
fn make_room(last: &mut Vec<u32>, before: &[Event], event: &Event) -> Result<(), Memory>
    requires { HoldsLast before.now last.old.items }
    ensures last { OnOk result (HoldsLast before.now last.new.items) }
    ensures within { OnOk result (session_in event.now < length last.new.items) }
{
    let session = session_of(event);
    if (session as usize) < last.len() {
        return Ok(());
    }
    widen(last, session as usize + 1)
}

/// The last transaction of the event's session.
fn owner_of(glance: &Glance, before: &[Event], event: &Event) -> u32
    requires last { AreLast before.now (length glance.now.last.items) glance.now.last.items }
    requires within { session_in event.now < length glance.now.last.items }
    ensures { IsLastBegun before.now (session_in event.now) result }
{
    glance.last[session_of(event) as usize]
}

/// Notes the transaction of the event's session beside the event.
fn note_owner(
    owners: &mut Vec<u32>,
    before: &[Event],
    event: &Event,
    owner: u32,
) -> Result<(), Memory>
    requires owners { AreOwners before.now owners.old.items }
    requires owner { IsLastBegun before.now (session_in event.now) owner }
    ensures { OnOk result (AreOwners (before.now ++ event.now ∷ []) owners.new.items) }
{
    owners.push(owner)?;
    Ok(())
}

/// Notes the event.
fn note(
    glance: &mut Glance,
    places: &Places,
    order: &[u32],
    before: &[Event],
    event: &Event,
) -> Result<(), Memory>
    requires glance { IsGlance before.now order.now glance.old }
    requires comes { ComesSettled before.now event.now }
    requires places { ArePlaces (length places.now.at.items) order.now places.now.at.items }
    requires few { length before.now < 4294967295 }
    ensures { OnOk result (IsGlance (before.now ++ event.now ∷ []) order.now glance.new) }
{
    make_room(&mut glance.last, before, event)?;
    let owner = owner_of(glance, before, event);
    note_owner(&mut glance.owners, before, event, owner)?;
    note_change(glance, places, order, before, event, owner)
}

/// What is light of the events.
pub fn glance_of(
    alloc: Global,
    events: &[Event],
    order: &[u32],
    places: &Places,
) -> Result<Glance, Memory>
    requires orderly { IsOrderly events.now }
    requires places { ArePlaces (length places.now.at.items) order.now places.now.at.items }
    requires few { length events.now < 4294967296 }
    ensures { IfOk result (IsGlance events.now order.now) }
{
    let mut glance = no_glance(alloc, order, events.len())?;
    for at in 0..events.len() {
        note(&mut glance, places, order, &events[..at], &events[at])?;
    }
    Ok(glance)
}
