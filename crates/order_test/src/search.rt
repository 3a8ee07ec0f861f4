// The first that an order doesn't keep.
ghost use Rattle.std.specs.Prelude.{◌≡◌, ◌≤◌, ◌<◌, ◌+◌, ◌↔◌, ℕ, Some, IsTrue, IfOk, IfSome, IfNone, length, slice_get};
ghost use Rattle.history_core.specs.Events.{begun};
ghost use Rattle.history_core.specs.Kept.{StandsForTxns};
ghost use Rattle.cell_writers.specs.Numbered.{AreWriters};
ghost use Rattle.order_test.specs.Settled.{IsOrderly, AreOwned};
ghost use Rattle.order_test.specs.Unkept.{HoldsAll, HoldsTransactions, KeepsSessions, IsFirstOutOfSession, IsFoundOfOrder, IsKeptAt, IsKeptBelow};
ghost use Rattle.order_test.specs.Places.{ArePlaces};
ghost use Rattle.order_test.specs.Sights.{IsNumber, IsReading, IsAxiomOf, IsFoundAt, IsFoundAmong, origin_of};
ghost use Rattle.order_test.specs.Glance.{IsGlance};
ghost use Rattle.order_test.specs.Scenes.{IsSurvey, IsScene, IsReadIn, IsRivalOf};

use crate::Unkept;
use crate::glance::{Glance, glance_of};
use crate::listed::lists_of;
use crate::pasts::pasts_of;
use crate::places::{Places, places_of, stands_before};
use crate::quick::{is_clear, is_reached};
use crate::reaches::reaches_of;
use crate::read_at::ReadAt;
use crate::records::txns_of;
use crate::rivals::{is_reading, origin, rival_cell, source_of};
use crate::scene::Scene;
use crate::sessions::{first_out_of_session, is_late, txn_of};
use crate::survey::Survey;
use crate::unmet::is_rival;
use crate::walk::{EventWalk, InTurn};
use cell_base::Memory;
use cell_writers::CellNotes;
use history_core::{Event, Txn};
use std::alloc::Global;

/// The event at the place.
fn event_at<'a>(survey: &Survey<'a>, place: usize) -> &'a Event
    requires { place < length survey.now.events.now }
    ensures { slice_get survey.now.events.now place ≡ Some result.now }
{
    &survey.events[place]
}

/// The first rival of the read: it writes a cell of it, is seen, and doesn't stand before its origin.
fn first_rival(survey: &Survey<'_>, scene: &Scene<'_>, read: &ReadAt<'_>) -> Option<u32>
    requires survey { IsSurvey survey.now }
    requires scene { IsScene survey.now scene.now }
    requires read { IsReadIn survey.now read.now }
    ensures number { IfSome result (IsNumber survey.now.events.now) }
    ensures is { IfSome result (IsRivalOf survey.now read.now) }
    ensures least { IfSome result (λ rival. (other : ℕ) → IsRivalOf survey.now read.now other → rival ≤ other) }
    ensures none { IfNone result ((other : ℕ) → ¬ IsRivalOf survey.now read.now other) }
{
    for at in 0..scene.txns.len() {
        let rival = at as u32 + 1;
        if is_rival(survey, scene, read, rival) {
            return Some(rival);
        }
    }
    None
}

/// What is told of the rival: its least cell.
fn axiom_of(
    alloc: Global,
    survey: &Survey<'_>,
    scene: &Scene<'_>,
    read: &ReadAt<'_>,
    rival: u32,
) -> Result<Unkept, Memory>
    requires survey { IsSurvey survey.now }
    requires scene { IsScene survey.now scene.now }
    requires read { IsReadIn survey.now read.now }
    requires number { IsNumber survey.now.events.now rival }
    requires rival { IsRivalOf survey.now read.now rival }
    ensures { IfOk result (IsAxiomOf survey.now.events.now survey.now.order.now read.now.place (origin_of read.now.event.now) rival read.now.reader) }
{
    let writer = txn_of(survey, scene.txns, rival);
    match rival_cell(read.event, writer) {
        Some(cell) => Ok(Unkept::Axiom {
            event: read.place as u32 + 1,
            origin: origin(read.event),
            rival,
            reader: read.reader,
            cell: cell.copy(alloc)?,
        }),
        None => unreachable!(),
    }
}

/// Whether it is clear from what is light that the order keeps what the read or scan asks, which is from the source.
fn read_is_reached(survey: &Survey<'_>, read: &ReadAt<'_>, source: u32) -> bool
    requires survey { IsSurvey survey.now }
    requires read { IsReadIn survey.now read.now }
    requires source { source ≡ origin_of read.now.event.now }
    ensures { IsTrue result → IsKeptAt survey.now.events.now survey.now.order.now read.now.place }
{
    if !stands_before(survey.places, source, read.reader) {
        return false;
    }
    is_reached(survey, read)
}

/// The same of the event at the place.
fn event_is_reached(survey: &Survey<'_>, place: usize) -> bool
    requires survey { IsSurvey survey.now }
    requires within { place < length survey.now.events.now }
    ensures { IsTrue result → IsKeptAt survey.now.events.now survey.now.order.now place }
{
    let event = event_at(survey, place);
    match source_of(event) {
        Some(source) => {
            let reader = survey.glance.owners[place];
            let read = ReadAt {
                place,
                event,
                reader,
            };
            read_is_reached(survey, &read, source)
        }
        None => true,
    }
}

/// The first event of which what is light doesn't show that the order keeps what it asks, or the end.
fn first_unreached(survey: &Survey<'_>) -> usize
    requires { IsSurvey survey.now }
    ensures within { result ≤ length survey.now.events.now }
    ensures kept { IsKeptBelow survey.now.events.now survey.now.order.now result }
{
    for place in 0..survey.events.len() {
        if !event_is_reached(survey, place) {
            return place;
        }
    }
    survey.events.len()
}

/// What is found of a read or a scan.
fn found_of(
    alloc: Global,
    survey: &Survey<'_>,
    scene: &Scene<'_>,
    read: &ReadAt<'_>,
) -> Result<Option<Unkept>, Memory>
    requires survey { IsSurvey survey.now }
    requires scene { IsScene survey.now scene.now }
    requires read { IsReadIn survey.now read.now }
    requires reading { IsReading read.now.event.now }
    ensures { IfOk result (IsFoundAt survey.now.events.now survey.now.order.now read.now.place) }
{
    let from = origin(read.event);
    if is_late(survey, from, read.reader) {
        return Ok(Some(Unkept::Read {
            event: read.place as u32 + 1,
            origin: from,
            reader: read.reader,
        }));
    }
    if is_clear(survey, scene, read) {
        return Ok(None);
    }
    match first_rival(survey, scene, read) {
        Some(rival) => {
            let axiom = axiom_of(alloc, survey, scene, read, rival)?;
            Ok(Some(axiom))
        }
        None => Ok(None),
    }
}

/// What is found of the event at the place.
fn found_at(
    alloc: Global,
    survey: &Survey<'_>,
    scene: &Scene<'_>,
    place: usize,
) -> Result<Option<Unkept>, Memory>
    requires survey { IsSurvey survey.now }
    requires scene { IsScene survey.now scene.now }
    requires within { place < length survey.now.events.now }
    ensures { IfOk result (IsFoundAt survey.now.events.now survey.now.order.now place) }
{
    let event = event_at(survey, place);
    if !is_reading(event) {
        return Ok(None);
    }
    let reader = survey.glance.owners[place];
    let read = ReadAt {
        place,
        event,
        reader,
    };
    found_of(alloc, survey, scene, &read)
}

/// Whether the order keeps what the read or scan asks.
fn read_is_kept(survey: &Survey<'_>, scene: &Scene<'_>, read: &ReadAt<'_>) -> bool
    requires survey { IsSurvey survey.now }
    requires scene { IsScene survey.now scene.now }
    requires read { IsReadIn survey.now read.now }
    requires reading { IsReading read.now.event.now }
    ensures { IsTrue result ↔ IsKeptAt survey.now.events.now survey.now.order.now read.now.place }
{
    let from = origin(read.event);
    if is_late(survey, from, read.reader) {
        return false;
    }
    if is_clear(survey, scene, read) {
        return true;
    }
    match first_rival(survey, scene, read) {
        Some(_rival) => false,
        None => true,
    }
}

/// Whether the order keeps what the event at the place asks.
pub fn event_is_kept(survey: &Survey<'_>, scene: &Scene<'_>, place: usize) -> bool
    requires survey { IsSurvey survey.now }
    requires scene { IsScene survey.now scene.now }
    requires within { place < length survey.now.events.now }
    ensures { IsTrue result ↔ IsKeptAt survey.now.events.now survey.now.order.now place }
{
    let event = event_at(survey, place);
    if !is_reading(event) {
        return true;
    }
    let reader = survey.glance.owners[place];
    let read = ReadAt {
        place,
        event,
        reader,
    };
    read_is_kept(survey, scene, &read)
}

/// The first of the events of which the order doesn't keep what it asks. It keeps what those before the start ask.
fn found_among(
    alloc: Global,
    survey: &Survey<'_>,
    scene: &Scene<'_>,
    start: usize,
) -> Result<Option<Unkept>, Memory>
    requires survey { IsSurvey survey.now }
    requires scene { IsScene survey.now scene.now }
    requires kept { IsKeptBelow survey.now.events.now survey.now.order.now start }
    ensures { IfOk result (IsFoundAmong survey.now.events.now survey.now.order.now) }
{
    for place in start..survey.events.len() {
        match found_at(alloc, survey, scene, place)? {
            Some(unkept) => return Ok(Some(unkept)),
            None => {}
        }
    }
    Ok(None)
}

/// The same, from the place on at which the walk ended.
fn found_by_walk<W: EventWalk>(
    alloc: Global,
    walk: &W,
    survey: &Survey<'_>,
    scene: &Scene<'_>,
    start: usize,
) -> Result<Option<Unkept>, Memory>
    requires survey { IsSurvey survey.now }
    requires scene { IsScene survey.now scene.now }
    requires kept { IsKeptBelow survey.now.events.now survey.now.order.now start }
    ensures { IfOk result (IsFoundAmong survey.now.events.now survey.now.order.now) }
{
    let first = walk.kept_up_to(survey, scene, start);
    found_among(alloc, survey, scene, first)
}

/// The least pair that session order has, and the order hasn't. It is looked for only where the order may not keep session order.
fn session_breach(survey: &Survey<'_>, txns: &[Txn]) -> Option<(u32, u32)>
    requires survey { IsSurvey survey.now }
    requires txns { StandsForTxns survey.now.events.now txns.now }
    ensures some { IfSome result (λ pair. IsFirstOutOfSession survey.now.events.now survey.now.order.now pair.0 pair.1) }
    ensures none { IfNone result (KeepsSessions survey.now.events.now survey.now.order.now) }
{
    if survey.glance.keeps {
        return None;
    }
    first_out_of_session(survey, txns)
}

/// The first of the events of which the order, which keeps session order, doesn't keep what it asks. It keeps what those before the start ask.
fn found_after<W: EventWalk>(
    alloc: Global,
    walk: &W,
    survey: &Survey<'_>,
    txns: &[Txn],
    start: usize,
) -> Result<Option<Unkept>, Memory>
    requires survey { IsSurvey survey.now }
    requires txns { StandsForTxns survey.now.events.now txns.now }
    requires sessions { KeepsSessions survey.now.events.now survey.now.order.now }
    requires kept { IsKeptBelow survey.now.events.now survey.now.order.now start }
    ensures { IfOk result (IsFoundAmong survey.now.events.now survey.now.order.now) }
{
    let width = survey.glance.last.len();
    let pasts = pasts_of(alloc, survey.events, &survey.glance.owners, width)?;
    let lists = lists_of(alloc, txns, width)?;
    let scene = Scene {
        txns,
        pasts: &pasts,
        lists: &lists,
    };
    found_by_walk(alloc, walk, survey, &scene, start)
}

/// The first that the order doesn't keep, by the records of the transactions. It keeps what the events before the start ask.
fn found_by_records<W: EventWalk>(
    alloc: Global,
    walk: &W,
    survey: &Survey<'_>,
    start: usize,
) -> Result<Option<Unkept>, Memory>
    requires survey { IsSurvey survey.now }
    requires owned { AreOwned survey.now.events.now }
    requires kept { IsKeptBelow survey.now.events.now survey.now.order.now start }
    ensures { IfOk result (IsFoundOfOrder survey.now.events.now survey.now.order.now) }
{
    let txns = txns_of(alloc, survey.events, &survey.glance.owners)?;
    match session_breach(survey, &txns) {
        Some((earlier, later)) => Ok(Some(Unkept::Session { earlier, later })),
        None => found_after(alloc, walk, survey, &txns, start),
    }
}

/// Whether the order keeps session order and what all events ask.
fn is_over(survey: &Survey<'_>, start: usize) -> bool
    ensures { IsTrue result → IsTrue survey.now.glance.now.keeps × (start ≡ length survey.now.events.now) }
{
    survey.glance.keeps && start == survey.events.len()
}

/// The first that the order doesn't keep, where it holds each transaction once and the initial one first. The records of the transactions are made
/// only where the order isn't clear from what is light.
fn found_by_glance<'a, W: EventWalk>(
    alloc: Global,
    walk: &W,
    events: &'a [Event],
    order: &'a [u32],
    places: &'a Places,
    cells: &'a CellNotes,
    glance: &'a Glance,
) -> Result<Option<Unkept>, Memory>
    requires holds { HoldsTransactions events.now order.now }
    requires places { ArePlaces (begun events.now + 1) order.now places.now.at.items }
    requires orderly { IsOrderly events.now }
    requires owned { AreOwned events.now }
    requires writers { AreWriters events.now cells.now }
    requires glance { IsGlance events.now order.now glance.now }
    requires few { length events.now < 4294967296 }
    ensures { IfOk result (IsFoundOfOrder events.now order.now) }
{
    let reaches = reaches_of(alloc, cells, places, glance.scans)?;
    let survey = Survey {
        events,
        order,
        places,
        cells,
        glance,
        reaches: &reaches,
    };
    let start = first_unreached(&survey);
    if is_over(&survey, start) {
        return Ok(None);
    }
    found_by_records(alloc, walk, &survey, start)
}

/// Whether the order has as many numbers as there are transactions, the initial one among them.
fn has_as_many(glance: &Glance, order: &[u32]) -> bool
    ensures { IsTrue result ↔ (length glance.now.limits.items ≡ length order.now) }
{
    glance.limits.len() == order.len()
}

/// The first that the order doesn't keep, where it holds each number below its own length once and 0 first.
fn found_in<W: EventWalk>(
    alloc: Global,
    walk: &W,
    events: &[Event],
    order: &[u32],
    places: &Places,
    cells: &CellNotes,
) -> Result<Option<Unkept>, Memory>
    requires holds { HoldsAll (length order.now) order.now }
    requires places { ArePlaces (length order.now) order.now places.now.at.items }
    requires orderly { IsOrderly events.now }
    requires owned { AreOwned events.now }
    requires writers { AreWriters events.now cells.now }
    requires few { length events.now < 4294967296 }
    ensures { IfOk result (IsFoundOfOrder events.now order.now) }
{
    let glance = glance_of(alloc, events, order, places)?;
    if !has_as_many(&glance, order) {
        return Ok(Some(Unkept::Order));
    }
    found_by_glance(alloc, walk, events, order, places, cells, &glance)
}

/// The first that the order doesn't keep of the history: that it holds each transaction once and the initial one first, the order of each
/// session, and then what each read or scan asks, event by event. `None` where the order meets the history. At each cell the writers are those
/// transactions that have committed and wrote it, and each event has to come as the state of its session allows.
pub fn first_unkept(
    alloc: Global,
    events: &[Event],
    cells: &CellNotes,
    order: &[u32],
) -> Result<Option<Unkept>, Memory>
    requires orderly { IsOrderly events.now }
    requires owned { AreOwned events.now }
    requires writers { AreWriters events.now cells.now }
    requires few { length events.now < 4294967296 }
    ensures { IfOk result (IsFoundOfOrder events.now order.now) }
{
    first_unkept_by(alloc, &InTurn, events, cells, order)
}

/// The same, where the walk goes over the events before they are judged one after another.
pub fn first_unkept_by<W: EventWalk>(
    alloc: Global,
    walk: &W,
    events: &[Event],
    cells: &CellNotes,
    order: &[u32],
) -> Result<Option<Unkept>, Memory>
    requires orderly { IsOrderly events.now }
    requires owned { AreOwned events.now }
    requires writers { AreWriters events.now cells.now }
    requires few { length events.now < 4294967296 }
    ensures { IfOk result (IsFoundOfOrder events.now order.now) }
{
    match places_of(alloc, order)? {
        Some(places) => found_in(alloc, walk, events, order, &places, cells),
        None => Ok(Some(Unkept::Order)),
    }
}
