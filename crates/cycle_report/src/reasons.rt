// The first reason of a pair that is listed.
ghost use Rattle.std.specs.Prelude.{◌≡◌, ◌<◌, ◌↔◌, [], ℕ, Any, IsTrue, IfOk, IfSome, IfNone, Some, length, slice_get};
ghost use Rattle.saturation.specs.Pairs.{AddsPairs};
ghost use Rattle.order_test.specs.Sights.{IsNumber, IsReading, origin_of};
ghost use Rattle.cycle_report.specs.Reasons.{IsNext, IsReadFromAt, IsReasonOf};
ghost use Rattle.cycle_report.specs.Views.{IsView, DemandsAt, IsListed};
ghost use Rattle.cycle_report.specs.Firsts.{IsFirstDemanding, IsFirstRead};

use crate::Reason;
use crate::demands::{demand_at, event_at};
use crate::rivals::source_of;
use crate::view::{View, reader_at};
use cell_base::{Cell, Level, Memory};
use graph_base::Edge;
use history_core::Event;
use std::alloc::Global;

/// Whether the edges have this one.
fn has_edge(edges: &[Edge], first: u32, second: u32) -> bool
    ensures { IsTrue result ↔ Any (λ e. (e.before ≡ first) × (e.after ≡ second)) edges.now }
{
    edges
        .iter()
        .any(|edge| edge.before == first && edge.after == second)
}

/// Whether the two are neighbours in a session.
fn is_link(view: &View<'_>, links: &[Edge], first: u32, second: u32) -> bool
    requires { AddsPairs (IsNext view.now.events.now) [] links.now }
    ensures { IsTrue result ↔ IsNext view.now.events.now first second }
{
    has_edge(links, first, second)
}

/// Whether the reader reads from the source by the event at the place.
fn reads_at(view: &View<'_>, place: usize, source: u32, reader: u32) -> bool
    requires view { IsView view.now }
    requires place { place < length view.now.events.now }
    ensures { IsTrue result ↔ IsReadFromAt view.now.events.now place source reader }
{
    let event = event_at(view, place);
    match source_of(event) {
        Some(from) => is_read(view, place, event, from, source, reader),
        None => false,
    }
}

/// Whether the read or scan at the place, which is from this transaction, is one of the reader from the source.
fn is_read(
    view: &View<'_>,
    place: usize,
    event: &Event,
    from: u32,
    source: u32,
    reader: u32,
) -> bool
    requires view { IsView view.now }
    requires is { slice_get view.now.events.now place ≡ Some event.now }
    requires reading { IsReading event.now }
    requires from { from ≡ origin_of event.now }
    ensures { IsTrue result ↔ IsReadFromAt view.now.events.now place source reader }
{
    if from != source {
        return false;
    }
    let own = reader_at(view, place, event);
    own == reader
}

/// The number of the first event by which the reader reads from the source.
fn first_read(view: &View<'_>, source: u32, reader: u32) -> Option<u32>
    requires { IsView view.now }
    ensures some { IfSome result (IsFirstRead view.now.events.now source reader) }
    ensures none { IfNone result ((place : ℕ) → ¬ IsReadFromAt view.now.events.now place source reader) }
{
    for place in 0..view.events.len() {
        if reads_at(view, place, source, reader) {
            return Some(place as u32 + 1);
        }
    }
    None
}

/// The first event that demands the pair: its place, and the least cell.
fn first_demand<'a>(
    view: &View<'a>,
    level: Level,
    first: u32,
    second: u32,
) -> Option<(usize, &'a Cell)>
    requires view { IsView view.now }
    requires first { IsNumber view.now.events.now first }
    ensures within { IfSome result (λ found. found.0 < length view.now.events.now) }
    ensures some { IfSome result (λ found. IsFirstDemanding level view.now.events.now first second found.0 found.1.now) }
    ensures none { IfNone result ((place : ℕ) → ¬ DemandsAt level view.now.events.now place first second) }
{
    for place in 0..view.events.len() {
        match demand_at(view, level, place, first, second) {
            Some(cell) => return Some((place, cell)),
            None => {}
        }
    }
    None
}

/// The reason of a pair of which the transactions are no neighbours in a session, and the second doesn't read from the first.
fn axiom_of(
    alloc: Global,
    view: &View<'_>,
    level: Level,
    first: u32,
    second: u32,
) -> Result<Reason, Memory>
    requires view { IsView view.now }
    requires apart { ¬ IsNext view.now.events.now first second }
    requires unread { (place : ℕ) → ¬ IsReadFromAt view.now.events.now place first second }
    requires listed { IsListed level view.now.events.now first second }
    ensures { IfOk result (IsReasonOf level view.now.events.now first second) }
{
    match first_demand(view, level, first, second) {
        Some(found) => {
            let cell = found.1.copy(alloc)?;
            Ok(Reason::Axiom(found.0 as u32 + 1, cell))
        }
        None => unreachable!(),
    }
}

/// The reason of a pair that is listed.
pub fn reason_of(
    alloc: Global,
    view: &View<'_>,
    links: &[Edge],
    level: Level,
    first: u32,
    second: u32,
) -> Result<Reason, Memory>
    requires view { IsView view.now }
    requires links { AddsPairs (IsNext view.now.events.now) [] links.now }
    requires listed { IsListed level view.now.events.now first second }
    ensures { IfOk result (IsReasonOf level view.now.events.now first second) }
{
    if is_link(view, links, first, second) {
        return Ok(Reason::SessionOrder);
    }
    match first_read(view, first, second) {
        Some(event) => Ok(Reason::Read(event)),
        None => axiom_of(alloc, view, level, first, second),
    }
}
