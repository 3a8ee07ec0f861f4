// The pairs that a history asks of each commit order where all its transactions run at one level.
ghost use Rattle.std.specs.Prelude.{◌≡◌, ◌<◌, ◌+◌, [], ℕ, Contains, IfOk, OnOk, Some, length, slice_get, take};
ghost use Rattle.std.specs.List.Sorted.{IsStrictlyIncreasing};
ghost use Rattle.history_core.specs.Events.{begun, session_in};
ghost use Rattle.further_reads.specs.Begun.{IsLastBegun};
ghost use Rattle.history_core.specs.Forced.{IsPairList};
ghost use Rattle.saturation.specs.Pairs.{AddsPairs};
ghost use Rattle.order_test.specs.Glance.{AreOwners};
ghost use Rattle.order_test.specs.Sights.{IsNumber, IsReadAt, IsReading, origin_of};
ghost use Rattle.cycle_report.specs.Reasons.{IsNext};
ghost use Rattle.cycle_report.specs.Spans.{IsFloor, IsTop, AreSpans};
ghost use Rattle.cycle_report.specs.Views.{IsView, IsNews, IsListedAt, IsListedBelow, IsListed, IsNextAt};

use crate::demands::{demanded_cell, event_at};
use crate::edges::copy_edges;
use crate::listed::{first_from, number_at};
use crate::owners::is_begin;
use crate::rivals::{origin, source_of};
use crate::sight::precedes_causally;
use crate::spans::{Span, span_at};
use crate::view::{View, reader_at};
use cell_base::{Level, Memory};
use cell_writers::writers_at;
use graph_base::{Edge, Graph};
use history_core::Event;
use std::alloc::Global;

/// Adds one pair.
fn add_edge(edges: &mut Vec<Edge>, before: u32, after: u32) -> Result<(), Memory>
    ensures { OnOk result (AddsPairs (λ a b. (a ≡ before) × (b ≡ after)) edges.old.items edges.new.items) }
{
    edges.push(Edge { before, after })?;
    Ok(())
}

/// The number of the next transaction, after so many.
fn next_number(so_far: u32, events: &[Event], place: usize) -> u32
    requires place { place < length events.now }
    requires few { length events.now < 4294967296 }
    requires count { so_far ≡ begun (take place events.now) }
    ensures { result ≡ so_far + 1 }
{
    so_far + 1
}

/// Adds the neighbours in a session whose second one begins by the event, if one does; so many have begun before. How many have begun then.
fn add_link(
    edges: &mut Vec<Edge>,
    events: &[Event],
    place: usize,
    event: &Event,
    owner: u32,
    so_far: u32,
) -> Result<u32, Memory>
    requires is { slice_get events.now place ≡ Some event.now }
    requires place { place < length events.now }
    requires few { length events.now < 4294967296 }
    requires owner { IsLastBegun (take place events.now) (session_in event.now) owner }
    requires count { so_far ≡ begun (take place events.now) }
    ensures count { IfOk result (λ count. count ≡ begun (take (place + 1) events.now)) }
    ensures pairs { OnOk result (AddsPairs (IsNextAt events.now place) edges.old.items edges.new.items) }
{
    if !is_begin(event) {
        return Ok(so_far);
    }
    let number = next_number(so_far, events, place);
    add_edge(edges, owner, number)?;
    Ok(number)
}

/// The neighbours in sessions, the initial transaction and the first of each session among them.
pub fn links_of(alloc: Global, events: &[Event], owners: &[u32]) -> Result<Vec<Edge>, Memory>
    requires owners { AreOwners events.now owners.now }
    requires few { length events.now < 4294967296 }
    ensures { IfOk result (λ links. AddsPairs (IsNext events.now) [] links.items) }
{
    let mut links = Vec::new(alloc);
    let mut begun = 0;
    for place in 0..events.len() {
        let next = add_link(
            &mut links,
            events,
            place,
            &events[place],
            owners[place],
            begun,
        )?;
        begun = next;
    }
    Ok(links)
}

/// Adds the pair of the writer and the source of the read, where the read demands it and it is news.
fn add_demand(
    view: &View<'_>,
    level: Level,
    place: usize,
    event: &Event,
    reader: u32,
    writer: u32,
    edges: &mut Vec<Edge>,
) -> Result<(), Memory>
    requires view { IsView view.now }
    requires read { IsReadAt view.now.events.now place event.now reader }
    requires writer { IsNumber view.now.events.now writer }
    ensures { OnOk result (AddsPairs (λ a b. (a ≡ writer) × ((b ≡ origin_of event.now) × IsNews level view.now.events.now place a b)) edges.old.items edges.new.items) }
{
    if precedes_causally(view, writer, origin(event)) {
        return Ok(());
    }
    if demanded_cell(view, level, place, event, reader, writer).is_none() {
        return Ok(());
    }
    add_edge(edges, writer, origin(event))
}

/// Adds what the read demands of all transactions.
fn add_demands(
    view: &View<'_>,
    level: Level,
    place: usize,
    event: &Event,
    reader: u32,
    edges: &mut Vec<Edge>,
) -> Result<(), Memory>
    requires view { IsView view.now }
    requires read { IsReadAt view.now.events.now place event.now reader }
    ensures { OnOk result (AddsPairs (IsNews level view.now.events.now place) edges.old.items edges.new.items) }
{
    for at in 0..view.txns.len() {
        let writer = at as u32 + 1;
        add_demand(view, level, place, event, reader, writer, edges)?;
    }
    Ok(())
}

/// Adds what the read demands of these transactions, where it demands nothing of others. Those up to the floor are in the past of its source, and
/// those above the top aren't in that of the reader.
fn add_among(
    view: &View<'_>,
    level: Level,
    place: usize,
    event: &Event,
    reader: u32,
    numbers: &[u32],
    floor: u32,
    top: u32,
    edges: &mut Vec<Edge>,
) -> Result<(), Memory>
    requires view { IsView view.now }
    requires read { IsReadAt view.now.events.now place event.now reader }
    requires ascending { IsStrictlyIncreasing numbers.now }
    requires floor { IsFloor view.now.events.now (origin_of event.now) floor }
    requires top { IsTop view.now.events.now reader top }
    requires numbers { (number : ℕ) → Contains numbers.now number → IsNumber view.now.events.now number }
    requires whole { (first second : ℕ) → IsNews level view.now.events.now place first second → Contains numbers.now first }
    ensures { OnOk result (AddsPairs (IsNews level view.now.events.now place) edges.old.items edges.new.items) }
{
    let from = first_from(numbers, floor);
    for at in from..numbers.len() {
        let writer = number_at(numbers, at);
        if writer > top {
            return Ok(());
        }
        add_demand(view, level, place, event, reader, writer, edges)?;
    }
    Ok(())
}

/// Adds what the read or scan demands. Of a read no transactions are looked at but the committed writers of its cell.
fn add_asked(
    view: &View<'_>,
    spans: &[Span],
    level: Level,
    place: usize,
    event: &Event,
    reader: u32,
    edges: &mut Vec<Edge>,
) -> Result<(), Memory>
    requires view { IsView view.now }
    requires spans { AreSpans view.now.events.now (begun view.now.events.now + 1) spans.now }
    requires read { IsReadAt view.now.events.now place event.now reader }
    ensures { OnOk result (AddsPairs (IsNews level view.now.events.now place) edges.old.items edges.new.items) }
{
    match event {
        Event::Read { cell, .. } => {
            let numbers = writers_at(view.writers, cell);
            let floor = span_at(view, spans, origin(event)).floor;
            let top = span_at(view, spans, reader).top;
            add_among(
                view, level, place, event, reader, numbers, floor, top, edges,
            )
        }
        _ => add_demands(view, level, place, event, reader, edges),
    }
}

/// Adds the pair of the source and the reader, and what the read demands.
fn add_read(
    view: &View<'_>,
    spans: &[Span],
    level: Level,
    place: usize,
    event: &Event,
    source: u32,
    edges: &mut Vec<Edge>,
) -> Result<(), Memory>
    requires view { IsView view.now }
    requires spans { AreSpans view.now.events.now (begun view.now.events.now + 1) spans.now }
    requires is { slice_get view.now.events.now place ≡ Some event.now }
    requires reading { IsReading event.now }
    requires source { source ≡ origin_of event.now }
    ensures { OnOk result (AddsPairs (IsListedAt level view.now.events.now place) edges.old.items edges.new.items) }
{
    let reader = reader_at(view, place, event);
    add_edge(edges, source, reader)?;
    add_asked(view, spans, level, place, event, reader, edges)
}

/// Adds the pairs of the event at the place.
fn add_event(
    view: &View<'_>,
    spans: &[Span],
    level: Level,
    place: usize,
    edges: &mut Vec<Edge>,
) -> Result<(), Memory>
    requires view { IsView view.now }
    requires spans { AreSpans view.now.events.now (begun view.now.events.now + 1) spans.now }
    requires place { place < length view.now.events.now }
    ensures { OnOk result (AddsPairs (IsListedAt level view.now.events.now place) edges.old.items edges.new.items) }
{
    let event = event_at(view, place);
    match source_of(event) {
        Some(source) => add_read(view, spans, level, place, event, source, edges),
        None => Ok(()),
    }
}

/// Adds the pairs of all events.
fn add_events(
    view: &View<'_>,
    spans: &[Span],
    level: Level,
    edges: &mut Vec<Edge>,
) -> Result<(), Memory>
    requires view { IsView view.now }
    requires spans { AreSpans view.now.events.now (begun view.now.events.now + 1) spans.now }
    ensures { OnOk result (AddsPairs (IsListedBelow level view.now.events.now (length view.now.events.now)) edges.old.items edges.new.items) }
{
    for place in 0..view.events.len() {
        add_event(view, spans, level, place, edges)?;
    }
    Ok(())
}

/// The pairs that are listed where all transactions run at the level: the neighbours in sessions and the pairs of all events.
pub fn pairs_of(
    alloc: Global,
    view: &View<'_>,
    spans: &[Span],
    links: &[Edge],
    level: Level,
) -> Result<Graph, Memory>
    requires view { IsView view.now }
    requires spans { AreSpans view.now.events.now (begun view.now.events.now + 1) spans.now }
    requires links { AddsPairs (IsNext view.now.events.now) [] links.now }
    ensures size { IfOk result (λ graph. graph.size ≡ begun view.now.events.now + 1) }
    ensures pairs { IfOk result (λ graph. IsPairList (IsListed level view.now.events.now) (begun view.now.events.now + 1) graph.edges.items) }
{
    let mut edges = copy_edges(alloc, links)?;
    add_events(view, spans, level, &mut edges)?;
    let size = view.txns.len() as u32 + 1;
    Ok(Graph { size, edges })
}
