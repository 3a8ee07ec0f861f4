// What a read demands where all transactions run at one level.
ghost use Rattle.std.specs.Prelude.{◌≡◌, ◌<◌, IfSome, IfNone, Some, length, slice_get};
ghost use Rattle.order_test.specs.Sights.{IsNumber, IsReadAt, IsReading, origin_of};
ghost use Rattle.cycle_report.specs.Views.{IsView, DemandsAt};
ghost use Rattle.cycle_report.specs.Firsts.{IsFirstDemand};

use crate::rivals::{is_committed, origin, rival_cell, source_of};
use crate::sight::sees;
use crate::view::{View, reader_at, txn_of};
use cell_base::{Cell, Level};
use history_core::Event;

/// The least cell by which the read at the place, of this reader, demands the writer before its source.
pub fn demanded_cell<'a>(
    view: &View<'a>,
    level: Level,
    place: usize,
    event: &'a Event,
    reader: u32,
    writer: u32,
) -> Option<&'a Cell>
    requires view { IsView view.now }
    requires read { IsReadAt view.now.events.now place event.now reader }
    requires writer { IsNumber view.now.events.now writer }
    ensures some { IfSome result (λ cell. IsFirstDemand level view.now.events.now place cell.now writer (origin_of event.now)) }
    ensures none { IfNone result (¬ DemandsAt level view.now.events.now place writer (origin_of event.now)) }
{
    let from = origin(event);
    if writer == from {
        return None;
    }
    let txn = txn_of(view, writer);
    if !is_committed(txn) {
        return None;
    }
    if !sees(view, level, place, reader, writer) {
        return None;
    }
    rival_cell(event, txn)
}

/// The event at the place.
pub fn event_at<'a>(view: &View<'a>, place: usize) -> &'a Event
    requires { place < length view.now.events.now }
    ensures { slice_get view.now.events.now place ≡ Some result.now }
{
    &view.events[place]
}

/// The least cell by which the event at the place demands the first before the second.
pub fn demand_at<'a>(
    view: &View<'a>,
    level: Level,
    place: usize,
    first: u32,
    second: u32,
) -> Option<&'a Cell>
    requires view { IsView view.now }
    requires place { place < length view.now.events.now }
    requires first { IsNumber view.now.events.now first }
    ensures some { IfSome result (λ cell. IsFirstDemand level view.now.events.now place cell.now first second) }
    ensures none { IfNone result (¬ DemandsAt level view.now.events.now place first second) }
{
    let event = event_at(view, place);
    match source_of(event) {
        Some(source) => demand_from(view, level, place, event, source, first, second),
        None => None,
    }
}

/// The same of a read or a scan from this source.
fn demand_from<'a>(
    view: &View<'a>,
    level: Level,
    place: usize,
    event: &'a Event,
    source: u32,
    first: u32,
    second: u32,
) -> Option<&'a Cell>
    requires view { IsView view.now }
    requires is { slice_get view.now.events.now place ≡ Some event.now }
    requires reading { IsReading event.now }
    requires source { source ≡ origin_of event.now }
    requires first { IsNumber view.now.events.now first }
    ensures some { IfSome result (λ cell. IsFirstDemand level view.now.events.now place cell.now first second) }
    ensures none { IfNone result (¬ DemandsAt level view.now.events.now place first second) }
{
    if source != second {
        return None;
    }
    let reader = reader_at(view, place, event);
    demanded_cell(view, level, place, event, reader, first)
}
