// Two numbers of each transaction that tell much of its causal past.
ghost use Rattle.std.specs.Prelude.{◌≡◌, ◌≤◌, ◌<◌, ◌+◌, ℕ, Some, IfOk, length, slice_get, slice_index};
ghost use Rattle.history_core.specs.Events.{begun};
ghost use Rattle.cycle_report.specs.Views.{IsView};
ghost use Rattle.cycle_report.specs.Pasts.{IsPastOf};
ghost use Rattle.cycle_report.specs.Spans.{IsFloor, IsTop, IsSpanOf, AreSpans};

use crate::pasts::Past;
use crate::sight::{past_of, precedes_causally, top_of};
use crate::view::View;
use cell_base::Memory;
use std::alloc::Global;

/// What is in the causal past of a transaction at least, and at most.
#[derive(Clone, Copy, Debug)]
pub struct Span {
    /// All transactions up to this one, but for the initial one.
    pub floor: u32,
    /// None above this one.
    pub top: u32,
}

/// The greatest of the numbers, 0 where there is none.
fn greatest(numbers: &[u32]) -> u32
    ensures { (at : ℕ) → slice_index numbers.now at ≤ result }
{
    let mut top = 0;
    for at in 0..numbers.len() {
        top = top.max(numbers[at]);
    }
    top
}

/// How far all transactions are in the past of this one, given that they are up to the floor.
fn raised(view: &View<'_>, number: u32, floor: u32) -> u32
    requires view { IsView view.now }
    requires number { number ≤ begun view.now.events.now }
    requires floor { IsFloor view.now.events.now number floor }
    ensures { IsFloor view.now.events.now number result }
{
    let mut up = floor;
    while (up as usize) < view.txns.len() && precedes_causally(view, up + 1, number) {
        up += 1;
    }
    up
}

/// The span at the place.
fn span_in(spans: &[Span], place: usize) -> Span
    requires { place < length spans.now }
    ensures { slice_get spans.now place ≡ Some result }
{
    spans[place]
}

/// The floor of the last transaction of the session in the past, where its span is there; else 0.
fn floor_before(view: &View<'_>, spans: &[Span], past: &Past, number: u32) -> u32
    requires view { IsView view.now }
    requires number { number ≤ begun view.now.events.now }
    requires past { IsPastOf view.now.events.now view.now.pasts.now.width number past.now }
    requires spans { AreSpans view.now.events.now number spans.now }
    ensures { IsFloor view.now.events.now number result }
{
    let last = top_of(past, past.session as usize);
    if last == 0 || last as usize >= spans.len() {
        return 0;
    }
    if !precedes_causally(view, last, number) {
        return 0;
    }
    span_in(spans, last as usize).floor
}

/// The span of the transaction, where those of the ones before it are there.
fn span_of(view: &View<'_>, spans: &[Span], number: u32) -> Span
    requires view { IsView view.now }
    requires number { number ≤ begun view.now.events.now }
    requires spans { AreSpans view.now.events.now number spans.now }
    ensures { IsSpanOf view.now.events.now number result }
{
    let past = past_of(view.pasts, view.events, number);
    let floor = floor_before(view, spans, past, number);
    let top = greatest(&past.tops);
    Span {
        floor: raised(view, number, floor),
        top,
    }
}

/// The spans of all transactions.
pub fn spans_of(alloc: Global, view: &View<'_>) -> Result<Vec<Span>, Memory>
    requires { IsView view.now }
    ensures { IfOk result (λ spans. AreSpans view.now.events.now (begun view.now.events.now + 1) spans.items) }
{
    let mut spans = Vec::new(alloc);
    for at in 0..view.txns.len() + 1 {
        let span = span_of(view, &spans, at as u32);
        spans.push(span)?;
    }
    Ok(spans)
}

/// The span of the transaction.
pub fn span_at(_view: &View<'_>, spans: &[Span], number: u32) -> Span
    requires spans { AreSpans _view.now.events.now (begun _view.now.events.now + 1) spans.now }
    requires number { number ≤ begun _view.now.events.now }
    ensures { IsSpanOf _view.now.events.now number result }
{
    span_in(spans, number as usize)
}
