// The strongest level that a history meets.
ghost use Rattle.std.specs.Prelude.{◌≡◌, ◌<◌, ◌+◌, [], IfOk, OnOk, length};
ghost use Rattle.history_core.specs.Events.{begun};
ghost use Rattle.history_core.specs.Kept.{StandsForTxns};
ghost use Rattle.saturation.specs.Pairs.{AddsPairs};
ghost use Rattle.order_test.specs.Settled.{IsOrderly, AreOwned};
ghost use Rattle.order_test.specs.Glance.{AreOwners};
ghost use Rattle.history_check.specs.Breaches.{AreRight, IsFirstEventBreach, IfBreach};
ghost use Rattle.cycle_report.specs.Reasons.{IsNext};
ghost use Rattle.cycle_report.specs.Pasts.{ArePasts};
ghost use Rattle.cycle_report.specs.Listed.{ListWriters};
ghost use Rattle.cycle_report.specs.Spans.{AreSpans};
ghost use Rattle.cycle_report.specs.Views.{IsView};
ghost use Rattle.cycle_report.specs.Judged.{IsCycleAt, IsJudged};

use crate::levels::{Found, found_at};
use crate::listed::writers_of;
use crate::owners::owners_of;
use crate::pairs::links_of;
use crate::pasts::{Pasts, pasts_of};
use crate::records::txns_of;
use crate::spans::{Span, spans_of};
use crate::view::View;
use crate::{Judgement, Step};
use cell_base::{Level, Memory};
use cell_writers::CellWriters;
use graph_base::Edge;
use history_check::{CheckFault, check_events};
use history_core::{Event, Txn};
use history_log::Trace;
use std::alloc::Global;

/// So many events are refused as out of memory, since their transactions may be as many.
const MOST_EVENTS: usize = 4_294_967_295;

/// The judgement of a history that misses Read Atomic, as the cycle shows.
fn below_ra(
    alloc: Global,
    view: &View<'_>,
    spans: &[Span],
    links: &[Edge],
    cycle: Vec<Step>,
) -> Result<Judgement, Memory>
    requires view { IsView view.now }
    requires spans { AreSpans view.now.events.now (begun view.now.events.now + 1) spans.now }
    requires links { AddsPairs (IsNext view.now.events.now) [] links.now }
    requires cycle { IsCycleAt Level.Ra view.now.events.now cycle.items }
    ensures { IfOk result (IsJudged view.now.events.now) }
{
    match found_at(alloc, view, spans, links, Level::Rc) {
        Ok(Found::Order(order)) => Ok(Judgement::Upto(Level::Rc, order, cycle)),
        Ok(Found::Cycle(own)) => Ok(Judgement::Nothing(own)),
        Err(memory) => Err(memory),
    }
}

/// The judgement of a history that misses Causal Consistency, as the cycle shows.
fn below_cc(
    alloc: Global,
    view: &View<'_>,
    spans: &[Span],
    links: &[Edge],
    cycle: Vec<Step>,
) -> Result<Judgement, Memory>
    requires view { IsView view.now }
    requires spans { AreSpans view.now.events.now (begun view.now.events.now + 1) spans.now }
    requires links { AddsPairs (IsNext view.now.events.now) [] links.now }
    requires cycle { IsCycleAt Level.Cc view.now.events.now cycle.items }
    ensures { IfOk result (IsJudged view.now.events.now) }
{
    match found_at(alloc, view, spans, links, Level::Ra) {
        Ok(Found::Order(order)) => Ok(Judgement::Upto(Level::Ra, order, cycle)),
        Ok(Found::Cycle(own)) => below_ra(alloc, view, spans, links, own),
        Err(memory) => Err(memory),
    }
}

/// The judgement of a history, by what was made of it.
fn judge_view(
    alloc: Global,
    view: &View<'_>,
    spans: &[Span],
    links: &[Edge],
) -> Result<Judgement, Memory>
    requires view { IsView view.now }
    requires spans { AreSpans view.now.events.now (begun view.now.events.now + 1) spans.now }
    requires links { AddsPairs (IsNext view.now.events.now) [] links.now }
    ensures { IfOk result (IsJudged view.now.events.now) }
{
    match found_at(alloc, view, spans, links, Level::Cc) {
        Ok(Found::Order(order)) => Ok(Judgement::Top(order)),
        Ok(Found::Cycle(cycle)) => below_cc(alloc, view, spans, links, cycle),
        Err(memory) => Err(memory),
    }
}

/// The same, whose spans are made first.
fn judge_spanned(alloc: Global, view: &View<'_>, links: &[Edge]) -> Result<Judgement, Memory>
    requires view { IsView view.now }
    requires links { AddsPairs (IsNext view.now.events.now) [] links.now }
    ensures { IfOk result (IsJudged view.now.events.now) }
{
    let spans = spans_of(alloc, view)?;
    judge_view(alloc, view, &spans, links)
}

/// The judgement of few events, by what was made of them.
fn judge_made(
    alloc: Global,
    events: &[Event],
    owners: &[u32],
    txns: &[Txn],
    pasts: &Pasts,
    writers: &CellWriters,
) -> Result<Judgement, Memory>
    requires orderly { IsOrderly events.now }
    requires few { length events.now < 4294967295 }
    requires owners { AreOwners events.now owners.now }
    requires txns { StandsForTxns events.now txns.now }
    requires pasts { ArePasts events.now pasts.now }
    requires writers { ListWriters txns.now (length txns.now) writers.now }
    ensures { IfOk result (IsJudged events.now) }
{
    let links = links_of(alloc, events, owners)?;
    let view = View {
        events,
        owners,
        txns,
        pasts,
        writers,
    };
    judge_spanned(alloc, &view, &links)
}

/// The judgement of few events that each come as the state of their sessions allows.
fn judge_few(alloc: Global, events: &[Event]) -> Result<Judgement, Memory>
    requires orderly { IsOrderly events.now }
    requires owned { AreOwned events.now }
    requires few { length events.now < 4294967295 }
    ensures { IfOk result (IsJudged events.now) }
{
    let owners = owners_of(alloc, events)?;
    let width = owners.last.len();
    let txns = txns_of(alloc, events, &owners.of_events)?;
    let pasts = pasts_of(alloc, events, &owners.of_events, width)?;
    let writers = writers_of(alloc, &txns)?;
    judge_made(alloc, events, &owners.of_events, &txns, &pasts, &writers)
}

/// The judgement of events that each come as the state of their sessions allows.
fn judge_events(alloc: Global, events: &[Event]) -> Result<Judgement, Memory>
    requires orderly { IsOrderly events.now }
    requires owned { AreOwned events.now }
    ensures { IfOk result (IsJudged events.now) }
{
    if events.len() >= MOST_EVENTS {
        return Err(Memory);
    }
    judge_few(alloc, events)
}

/// Judges the history of a trace, whatever its order and whatever levels its transactions name: the strongest level that it meets where all
/// transactions run at it, with the least commit order, and a cycle of pairs, each with its reason, that shows why it misses the next level. Where
/// the events aren't right the breach is that of `check_events`. A history of 4,294,967,295 events is refused as out of memory.
pub fn judge(alloc: Global, trace: &Trace) -> Result<Judgement, CheckFault>
    requires few { length trace.now.events < 4294967296 }
    ensures right { OnOk result (AreRight trace.now.initial trace.now.events) }
    ensures judged { IfOk result (IsJudged trace.now.events) }
    ensures breach { IfBreach result (IsFirstEventBreach trace.now.initial trace.now.events) }
{
    match check_events(alloc, trace) {
        Ok(()) => match judge_events(alloc, trace.events.as_slice()) {
            Ok(judgement) => Ok(judgement),
            Err(_memory) => Err(CheckFault::Memory),
        },
        Err(fault) => Err(fault),
    }
}
