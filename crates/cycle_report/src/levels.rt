// The order or the cycle of a history at one level.
ghost use Rattle.std.specs.Prelude.{◌≡◌, ◌+◌, [], Contains, IfOk};
ghost use Rattle.graph_base.specs.declared.Edge.{Edge as EdgeOf};
ghost use Rattle.graph_base.specs.Walk.{IsCycle};
ghost use Rattle.history_core.specs.Events.{begun};
ghost use Rattle.history_core.specs.Forced.{IsPairList};
ghost use Rattle.saturation.specs.Pairs.{AddsPairs};
ghost use Rattle.cycle_report.specs.Reasons.{IsNext, IsReasonOf};
ghost use Rattle.cycle_report.specs.Spans.{AreSpans};
ghost use Rattle.cycle_report.specs.Views.{IsView, IsListed};
ghost use Rattle.cycle_report.specs.Rings.{IsAnyRing, IsOnce};
ghost use Rattle.cycle_report.specs.Judged.{IsCycleAt};
ghost use Rattle.cycle_report.specs.Levels.{AreStepsOf, IsFoundAt};

use crate::Step;
use crate::edges::edge_at;
use crate::pairs::pairs_of;
use crate::reasons::reason_of;
use crate::rings::ring_of;
use crate::sorting::order_or_cycle;
use crate::spans::Span;
use crate::view::View;
use cell_base::{Level, Memory};
use graph_base::{Edge, Graph};
use order_witness::Verdict;
use std::alloc::Global;

/// What is found at one level.
#[derive(Debug, Drop)]
pub enum Found {
    /// The least commit order that meets the history.
    Order(Vec<u32>),
    /// A cycle of pairs that each commit order must have.
    Cycle(Vec<Step>),
}

/// The step of the edge, with its reason.
fn step_of(
    alloc: Global,
    view: &View<'_>,
    links: &[Edge],
    level: Level,
    edge: Edge,
) -> Result<Step, Memory>
    requires view { IsView view.now }
    requires links { AddsPairs (IsNext view.now.events.now) [] links.now }
    requires listed { IsListed level view.now.events.now edge.before edge.after }
    ensures edge { IfOk result (λ step. step.edge ≡ edge) }
    ensures reason { IfOk result (λ step. IsReasonOf level view.now.events.now step.edge.before step.edge.after step.reason) }
{
    let reason = reason_of(alloc, view, links, level, edge.before, edge.after)?;
    Ok(Step { edge, reason })
}

/// The steps of the edges, each with its reason.
fn steps_of(
    alloc: Global,
    view: &View<'_>,
    links: &[Edge],
    level: Level,
    ring: &[Edge],
) -> Result<Vec<Step>, Memory>
    requires view { IsView view.now }
    requires links { AddsPairs (IsNext view.now.events.now) [] links.now }
    requires listed { (e : EdgeOf) → Contains ring.now e → IsListed level view.now.events.now e.before e.after }
    ensures { IfOk result (λ steps. AreStepsOf level view.now.events.now ring.now steps.items) }
{
    let mut steps = Vec::new(alloc);
    for at in 0..ring.len() {
        let edge = edge_at(ring, at);
        let step = step_of(alloc, view, links, level, edge)?;
        steps.push(step)?;
    }
    Ok(steps)
}

/// The cycle with its reasons, from its least transaction on, where the edges of the graph are those that are listed.
fn cycle_of(
    alloc: Global,
    view: &View<'_>,
    links: &[Edge],
    level: Level,
    graph: &Graph,
    cycle: &[Edge],
) -> Result<Vec<Step>, Memory>
    requires view { IsView view.now }
    requires links { AddsPairs (IsNext view.now.events.now) [] links.now }
    requires listed { IsPairList (IsListed level view.now.events.now) (begun view.now.events.now + 1) graph.now.edges.items }
    requires cycle { IsCycle graph.now.edges.items cycle.now }
    ensures { IfOk result (λ steps. IsCycleAt level view.now.events.now steps.items) }
{
    let ring = ring_of(alloc, &graph.edges, cycle)?;
    let steps = steps_of(alloc, view, links, level, &ring)?;
    Ok(steps)
}

/// The least commit order that meets the history where all its transactions run at the level, or a cycle of pairs that each such order must have.
pub fn found_at(
    alloc: Global,
    view: &View<'_>,
    spans: &[Span],
    links: &[Edge],
    level: Level,
) -> Result<Found, Memory>
    requires view { IsView view.now }
    requires spans { AreSpans view.now.events.now (begun view.now.events.now + 1) spans.now }
    requires links { AddsPairs (IsNext view.now.events.now) [] links.now }
    ensures { IfOk result (IsFoundAt level view.now.events.now) }
{
    let graph = pairs_of(alloc, view, spans, links, level)?;
    let verdict = order_or_cycle(alloc, &graph)?;
    match verdict {
        Verdict::Order(order) => Ok(Found::Order(order)),
        Verdict::Cycle(cycle) => {
            let steps = cycle_of(alloc, view, links, level, &graph, &cycle)?;
            Ok(Found::Cycle(steps))
        }
    }
}
