// Walks through the events of a history once.
ghost use Rattle.std.specs.Prelude.{◌≡◌, ◌<◌, ◌≤◌, Some, slice_get, IfOk, OnOk};
ghost use Rattle.history_core.specs.Events.{begun};
ghost use Rattle.history_summary.specs.Counts.{AreCounts};
ghost use Rattle.history_summary.specs.Walk.{TakesCells, IsCountable, IsWalked, IsNoted, IsPassed};

use crate::counts::{self, Counts, count};
use crate::latest::{self, Latest, set_writers, weakness_of};
use crate::running::{self, Running, number_of, set_number};
use cell_base::Memory;
use history_core::{Event, History};
use std::alloc::Global;

/// What is known of the events that were passed.
#[derive(Debug, Drop)]
pub struct Walk {
    pub counts: Counts,
    pub running: Running,
    pub latest: Latest,
}

/// Before the first event. Takes no memory.
fn start(alloc: Global, history: &History) -> Walk
    ensures walked { IsWalked history.now.events result }
    ensures first { result.counts.events ≡ 0 }
{
    Walk {
        counts: counts::none(),
        running: running::new(alloc),
        latest: latest::new(alloc),
    }
}

/// Makes the transaction of the number the latest writer of the cells that it wrote.
fn take_cells(latest: &mut Latest, history: &History, number: u32) -> Result<(), Memory>
    requires some { 0 < number }
    requires begun { number ≤ begun history.now.events }
    ensures { OnOk result (TakesCells history.now.events number latest.old latest.new) }
{
    set_writers(latest, history.txn(number).buffer.writes(), number)
}

/// Notes what begins or commits at the next event.
fn note(walk: &mut Walk, history: &History, event: &Event) -> Result<(), Memory>
    requires countable { IsCountable history.now }
    requires walked { IsWalked history.now.events walk.old }
    requires next { slice_get history.now.events walk.old.counts.events ≡ Some event.now }
    ensures { OnOk result (IsNoted history.now.events walk.old walk.new) }
{
    match event {
        Event::Begin { session, .. } => {
            set_number(&mut walk.running, *session, walk.counts.transactions + 1)
        }
        Event::Commit { session } => {
            let number = number_of(&walk.running, *session);
            take_cells(&mut walk.latest, history, number)
        }
        _ => Ok(()),
    }
}

/// Passes the next event.
fn pass(walk: &mut Walk, history: &History, event: &Event) -> Result<(), Memory>
    requires countable { IsCountable history.now }
    requires walked { IsWalked history.now.events walk.old }
    requires next { slice_get history.now.events walk.old.counts.events ≡ Some event.now }
    ensures { OnOk result (IsPassed history.now.events walk.old walk.new) }
{
    let weakness = weakness_of(&walk.latest, event);
    note(walk, history, event)?;
    count(&mut walk.counts, event, weakness);
    Ok(())
}

/// The counts of the history.
pub fn counts_of(alloc: Global, history: &History) -> Result<Counts, Memory>
    ensures { IfOk result (λ counts. AreCounts history.now.events counts) }
{
    let _ = history.begun();
    let _ = history.next_number();
    let mut walk = start(alloc, history);
    for event in history.events() {
        pass(&mut walk, history, event)?;
    }
    Ok(walk.counts)
}
