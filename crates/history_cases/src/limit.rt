// How many transactions a history takes.
ghost use Rattle.std.specs.Prelude.{◌≡◌, [], OnOk};
ghost use Rattle.history_cases.specs.Pairs.{IsBetween};
ghost use Rattle.history_core.specs.declared.event.Event.{Event};
ghost use Rattle.cell_base.specs.declared.level.Level.{Level};

use crate::steps::right;
use cell_base::Level;
use held_values::without;
use history_core::{BookFault, Event, History, InitialState, Limit};
use std::test::Fail;

/// A session begins and commits 65,535 transactions. A further one is refused.
fn fill(history: &mut History) -> Result<(), Fail>
    requires { history.old.events ≡ [] }
{
    history.push(Event::Open { session: 1 })?;
    commit_many(history, 65_535)?;
    let is_full = history.begun() == 65_535 && history.load() == 131_071;
    let pushed = history.push(begin());
    right(
        "full",
        is_full && pushed == Err(BookFault::Full(Limit::Transactions)),
    )
}

#[test]
fn begins_and_commits_65535_transactions(rt: HostRuntime) -> Result<(), Fail> {
    let mut history = History::new(rt.alloc(), Level::Rc, InitialState::empty(rt.alloc()));
    let fill = fill(&mut history);
    without(history, fill)
}

/// Begins and commits so many transactions.
fn commit_many(history: &mut History, count: u32) -> Result<(), BookFault>
    requires { IsBetween history.old.events }
    ensures { OnOk result (IsBetween history.new.events) }
{
    for _ in 0..count {
        commit_one(history)?;
    }
    Ok(())
}

/// Begins and commits a transaction.
fn commit_one(history: &mut History) -> Result<(), BookFault>
    requires { IsBetween history.old.events }
    ensures { OnOk result (IsBetween history.new.events) }
{
    history.push(begin())?;
    history.end(Event::Commit { session: 1 });
    Ok(())
}

fn begin() -> Event
    ensures { result ≡ Event.Begin 1 Level.Ra }
{
    Event::Begin {
        session: 1,
        level: Level::Ra,
    }
}
