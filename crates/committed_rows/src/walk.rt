// Walks through the transactions of a history, from the newest on.
ghost use Rattle.std.specs.Prelude.{◌<◌, ◌≤◌, ◌-◌, IfOk, OnOk};
ghost use Rattle.history_core.specs.Events.{begun};
ghost use Rattle.committed_rows.specs.Walk.{AreNewestAbove, AreNewest};

use crate::newest::{self, Newest, fill};
use cell_base::Memory;
use history_core::{History, TxnState};
use std::alloc::Global;

/// Takes what the transaction of the number wrote, if it has committed.
fn take_txn(newest: &mut Newest, history: &History, number: u32) -> Result<(), Memory>
    requires some { 0 < number }
    requires begun { number ≤ begun history.now.events }
    requires above { AreNewestAbove history.now.events number newest.old }
    ensures { OnOk result (AreNewestAbove history.now.events (number - 1) newest.new) }
{
    let txn = history.txn(number);
    match txn.state {
        TxnState::Committed => fill(newest, txn.buffer.writes()),
        _ => Ok(()),
    }
}

/// The newest value of each cell that the initial transaction or a committed one has written.
pub fn newest_values(alloc: Global, history: &History) -> Result<Newest, Memory>
    ensures { IfOk result (AreNewest history.now) }
{
    let _ = history.events();
    let mut newest = newest::new(alloc);
    let mut number = history.begun();
    while number > 0 {
        take_txn(&mut newest, history, number)?;
        number -= 1;
    }
    fill(&mut newest, history.initial().cells())?;
    Ok(newest)
}
