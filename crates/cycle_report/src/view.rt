// What stands for a history that is judged.
ghost use Rattle.std.specs.Prelude.{◌≡◌, ◌<◌, Some, length, slice_get};
ghost use Rattle.history_core.specs.Records.{IsRecordOf};
ghost use Rattle.order_test.specs.Sights.{IsNumber, IsReadAt, IsReading};
ghost use Rattle.cycle_report.specs.Views.{IsView};

use crate::pasts::Pasts;
use cell_writers::CellWriters;
use history_core::{Event, Txn};

/// The events of a history, beside each of them its transaction, of each transaction its record and its causal past, and the committed writers of
/// each cell.
#[derive(Clone, Copy, Debug)]
pub struct View<'a> {
    pub events: &'a [Event],
    pub owners: &'a [u32],
    pub txns: &'a [Txn],
    pub pasts: &'a Pasts,
    pub writers: &'a CellWriters,
}

/// The record of the transaction.
pub fn txn_of<'a>(view: &View<'a>, number: u32) -> &'a Txn
    requires view { IsView view.now }
    requires number { IsNumber view.now.events.now number }
    ensures { IsRecordOf view.now.events.now number result.now }
{
    &view.txns[number as usize - 1]
}

/// The reader of the read or scan at the place.
pub fn reader_at(view: &View<'_>, place: usize, event: &Event) -> u32
    requires view { IsView view.now }
    requires is { slice_get view.now.events.now place ≡ Some event.now }
    requires reading { IsReading event.now }
    ensures { IsReadAt view.now.events.now place event.now result }
{
    let owners = view.owners;
    owners[place]
}
