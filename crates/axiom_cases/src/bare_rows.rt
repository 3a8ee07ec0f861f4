// Forced rows before any event. Rows beside histories with events are tested through a store.
ghost use Rattle.std.specs.Prelude.{◌≡◌, [], IfOk};
ghost use Rattle.forced_rows.specs.Rows.{AreRowsOf};

use cell_base::{Level, Memory};
use forced_rows::ForcedRows;
use history_core::InitialState;
use indexed_history::IndexedHistory;
use std::alloc::Global;

/// A history without rows and events.
fn empty_history(alloc: Global) -> Result<IndexedHistory, Memory>
    ensures { IfOk result (λ history. history.events ≡ []) }
{
    let history = IndexedHistory::new(alloc, Level::Cc, InitialState::empty(alloc))?;
    Ok(history)
}

/// How many numbers the rows have with room for a begin, and without.
fn sizes(history: &IndexedHistory, rows: &mut ForcedRows) -> Result<(u32, u32), Memory>
    requires none { history.now.events ≡ [] }
    requires kept { AreRowsOf [] rows.old }
{
    rows.make_room(history, 1)?;
    let grown = rows.reach().size();
    rows.give_back_room(history, 1);
    Ok((grown, rows.reach().size()))
}

/// The least order of the initial transaction alone.
fn first_order(
    alloc: Global,
    history: &IndexedHistory,
    rows: &ForcedRows,
) -> Result<Vec<u32>, Memory>
    requires none { history.now.events ≡ [] }
    requires kept { AreRowsOf [] rows.now }
{
    let order = rows.order(alloc, history)?;
    Ok(order)
}

#[test]
fn room_without_events(rt: HostRuntime) -> Result<(), Memory> {
    let alloc = rt.alloc();
    let history = empty_history(alloc)?;
    let mut rows = ForcedRows::new(alloc)?;
    assert_eq!(&rt; sizes(&history, &mut rows)?, (2, 1));
    Ok(())
}

#[test]
fn order_without_events(rt: HostRuntime) -> Result<(), Memory> {
    let alloc = rt.alloc();
    let history = empty_history(alloc)?;
    let rows = ForcedRows::new(alloc)?;
    assert_eq!(&rt;
        first_order(alloc, &history, &rows)?.as_slice(),
        [0].as_slice()
    );
    Ok(())
}
