// A store whose first session has made the table.
use cell_base::Level;
use history_core::InitialState;
use seat_samples::{Stop, open_next, with_table};
use std::alloc::Global;
use valid_writes::Store;

/// A store in which so many sessions are open, and the first one has made the table `t`.
pub fn stage(alloc: Global, sessions: u32) -> Result<Store, Stop> {
    let store = Store::new(alloc, Level::Cc, InitialState::empty(alloc))?;
    let mut store = with_table(alloc, store)?;
    for _ in 1..sessions {
        store = open_next(store)?;
    }
    Ok(store)
}
