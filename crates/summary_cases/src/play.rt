// Steps of sessions that take turns in one store. Where a session doesn't stand as a step asks the test ends.
use crate::steps::{Step, act};
use cell_base::Level;
use held_values::{kept, let_go};
use history_book::Book;
use history_core::InitialState;
use seat_samples::{Stop, busy_seat, idle_seat, open_next, with_table};
use std::alloc::Global;
use valid_writes::Store;

/// A new store, in which these steps were made, each by its session.
pub fn play(alloc: Global, level: Level, steps: &[(u32, Step)]) -> Result<Store, Stop> {
    let mut store = Store::new(alloc, level, InitialState::empty(alloc))?;
    for (session, step) in steps {
        store = turn(alloc, store, *session, *step)?;
    }
    Ok(store)
}

fn turn(alloc: Global, store: Store, session: u32, step: Step) -> Result<Store, Stop> {
    match step {
        Step::OpenFirst => with_table(alloc, store),
        Step::Open => open_next(store),
        Step::Begin => begin(store, session),
        _ => go_on(store, session, step),
    }
}

fn begin(store: Store, session: u32) -> Result<Store, Stop> {
    let mut book = idle_seat(store, session)?;
    let begun = let_go(book.begin(Level::Rc));
    Ok(kept(book.into_store(), begun)?)
}

fn go_on(store: Store, session: u32, step: Step) -> Result<Store, Stop> {
    let mut book = busy_seat(store, session)?;
    let made = act(&mut book, step);
    kept(book.into_store(), made)
}
