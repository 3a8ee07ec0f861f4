// Full histories: what is refused at the last value of a limit, and what still succeeds.
ghost use Rattle.std.specs.Prelude.{OnOk};
ghost use Rattle.seat_samples.specs.SessionStates.{IsReady};

use crate::calls::{Call, begin, go_on, is_refused, refused};
use crate::start::stage;
use cell_base::Level;
use held_values::{kept, let_go};
use history_book::Book;
use history_core::Limit;
use seat_samples::{Stop, idle_seat, open_next};
use std::alloc::Global;
use table_samples::Spot;
use valid_writes::{SeatBook, Store};

/// What is refused at the greatest load.
const REFUSED: &[Call] = &[
    Call::See(Spot::Presence(2), 0),
    Call::See(Spot::Presence(1), 0),
    Call::Scan,
    Call::Write(Spot::Presence(2), 1),
    Call::Look,
    Call::Show,
];

/// At a load of 1,048,576 all calls are refused but those that end a transaction or a session. The load is that of an Open, a Define,
/// 1,048,572 Looks, a Begin and a Write.
#[test]
fn ends_at_the_greatest_load(rt: HostRuntime) -> Result<(), Stop> {
    let store = full_store(rt.alloc())?;
    let store = with_load(refuse_each(store, REFUSED), 1_048_576)?;
    let store = with_load(go_on(store, 1, Call::RollBack), 1_048_577)?;
    let store = refuse_begin(store)?;
    let_go(with_load(close(store), 1_048_578))
}

/// The store, where the load is this one.
fn with_load(store: Result<Store, Stop>, load: u64) -> Result<Store, Stop> {
    let store = store?;
    let has = has_load(&store, load);
    kept(store, has)
}

/// Ends the test where the load is another one.
fn has_load(store: &Store, want: u64) -> Result<(), Stop> {
    let load = store.history().load();
    if load == want {
        Ok(())
    } else {
        Err(Stop::Load(load))
    }
}

/// A store at the greatest load, in whose session 1 a transaction has written the presence of row 1.
fn full_store(alloc: Global) -> Result<Store, Stop> {
    let store = look_in(stage(alloc, 1)?, 1_048_572)?;
    let store = begin(store, 1, Level::Rc)?;
    let call = Call::Write(Spot::Presence(1), 1);
    with_load(go_on(store, 1, call), 1_048_576)
}

/// Each of the calls is refused.
fn refuse_each(store: Store, calls: &[Call]) -> Result<Store, Stop> {
    let mut store = store;
    for call in calls {
        store = is_refused(store, 1, *call)?;
    }
    Ok(store)
}

/// A begin is refused.
fn refuse_begin(store: Store) -> Result<Store, Stop> {
    let mut book = idle_seat(store, 1)?;
    let came = let_go(book.begin(Level::Rc));
    kept(book.into_store(), refused(came))
}

/// The session can be closed.
fn close(store: Store) -> Result<Store, Stop> {
    let mut book = idle_seat(store, 1)?;
    book.close();
    Ok(book.into_store())
}

/// Looks so many times in session 1.
fn look_in(store: Store, count: u32) -> Result<Store, Stop> {
    let mut book = idle_seat(store, 1)?;
    let came = look_many(&mut book, count);
    kept(book.into_store(), came)
}

/// Looks so many times.
fn look_many(book: &mut SeatBook, count: u32) -> Result<(), Stop>
    requires { IsReady book.old }
    ensures { OnOk result (IsReady book.new) }
{
    for _ in 0..count {
        look(book)?;
    }
    Ok(())
}

fn look(book: &mut SeatBook) -> Result<(), Stop>
    requires { IsReady book.old }
    ensures { OnOk result (IsReady book.new) }
{
    match book.look(1) {
        Ok(_) => Ok(()),
        Err(fault) => Err(Stop::from(fault)),
    }
}

/// 4,096 sessions are opened, and no more.
#[test]
fn opens_4096_sessions(rt: HostRuntime) -> Result<(), Stop> {
    let store = stage(rt.alloc(), 4_096)?;
    refuse_next(store)
}

/// No session can be opened, since there are as many as there may be.
fn refuse_next(store: Store) -> Result<(), Stop> {
    match let_go(open_next(store)) {
        Err(Stop::Full(Limit::Sessions)) => Ok(()),
        Err(stop) => Err(stop),
        Ok(()) => Err(Stop::Accepted),
    }
}
