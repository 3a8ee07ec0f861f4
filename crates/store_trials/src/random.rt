// Random histories of several sessions at mixed levels, with scans, own reads and rollbacks: each offer beside the trial of all orders, and beside
// the forced pairs.
ghost use Rattle.std.specs.Prelude.{◌<◌};
ghost use Rattle.history_core.specs.Transactions.{HasPending};
ghost use Rattle.saturation.specs.Laws.{AreForced};

use crate::calls::{Call, begin, go_on};
use crate::orders::plain_offer;
use crate::plain::MOST;
use crate::start::stage;
use cell_base::{Cell, Level};
use choice_stream::SeedWords;
use graph_base::Graph;
use held_values::{kept, let_go, without};
use history_book::Words;
use history_core::History;
use saturation::{candidates, forced, is_permitted};
use seat_samples::{Stop, misplaced, unlike};
use std::alloc::Global;
use std::test::Fail;
use table_samples::Spot;
use valid_writes::Store;

/// How many calls each history has.
const CALLS: u32 = 60;

/// How many sessions each history has.
const SESSIONS: u32 = 3;

/// What a run compares, and how much of it there was.
#[derive(Drop)]
struct Run {
    words: SeedWords,
    most: u32,
    reads: usize,
    permitted: usize,
    refused: usize,
}

/// Whether a run compared so much: reads, and candidates that were refused.
fn is_large(run: &Run, reads: usize, refused: usize) -> bool {
    run.reads > reads && run.permitted > run.reads && run.refused > refused
}

/// Histories of up to six transactions: each offer beside the trial of all orders, and beside the forced pairs of each candidate.
#[test]
fn offers_beside_all_orders(rt: HostRuntime) -> Result<(), Fail> {
    let run = run_of(rt.alloc(), 20_191, MOST, 700)?;
    assert!(&rt; is_large(&run, 6_500, 400));
    Ok(())
}

/// Histories of up to twelve transactions: each offer beside the forced pairs of each candidate.
#[test]
fn offers_beside_forced_pairs(rt: HostRuntime) -> Result<(), Fail> {
    let run = run_of(rt.alloc(), 4_096, 12, 1_400)?;
    assert!(&rt; is_large(&run, 13_000, 800));
    Ok(())
}

/// Plays so many histories of at most so many transactions.
fn run_of(alloc: Global, seed: u64, most: u32, histories: u32) -> Result<Run, Stop> {
    let mut run = Run {
        words: SeedWords::new(seed, 0),
        most,
        reads: 0,
        permitted: 0,
        refused: 0,
    };
    let played = play_many(alloc, &mut run, histories);
    kept(run, played)
}

fn play_many(alloc: Global, run: &mut Run, histories: u32) -> Result<(), Stop> {
    for _ in 0..histories {
        let_go(play_random(alloc, run))?;
    }
    Ok(())
}

/// The next word below a bound.
fn below(words: &mut SeedWords, bound: u32) -> u32
    requires { 0 < bound }
    ensures { result < bound }
{
    words.next() % bound
}

/// Makes the calls of one history.
fn play_random(alloc: Global, run: &mut Run) -> Result<Store, Stop> {
    let mut store = stage(alloc, SESSIONS)?;
    for _ in 0..CALLS {
        store = make_any(alloc, store, run)?;
    }
    Ok(store)
}

/// Makes any call in any session.
fn make_any(alloc: Global, store: Store, run: &mut Run) -> Result<Store, Stop> {
    let session = 1 + below(&mut run.words, SESSIONS);
    match store.history().pending(session) {
        Some(_) => go_on_any(alloc, store, session, run),
        None => begin_any(store, session, run),
    }
}

/// Makes any call in a pending transaction. What a read is offered is compared first.
fn go_on_any(alloc: Global, store: Store, session: u32, run: &mut Run) -> Result<Store, Stop> {
    let call = any_call(&mut run.words);
    let compared = compare_call(alloc, &store, session, call, run);
    go_on(kept(store, compared)?, session, call)
}

/// Starts a transaction at any level, as long as there are few.
fn begin_any(store: Store, session: u32, run: &mut Run) -> Result<Store, Stop> {
    if store.history().begun() >= run.most {
        return Ok(store);
    }
    begin(store, session, any_level(&mut run.words))
}

fn any_level(words: &mut SeedWords) -> Level {
    match below(words, 3) {
        0 => Level::Rc,
        1 => Level::Ra,
        _ => Level::Cc,
    }
}

/// Any call of a transaction.
fn any_call(words: &mut SeedWords) -> Call {
    let spot = any_spot(words);
    let number = below(words, 100);
    match below(words, 24) {
        0..=2 => Call::Commit,
        3 => Call::RollBack,
        4 => Call::Scan,
        5..=12 => Call::Write(spot, i64::from(number)),
        _ => Call::See(spot, number),
    }
}

/// Any cell of two rows.
fn any_spot(words: &mut SeedWords) -> Spot {
    let key = i64::from(1 + below(words, 2));
    match below(words, 2) {
        0 => Spot::Presence(key),
        _ => Spot::Field(key),
    }
}

/// Compares what a read is offered; other calls are offered nothing.
fn compare_call(
    alloc: Global,
    store: &Store,
    session: u32,
    call: Call,
    run: &mut Run,
) -> Result<(), Stop> {
    match call {
        Call::See(spot, _) => compare(alloc, store, session, spot, run),
        _ => Ok(()),
    }
}

/// Compares the offer of the cell with that of the forced pairs, and, as long as there are few transactions, with that of all orders.
fn compare(
    alloc: Global,
    store: &Store,
    session: u32,
    spot: Spot,
    run: &mut Run,
) -> Result<(), Stop> {
    run.reads = run.reads.saturating_add(1);
    let cell = spot.cell();
    let offer = offered(alloc, store, session, &cell, run);
    let offer = without(cell, offer)?;
    let compared = compare_few(alloc, store, session, spot, &offer);
    without(offer, compared)
}

/// The offer of the cell by the forced pairs, if that of the store is the same.
fn offered(
    alloc: Global,
    store: &Store,
    session: u32,
    cell: &Cell,
    run: &mut Run,
) -> Result<Vec<u32>, Stop> {
    let want = by_pairs(alloc, store, session, cell, run)?;
    let compared = compare_offer(store, session, cell, &want);
    kept(want, compared)
}

/// Compares those of the trial of all orders, as long as there are few transactions.
fn compare_few(
    alloc: Global,
    store: &Store,
    session: u32,
    spot: Spot,
    want: &[u32],
) -> Result<(), Stop> {
    if store.history().begun() > MOST {
        return Ok(());
    }
    compare_orders(alloc, store, session, spot, want)
}

/// Compares the writes that the pending transaction of the session may read next.
fn compare_offer(store: &Store, session: u32, cell: &Cell, want: &[u32]) -> Result<(), Stop> {
    match store.history().pending(session) {
        Some(_) => same(store, &store.offer(session, cell)?, want),
        None => Err(misplaced(store.history())),
    }
}

/// Compares those of the trial of all orders.
fn compare_orders(
    alloc: Global,
    store: &Store,
    session: u32,
    spot: Spot,
    want: &[u32],
) -> Result<(), Stop> {
    let offer = plain_offer(alloc, store.history().events(), session, spot)?;
    same(store, &offer, want)
}

fn same(store: &Store, offer: &[u32], want: &[u32]) -> Result<(), Stop> {
    if offer == want {
        Ok(())
    } else {
        Err(unlike(store.history()))
    }
}

/// The writes that the pending transaction of the session may read next, by the forced pairs.
fn by_pairs(
    alloc: Global,
    store: &Store,
    session: u32,
    cell: &Cell,
    run: &mut Run,
) -> Result<Vec<u32>, Stop> {
    let history = store.history();
    match history.pending(session) {
        Some(_) => counted(alloc, history, session, cell, run),
        None => Err(misplaced(store.history())),
    }
}

/// The same of a history in which a transaction of the session is pending. Counts the candidates.
fn counted(
    alloc: Global,
    history: &History,
    session: u32,
    cell: &Cell,
    run: &mut Run,
) -> Result<Vec<u32>, Stop>
    requires { HasPending history.now.events session }
{
    let mut permitted = Vec::new(alloc);
    let added = add_counted(alloc, history, session, cell, run, &mut permitted);
    kept(permitted, added)
}

fn add_counted(
    alloc: Global,
    history: &History,
    session: u32,
    cell: &Cell,
    run: &mut Run,
    permitted: &mut Vec<u32>,
) -> Result<(), Stop>
    requires { HasPending history.now.events session }
{
    let count = add_permitted(alloc, history, session, cell, permitted)?;
    run.permitted = run.permitted.saturating_add(permitted.len());
    run.refused = run
        .refused
        .saturating_add(count.saturating_sub(permitted.len()));
    Ok(())
}

/// Adds the candidates with which the forced pairs have no cycle; answers how many candidates there are.
fn add_permitted(
    alloc: Global,
    history: &History,
    session: u32,
    cell: &Cell,
    permitted: &mut Vec<u32>,
) -> Result<usize, Stop>
    requires { HasPending history.now.events session }
{
    let graph = forced(alloc, history)?;
    let count = add_acyclic(alloc, history, &graph, session, cell, permitted);
    without(graph, count)
}

fn add_acyclic(
    alloc: Global,
    history: &History,
    graph: &Graph,
    session: u32,
    cell: &Cell,
    permitted: &mut Vec<u32>,
) -> Result<usize, Stop>
    requires forced { AreForced history.now.events graph.now.edges.items }
    requires pending { HasPending history.now.events session }
{
    let sources = candidates(alloc, history, cell)?;
    let count = add_each(alloc, history, graph, session, cell, &sources, permitted);
    without(sources, count)
}

fn add_each(
    alloc: Global,
    history: &History,
    graph: &Graph,
    session: u32,
    cell: &Cell,
    sources: &[u32],
    permitted: &mut Vec<u32>,
) -> Result<usize, Stop>
    requires forced { AreForced history.now.events graph.now.edges.items }
    requires pending { HasPending history.now.events session }
{
    for source in sources {
        if is_permitted(alloc, history, graph, session, cell, *source)? {
            permitted.push(*source)?;
        }
    }
    Ok(sources.len())
}
