// The writes that a read may take, found by trying each order of all transactions.
use crate::plain::{Given, Plain, SIZE, plain_of};
use cell_base::Level;
use held_values::{kept, without};
use history_core::Event;
use seat_samples::Stop;
use std::alloc::Global;
use table_samples::Spot;

/// Pairs of transactions, of which the first is to stand before the second.
type Pairs = Vec<(u32, u32)>;

/// The writes that the session's transaction may read next, where at most six transactions have begun.
pub fn plain_offer(
    alloc: Global,
    events: &[Event],
    session: u32,
    spot: Spot,
) -> Result<Vec<u32>, Stop> {
    let mut plain = plain_of(alloc, events)?;
    let offer = offer_of(alloc, &mut plain, events.len(), session, spot);
    without(plain, offer)
}

/// The same after so many events, of which the transactions, writes and reads are these.
fn offer_of(
    alloc: Global,
    plain: &mut Plain,
    place: usize,
    session: u32,
    spot: Spot,
) -> Result<Vec<u32>, Stop> {
    let mut offer = Vec::new(alloc);
    let added = add_offered(alloc, plain, place, session, spot, &mut offer);
    kept(offer, added)
}

fn add_offered(
    alloc: Global,
    plain: &mut Plain,
    place: usize,
    session: u32,
    spot: Spot,
    offer: &mut Vec<u32>,
) -> Result<(), Stop> {
    for source in 0..SIZE {
        if plain.is_writer(source, spot) && may_read(alloc, plain, place, session, spot, source)? {
            offer.push(source)?;
        }
    }
    Ok(())
}

/// Whether some order meets the history with one more read.
fn may_read(
    alloc: Global,
    plain: &mut Plain,
    place: usize,
    session: u32,
    spot: Spot,
    source: u32,
) -> Result<bool, Stop> {
    plain.read(session, place, spot, source)?;
    let is_met = some_order_meets(alloc, plain)?;
    plain.reads.pop();
    Ok(is_met)
}

/// Whether some order of all transactions, the initial one first, has all pairs.
fn some_order_meets(alloc: Global, plain: &Plain) -> Result<bool, Stop> {
    let pairs = demanded(alloc, plain)?;
    let is_met = some_order_has(&pairs);
    Ok(without(pairs, is_met))
}

fn some_order_has(pairs: &[(u32, u32)]) -> bool {
    for number in 0..720 {
        if has_all(&order_of(number), pairs) {
            return true;
        }
    }
    false
}

/// The order of that number, of the 720 of six transactions after the initial one. Those that haven't begun stand in no pair.
fn order_of(number: u32) -> [u32; 7] {
    let mut order = [0, 1, 2, 3, 4, 5, 6];
    let mut rest = number;
    for count in 1..SIZE {
        swap(&mut order, count, (rest % count).saturating_add(1));
        rest /= count;
    }
    order
}

/// Swaps the transactions at two places.
fn swap(order: &mut [u32], first: u32, second: u32) {
    let (first, second) = (first as usize, second as usize);
    if first < order.len() && second < order.len() {
        order.swap(first, second);
    }
}

/// Whether of each pair the first stands before the second.
fn has_all(order: &[u32], pairs: &[(u32, u32)]) -> bool {
    for (first, second) in pairs {
        if !stands_before(order, *first, *second) {
            return false;
        }
    }
    true
}

/// Whether the first stands before the second.
fn stands_before(order: &[u32], first: u32, second: u32) -> bool {
    match (place_of(order, first), place_of(order, second)) {
        (Some(first), Some(second)) => first < second,
        _ => false,
    }
}

fn place_of(order: &[u32], number: u32) -> Option<usize> {
    for (place, other) in order.iter().enumerate() {
        if *other == number {
            return Some(place);
        }
    }
    None
}

/// Session order, who reads from whom, and for each read each other writer of its cell that it sees, before its source.
fn demanded(alloc: Global, plain: &Plain) -> Result<Pairs, Stop> {
    let mut pairs = preceding(alloc, plain)?;
    let added = add_demanded(alloc, plain, &mut pairs);
    kept(pairs, added)
}

/// Adds for each read each other writer of its cell that it sees, before its source.
fn add_demanded(alloc: Global, plain: &Plain, pairs: &mut Pairs) -> Result<(), Stop> {
    let causal = causal(alloc, plain)?;
    let added = add_all_seen(plain, &causal, pairs);
    without(causal, added)
}

fn add_all_seen(plain: &Plain, causal: &[(u32, u32)], pairs: &mut Pairs) -> Result<(), Stop> {
    for read in &plain.reads {
        add_seen(plain, causal, *read, pairs)?;
    }
    Ok(())
}

fn add_seen(
    plain: &Plain,
    causal: &[(u32, u32)],
    read: Given,
    pairs: &mut Pairs,
) -> Result<(), Stop> {
    for writer in 0..SIZE {
        if is_demanded(plain, causal, read, writer) {
            pairs.push((writer, read.source))?;
        }
    }
    Ok(())
}

/// The pairs of which the first precedes the second.
fn preceding(alloc: Global, plain: &Plain) -> Result<Pairs, Stop> {
    let mut pairs = Vec::new(alloc);
    let added = add_preceding(plain, &mut pairs);
    kept(pairs, added)
}

fn add_preceding(plain: &Plain, pairs: &mut Pairs) -> Result<(), Stop> {
    for first in 0..SIZE {
        for second in 0..SIZE {
            if plain.precedes(first, second) {
                pairs.push((first, second))?;
            }
        }
    }
    Ok(())
}

/// The pairs of which a chain of preceding transactions leads from the first to the second.
fn causal(alloc: Global, plain: &Plain) -> Result<Pairs, Stop> {
    let steps = preceding(alloc, plain)?;
    let pairs = with_chains(alloc, &steps);
    without(steps, pairs)
}

fn with_chains(alloc: Global, steps: &[(u32, u32)]) -> Result<Pairs, Stop> {
    let mut pairs = Vec::from_slice(alloc, steps)?;
    let added = add_chains(&mut pairs, steps);
    kept(pairs, added)
}

/// Adds the pairs of chains, of which there are no more than 49.
fn add_chains(pairs: &mut Pairs, steps: &[(u32, u32)]) -> Result<(), Stop> {
    for place in 0..49 {
        if let Some((first, middle)) = pairs.get(place).copied() {
            go_further(pairs, steps, first, middle)?;
        }
    }
    Ok(())
}

/// Adds the pairs of the first and each that the middle precedes.
fn go_further(
    pairs: &mut Pairs,
    steps: &[(u32, u32)],
    first: u32,
    middle: u32,
) -> Result<(), Stop> {
    for (from, second) in steps {
        if *from == middle && !pairs.contains(&(first, *second)) {
            pairs.push((first, *second))?;
        }
    }
    Ok(())
}

/// Whether the writer is another than the read's source, and the read sees it.
fn is_demanded(plain: &Plain, causal: &[(u32, u32)], read: Given, writer: u32) -> bool {
    writer != read.source && plain.is_writer(writer, read.spot) && sees(plain, causal, read, writer)
}

/// Whether the level of its transaction lets the read see the writer: at Read Committed, where an earlier read of the transaction was from it.
fn sees(plain: &Plain, causal: &[(u32, u32)], read: Given, writer: u32) -> bool {
    let Some(txn) = plain.txns.get(read.reader as usize) else {
        return false;
    };
    match txn.level {
        Level::Rc => plain.has_read_before(read, writer),
        Level::Ra => plain.precedes(writer, read.reader),
        Level::Cc => causal.contains(&(writer, read.reader)),
    }
}
