// What the axiom crates answer over a store's history.
use crate::play::Spot;
use cell_base::{Cell, Level};
use graph_base::Edge;
use held_values::without;
use history_core::History;
use saturation::is_writer;
use seat_samples::{Stop, misplaced};
use std::alloc::Global;

/// What a further read of the session forces by the level.
pub fn trial_at(
    alloc: Global,
    history: &History,
    level: Level,
    session: u32,
    spot: Spot,
    source: u32,
) -> Result<Vec<Edge>, Stop> {
    let cell = spot.cell();
    let pairs = trial(alloc, history, level, session, &cell, source);
    without(cell, pairs)
}

fn trial(
    alloc: Global,
    history: &History,
    level: Level,
    session: u32,
    cell: &Cell,
    source: u32,
) -> Result<Vec<Edge>, Stop> {
    if !is_writer(history, source, cell) {
        return Err(misplaced(history));
    }
    let Some(reader) = history.pending(session) else {
        return Err(misplaced(history));
    };
    let pairs = match level {
        Level::Rc => axiom_rc::trial(alloc, history, reader, cell, source)?,
        Level::Ra => axiom_ra::trial(alloc, history, reader, cell, source)?,
        Level::Cc => axiom_cc::trial(alloc, history, reader, cell, source)?,
    };
    Ok(pairs)
}

/// What the reader's read that is the event of the number sees by the level.
pub fn visible(
    alloc: Global,
    history: &History,
    level: Level,
    reader: u32,
    place: u32,
) -> Result<Vec<u32>, Stop> {
    if reader == 0 || reader > history.begun() {
        return Err(misplaced(history));
    }
    let writers = match level {
        Level::Rc => axiom_rc::visible(alloc, history, reader, place)?,
        Level::Ra => axiom_ra::visible(alloc, history, reader, place)?,
        Level::Cc => axiom_cc::visible(alloc, history, reader, place)?,
    };
    Ok(writers)
}

/// Whether a further read of the session from the source forces just these pairs, in this order.
pub fn forces(
    alloc: Global,
    history: &History,
    level: Level,
    session: u32,
    spot: Spot,
    source: u32,
    want: &[(u32, u32)],
) -> Result<bool, Stop> {
    let pairs = trial_at(alloc, history, level, session, spot, source)?;
    let so = are_pairs(pairs.as_slice(), want);
    Ok(without(pairs, so))
}

fn are_pairs(pairs: &[Edge], want: &[(u32, u32)]) -> bool {
    pairs.len() == want.len()
        && pairs.iter().zip(want).all(|(pair, (before, after))| pair.before == *before
            && pair.after == *after)
}

/// Whether the reader's last event but so many sees just these transactions.
pub fn sees(
    alloc: Global,
    history: &History,
    level: Level,
    reader: u32,
    back: u32,
    want: &[u32],
) -> Result<bool, Stop> {
    let place = history.next_number().saturating_sub(1).saturating_sub(back);
    let writers = visible(alloc, history, level, reader, place)?;
    let so = writers.as_slice() == want;
    Ok(without(writers, so))
}
