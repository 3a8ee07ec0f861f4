// How the notes of the cells, and the keys of each table, follow the events.
ghost use Rattle.std.specs.Prelude.{◌≡◌, ◌≤◌, ◌<◌, ◌∷◌, ◌++◌, [], ℕ, Some, length, OnOk, slice_get, slice_index};
ghost use Rattle.cell_writers.specs.Numbered.{AreNumbered};
ghost use Rattle.history_core.specs.Events.{session_in};
ghost use Rattle.history_core.specs.Transactions.{IsPending, HasPending};
ghost use Rattle.order_test.specs.Settled.{IsSettled};
ghost use Rattle.history_check.specs.Rules.{IsInShape};
ghost use Rattle.history_check.specs.Notes.{AreOfSessions, AreCellNotes, AreWrittenKeys, IsRunningOwner, StandsForPendingWrites, ArePendingIn, AreAscending, SetsPlaceAt, GainAt, GainAmong};

use crate::cell_notes::number_at;
use crate::pending_writes::PendingWrites;
use crate::table_keys::{TableKeys, note_key};
use cell_base::Memory;
use cell_writers::{CellNote, CellNotes};
use history_core::Event;

/// Sets where the transaction has written the cell of the number last.
pub fn set_place(
    notes: &mut Vec<CellNote>,
    at: usize,
    number: u32,
    place: u32,
) -> Result<(), Memory>
    requires { at < length notes.old.items }
    ensures { OnOk result (SetsPlaceAt at number place notes.old.items notes.new.items) }
{
    notes[at].places.set(number, place)?;
    Ok(())
}

/// Notes the transaction as one that has committed, at the cell of the number.
fn note_committed(notes: &mut Vec<CellNote>, at: usize, number: u32) -> Result<(), Memory>
    requires within { at < length notes.old.items }
    requires ascending { AreAscending notes.old.items }
    ensures { OnOk result (GainAt at number notes.old.items notes.new.items) }
{
    notes[at].committed.insert(number)?;
    Ok(())
}

/// Notes the transaction as one that has committed, at the cells of the events at the places.
pub fn note_all_committed(
    notes: &mut Vec<CellNote>,
    of_events: &[u32],
    places: &[u32],
    number: u32,
) -> Result<(), Memory>
    requires ascending { AreAscending notes.old.items }
    requires numbered { (k place : ℕ) → slice_get places.now k ≡ Some place → place < length of_events.now }
    requires within { (k place : ℕ) → slice_get places.now k ≡ Some place → slice_index of_events.now place < length notes.old.items }
    ensures { OnOk result (GainAmong of_events.now places.now (length places.now) number notes.old.items notes.new.items) }
{
    for place in places {
        note_committed(notes, of_events[*place as usize] as usize, number)?;
    }
    Ok(())
}

/// Notes of the event what it changes for the cells: where its transaction, which is the owner, has written last, or that it has committed.
/// `pending` has the writes before the event.
pub fn note_cells(
    cells: &mut CellNotes,
    pending: &[PendingWrites],
    before: &[Event],
    event: &Event,
    owner: Option<u32>,
) -> Result<(), Memory>
    requires notes { AreCellNotes before.now cells.old }
    requires numbered { AreNumbered (before.now ++ event.now ∷ []) cells.old.numbers }
    requires pending { StandsForPendingWrites before.now pending.now }
    requires settled { IsSettled before.now }
    requires sessions { AreOfSessions before.now }
    requires shape { IsInShape before.now event.now }
    requires owner { IsRunningOwner before.now event.now owner }
    requires few { length before.now < 4294967295 }
    ensures numbers { cells.new.numbers ≡ cells.old.numbers }
    ensures notes { OnOk result (AreCellNotes (before.now ++ event.now ∷ []) cells.new) }
{
    match event {
        Event::Write { cell, .. } => {
            let at = number_at(cells, before, event, cell);
            set_place(
                &mut cells.notes,
                at,
                owner_of(before, event, owner),
                before.len() as u32,
            )
        }
        Event::Commit { session } => note_all_committed(
            &mut cells.notes,
            cells.numbers.of_events.as_slice(),
            places_in(pending, before, *session),
            owner_of(before, event, owner),
        ),
        _ => Ok(()),
    }
}

/// The transaction of the event, where one is pending in its session.
pub fn owner_of(before: &[Event], event: &Event, owner: Option<u32>) -> u32
    requires owner { IsRunningOwner before.now event.now owner }
    requires pending { HasPending before.now (session_in event.now) }
    ensures { IsPending before.now result (session_in event.now) }
{
    match owner {
        Some(number) => number,
        None => unreachable!(),
    }
}

/// The places of the writes that are pending in the session, where something is.
fn places_in<'a>(pending: &'a [PendingWrites], before: &[Event], session: u32) -> &'a [u32]
    requires pending { StandsForPendingWrites before.now pending.now }
    requires sessions { AreOfSessions before.now }
    requires some { HasPending before.now session }
    ensures { ArePendingIn before.now session result.now }
{
    pending[session as usize - 1].places.as_slice()
}

/// Notes the key of the presence that the event writes, if it writes one.
pub fn note_written(keys: &mut TableKeys, before: &[Event], event: &Event) -> Result<(), Memory>
    requires { AreWrittenKeys before.now keys.old }
    ensures { OnOk result (AreWrittenKeys (before.now ++ event.now ∷ []) keys.new) }
{
    match event {
        Event::Write { cell, .. } => note_key(keys, cell),
        _ => Ok(()),
    }
}
