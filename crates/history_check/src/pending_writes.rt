// Where the writes of pending transactions stand among the events.
ghost use Rattle.std.specs.Prelude.{◌≡◌, ◌≤◌, ◌<◌, ◌∷◌, ◌++◌, [], length, OnOk};
ghost use Rattle.history_check.specs.Rules.{IsInShape};
ghost use Rattle.history_check.specs.Notes.{AreOfSessions, StandsForPendingWrites, IsChangedTo};

use cell_base::Memory;
use history_core::Event;
use std::alloc::Global;

/// The places of the writes of the transaction that is pending in a session; none where nothing is pending.
#[derive(Debug, Drop)]
pub struct PendingWrites {
    pub places: Vec<u32>,
}

/// Notes of the event what it changes for the writes that are pending in its session. `lists` has one for each session.
pub fn note_pending(
    alloc: Global,
    lists: &mut Vec<PendingWrites>,
    before: &[Event],
    event: &Event,
) -> Result<(), Memory>
    requires lists { StandsForPendingWrites before.now lists.old.items }
    requires sessions { AreOfSessions before.now }
    requires shape { IsInShape before.now event.now }
    requires few { length before.now < 4294967295 }
    ensures { OnOk result (StandsForPendingWrites (before.now ++ event.now ∷ []) lists.new.items) }
{
    match event {
        Event::Open { .. } => {
            lists.push(PendingWrites {
                places: Vec::new(alloc),
            })?;
            Ok(())
        }
        Event::Write { session, .. } => add_place(lists, *session, before.len() as u32),
        Event::Commit { session } => {
            clear_pending(lists, *session);
            Ok(())
        }
        Event::Rollback { session } => {
            clear_pending(lists, *session);
            Ok(())
        }
        _ => Ok(()),
    }
}

/// Adds the place to those of the session.
pub fn add_place(lists: &mut Vec<PendingWrites>, session: u32, place: u32) -> Result<(), Memory>
    requires some { 0 < session }
    requires opened { session ≤ length lists.old.items }
    ensures { OnOk result (IsChangedTo lists.old.items session (λ old new. new ≡ old ++ place ∷ []) lists.new.items) }
{
    lists[session as usize - 1].places.push(place)?;
    Ok(())
}

/// Leaves no place to the session, and the room that it has.
pub fn clear_pending(lists: &mut Vec<PendingWrites>, session: u32)
    requires some { 0 < session }
    requires opened { session ≤ length lists.old.items }
    ensures { IsChangedTo lists.old.items session (λ old new. new ≡ []) lists.new.items }
{
    lists[session as usize - 1].places.clear();
}
