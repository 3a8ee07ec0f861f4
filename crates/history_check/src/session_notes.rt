// How the notes of the sessions follow the events.
ghost use Rattle.std.specs.Prelude.{◌≡◌, ◌≤◌, ◌<◌, ◌+◌, ◌∷◌, ◌++◌, [], ℕ, Some, length, OnOk};
ghost use Rattle.history_core.specs.declared.event.Event.{Event};
ghost use Rattle.history_core.specs.Events.{begun, session_in, opened};
ghost use Rattle.history_core.specs.Kept.{ChangesOne};
ghost use Rattle.history_check.specs.Rules.{IsInShape};
ghost use Rattle.history_check.specs.Notes.{AreOfSessions, StandsForSessionNotes, TakesPending, IsClosed};

use crate::session_note::SessionNote;
use cell_base::Memory;
use history_core::Event;

/// Notes of the event what it changes for its session. `started` transactions have begun before it.
pub fn note_session(
    session_notes: &mut Vec<SessionNote>,
    before: &[Event],
    event: &Event,
    started: u32,
) -> Result<(), Memory>
    requires session_notes { StandsForSessionNotes before.now session_notes.old.items }
    requires sessions { AreOfSessions before.now }
    requires shape { IsInShape before.now event.now }
    requires started { started ≡ begun before.now }
    requires few { started < 4294967295 }
    ensures { OnOk result (StandsForSessionNotes (before.now ++ event.now ∷ []) session_notes.new.items) }
{
    match event {
        Event::Open { .. } => session_notes.push(SessionNote {
            is_open: true,
            pending: None,
        })?,
        Event::Close { session } => close_session(session_notes, *session),
        Event::Begin { session, .. } => set_pending(session_notes, *session, Some(started + 1)),
        Event::Commit { session } => set_pending(session_notes, *session, None),
        Event::Rollback { session } => set_pending(session_notes, *session, None),
        Event::Define { .. } => {}
        Event::Look { .. } => {}
        Event::Scan { .. } => {}
        Event::Read { .. } => {}
        Event::Own { .. } => {}
        Event::Write { .. } => {}
        Event::Show { .. } => {}
    }
    Ok(())
}

/// Sets what is pending in the session.
pub fn set_pending(session_notes: &mut Vec<SessionNote>, session: u32, pending: Option<u32>)
    requires some { 0 < session }
    requires opened { session ≤ length session_notes.old.items }
    ensures { TakesPending session_notes.old.items session pending session_notes.new.items }
{
    session_notes[session as usize - 1].pending = pending;
}

/// Closes the session.
pub fn close_session(session_notes: &mut Vec<SessionNote>, session: u32)
    requires some { 0 < session }
    requires opened { session ≤ length session_notes.old.items }
    ensures { IsClosed session_notes.old.items session session_notes.new.items }
{
    session_notes[session as usize - 1].is_open = false;
}
