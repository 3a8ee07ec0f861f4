// The notes with one event more.
ghost use Rattle.std.specs.Prelude.{◌≡◌, ◌<◌, ◌+◌, ◌∷◌, ◌++◌, [], length, OnOk};
ghost use Rattle.history_core.specs.Events.{begun, session_in, defined};
ghost use Rattle.cell_writers.specs.Numbered.{AreNumbered};
ghost use Rattle.history_check.specs.Rules.{IsInShape, HasSource};
ghost use Rattle.history_check.specs.Notes.{AreNotes, AreCellNotes};

use crate::commits::note_commit;
use crate::notes::{Notes, pending_in};
use crate::pending_writes::note_pending;
use crate::session_notes::note_session;
use crate::writers::{note_cells, note_written};
use cell_base::Memory;
use cell_writers::CellNotes;
use history_core::Event;

/// Notes the event, which the state of its session allows, and which reads from a source that there is.
pub fn note(
    notes: &mut Notes,
    cells: &mut CellNotes,
    before: &[Event],
    event: &Event,
) -> Result<(), Memory>
    requires notes { AreNotes before.now notes.old }
    requires cells { AreCellNotes before.now cells.old }
    requires numbered { AreNumbered (before.now ++ event.now ∷ []) cells.old.numbers }
    requires shape { IsInShape before.now event.now }
    requires source { HasSource before.now event.now }
    requires few { length before.now < 4294967295 }
    ensures numbers { cells.new.numbers ≡ cells.old.numbers }
    ensures notes { OnOk result (AreNotes (before.now ++ event.now ∷ []) notes.new) }
    ensures cells { OnOk result (AreCellNotes (before.now ++ event.now ∷ []) cells.new) }
{
    let owner = pending_in(notes, before, session_of(event));
    note_cells(cells, &notes.pending, before, event, owner)?;
    note_pending(notes.alloc, &mut notes.pending, before, event)?;
    note_session(&mut notes.session_notes, before, event, notes.begun)?;
    note_commit(&mut notes.committed, before, event, owner)?;
    note_written(&mut notes.keys, before, event)?;
    notes.begun += begins(event);
    notes.tables += definitions(event);
    Ok(())
}

/// The session that made the event.
pub fn session_of(event: &Event) -> u32
    ensures { result ≡ session_in event.now }
{
    match event {
        Event::Open { session } => *session,
        Event::Close { session } => *session,
        Event::Define { session, .. } => *session,
        Event::Look { session, .. } => *session,
        Event::Begin { session, .. } => *session,
        Event::Scan { session, .. } => *session,
        Event::Read { session, .. } => *session,
        Event::Own { session, .. } => *session,
        Event::Write { session, .. } => *session,
        Event::Commit { session } => *session,
        Event::Rollback { session } => *session,
        Event::Show { session, .. } => *session,
    }
}

/// How many tables the event defines: one or none.
fn definitions(event: &Event) -> u32
    ensures value { result ≡ defined (event.now ∷ []) }
    ensures small { result < 2 }
{
    match event {
        Event::Define { .. } => 1,
        Event::Open { .. } => 0,
        Event::Close { .. } => 0,
        Event::Look { .. } => 0,
        Event::Begin { .. } => 0,
        Event::Scan { .. } => 0,
        Event::Read { .. } => 0,
        Event::Own { .. } => 0,
        Event::Write { .. } => 0,
        Event::Commit { .. } => 0,
        Event::Rollback { .. } => 0,
        Event::Show { .. } => 0,
    }
}

/// How many transactions the event begins: one or none.
fn begins(event: &Event) -> u32
    ensures value { result ≡ begun (event.now ∷ []) }
    ensures small { result < 2 }
{
    match event {
        Event::Begin { .. } => 1,
        Event::Open { .. } => 0,
        Event::Close { .. } => 0,
        Event::Define { .. } => 0,
        Event::Look { .. } => 0,
        Event::Scan { .. } => 0,
        Event::Read { .. } => 0,
        Event::Own { .. } => 0,
        Event::Write { .. } => 0,
        Event::Commit { .. } => 0,
        Event::Rollback { .. } => 0,
        Event::Show { .. } => 0,
    }
}
