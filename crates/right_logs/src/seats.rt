// What the notes of the sessions say.
ghost use Rattle.std.specs.Prelude.{◌≡◌, None, IsTrue, IfSome};
ghost use Rattle.right_logs.specs.Seats.{IsNotedAt, IsOpenIn, IsIdleIn, IsPendingIn};

use history_check::SessionNote;

/// The note of the session. `None` where it was never opened.
fn note_of(notes: &[SessionNote], session: u32) -> Option<SessionNote>
    ensures { IfSome result (IsNotedAt notes.now session) }
{
    if session == 0 {
        return None;
    }
    if session as usize > notes.len() {
        return None;
    }
    Some(notes[session as usize - 1])
}

/// Whether the session is open.
pub fn is_open(notes: &[SessionNote], session: u32) -> bool
    ensures { IsTrue result → IsOpenIn notes.now session }
{
    match note_of(notes, session) {
        Some(note) => note.is_open,
        None => false,
    }
}

/// Whether nothing is pending by the note.
fn is_free(note: SessionNote) -> bool
    ensures { IsTrue result → note.pending ≡ None }
{
    match note.pending {
        Some(_) => false,
        None => true,
    }
}

/// Whether the session of the note is open with nothing pending.
fn is_open_and_free(note: SessionNote) -> bool
    ensures { IsTrue result → IsTrue note.is_open × (note.pending ≡ None) }
{
    note.is_open && is_free(note)
}

/// Whether the session is open with nothing pending.
pub fn is_idle(notes: &[SessionNote], session: u32) -> bool
    ensures { IsTrue result → IsIdleIn notes.now session }
{
    match note_of(notes, session) {
        Some(note) => is_open_and_free(note),
        None => false,
    }
}

/// What is pending in the session.
pub fn pending_of(notes: &[SessionNote], session: u32) -> Option<u32>
    ensures { IfSome result (IsPendingIn notes.now session) }
{
    match note_of(notes, session) {
        Some(note) => note.pending,
        None => None,
    }
}
