// What holds of the ends of sessions.
ghost use Rattle.session_laws.specs.Exactly.{EndsAreExact, ServedEndsAreExact, SayingEnds};

use history_book::Words;

/// A session that has ended came to the end that its client says first; or its client said none, and its bytes stopped between two messages or
/// inside of one, by a failed read or at the most that is read; or a write failed, memory ran out, or the history had no room for a session. So it
/// is of each session that is served over a link; and there an end that the client says comes, or a write failed, which was counted, memory ran
/// out, or the history had no room.
pub fn ends_are_exact<W: Words>()
    ensures told { EndsAreExact }
    ensures served { ServedEndsAreExact W.gives }
    ensures says { SayingEnds W.gives }
{}
