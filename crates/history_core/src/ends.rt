// The ends of transactions and sessions, for which the room was taken before. They take no memory.
ghost use Rattle.std.specs.Prelude.{IsTrue};
ghost use Rattle.history_core.specs.declared.event.Event.{Event};
ghost use Rattle.history_core.specs.Legal.{MayCome};
ghost use Rattle.history_core.specs.Records.{is_any_end};
ghost use Rattle.history_core.specs.Kept.{IsKept, Grows, IsEndOf};

use crate::kept::{Kept, pending_index, session_index};
use crate::notes::{append, close, set_pending, set_state};
use crate::{Event, TxnState};

/// An end, of a transaction or of a session.
pub fn end_event(kept: &mut Kept, event: Event)
    requires kept { IsKept kept.old }
    requires may { MayCome kept.old.initial kept.old.events.items event }
    requires end { IsTrue (is_any_end event) }
    ensures kept { IsKept kept.new }
    ensures grows { Grows kept.old kept.new event }
{
    match event {
        Event::Commit { session } => {
            end_txn(
                kept,
                Event::Commit { session },
                session,
                TxnState::Committed,
            );
        }
        Event::Rollback { session } => {
            end_txn(
                kept,
                Event::Rollback { session },
                session,
                TxnState::RolledBack,
            );
        }
        Event::Close { session } => end_session(kept, session),
        _ => unreachable!(),
    }
}

/// The end of a transaction.
pub fn end_txn(kept: &mut Kept, event: Event, session: u32, state: TxnState)
    requires kept { IsKept kept.old }
    requires may { MayCome kept.old.initial kept.old.events.items event }
    requires ends { IsEndOf event session state }
    ensures kept { IsKept kept.new }
    ensures grows { Grows kept.old kept.new event }
{
    let at = pending_index(kept, session);
    let place = session_index(kept, session);
    set_state(&mut kept.txns, at, state);
    set_pending(&mut kept.sessions, place, None);
    append(&mut kept.events, event);
    kept.load += 1;
    kept.owed -= 1;
}

/// The end of a session.
pub fn end_session(kept: &mut Kept, session: u32)
    requires kept { IsKept kept.old }
    requires may { MayCome kept.old.initial kept.old.events.items (Event.Close session) }
    ensures kept { IsKept kept.new }
    ensures grows { Grows kept.old kept.new (Event.Close session) }
{
    let place = session_index(kept, session);
    close(&mut kept.sessions, place);
    append(&mut kept.events, Event::Close { session });
    kept.load += 1;
    kept.owed -= 1;
}
