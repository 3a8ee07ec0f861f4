// What holds where memory runs out.
ghost use Rattle.session_laws.specs.Telling.{RepliesComeBeforeLacks, RepliesComeBeforeRefusals};

/// Where a table was defined, or a transaction was committed or rolled back, the reply that tells it to the client comes before any later lack of
/// memory, of the session itself or of its book. A session that is ending is no exception: after the rollback that it owes no lack of memory is
/// heard, and its Close can't be refused.
pub fn replies_come_first()
    ensures lacks { RepliesComeBeforeLacks }
    ensures refusals { RepliesComeBeforeRefusals }
{}
