// What a refused call of a book leaves.
ghost use Rattle.refused_calls.specs.Refused.{RefusedCallsLeaveAll};

/// A call that is refused leaves all as it was, where the book alone adds events, as a seat of a store does: the history with its events and its
/// tables, the book's own events, and where its session stands. The clauses `err`, `stays` and `legal` of the call are its premises.
pub fn refused_calls_leave_all()
    ensures { RefusedCallsLeaveAll }
{}
