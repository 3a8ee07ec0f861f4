// What the book of a worker saw before its last call.
ghost use Rattle.history_core.specs.Chronicle.{Chronicle};
ghost use Rattle.shared_book.specs.Fronts.{IsFrontOf};
ghost use Rattle.serve_command.specs.Earlier.{BeginsAs, CallsBeginAs, VisitsBeginAs};

/// What the book of a worker saw at each call and at each link is the beginning of the history of which what it saw last is a front: a book's
/// calls only add to what it has seen.
pub fn earlier_sights_begin_the_history()
    ensures front { (seen history : Chronicle) → IsFrontOf seen history → BeginsAs seen history }
    ensures calls { CallsBeginAs }
    ensures visits { VisitsBeginAs }
{}
