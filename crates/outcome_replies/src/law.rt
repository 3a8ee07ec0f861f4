// What a statement with types comes to can be told.
ghost use Rattle.outcome_replies.specs.Laws.{OutcomesCanBeTold};

/// Over sound tables, each statement with plain names that has types comes to something that fits messages: columns that can be
/// described, and rows of at most 1,664 values whose messages aren't too long.
pub fn outcomes_can_be_told()
    ensures { OutcomesCanBeTold }
{}
