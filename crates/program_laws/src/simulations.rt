// What holds of the numbers of calls.
ghost use Rattle.program_laws.specs.Free.{FreeCallsAreFew};
ghost use Rattle.program_laws.specs.Ending.{SimulationsEnd};

/// Of the calls of a session those that add no load to the history, which were refused or ended a transaction or the session, are at most two, and
/// three for each message of its client, and two for each statement of a query.
pub fn free_calls_are_few()
    ensures { FreeCallsAreFew }
{}

/// No simulation of at most 64 sessions with at most 200 queries each is cut off.
pub fn simulations_end()
    ensures { SimulationsEnd }
{}
