// What bytes and words determine.
ghost use Rattle.program_laws.specs.OneHistory.{OneHistory, PipeHasOneHistory, ProgramRunsAreAlike};

/// Two sessions at one level that took the same bytes and were given the same list of choice words, each alone with its book from
/// one initial state and no event on, in neither of which memory ran out or a write failed, have the same history and leave the same words. They end
/// alike and were told the same bytes, but where both ended for lack of bytes and a failed read or the limit of bytes ended one of
/// them: there the ends may differ, and what was told differs by what the two ends tell alone. The same holds where the second took
/// more bytes and the first didn't end for lack of them; such two always end alike.
pub fn bytes_have_one_history()
    ensures { OneHistory }
{}

/// Two runs of the program over links that tell their bytes and hold the same input, however they cut it into pieces, in neither of
/// which memory ran out or a read or a write failed, have the same history, leave the same words, end alike and were told the
/// same bytes.
pub fn pipe_has_one_history()
    ensures { PipeHasOneHistory }
{}

/// Two runs of the program with the same words `pipe LEVEL WORDS`, in any two hosts that tell beforehand links with the same
/// input: where the status of each is 0 or 1, the two have the same status, and wrote the same bytes.
pub fn program_runs_are_alike()
    ensures { ProgramRunsAreAlike }
{}
