// What holds of the program where no fault is counted.
ghost use Rattle.program_laws.specs.Visits.{VisitsAreComplete};
ghost use Rattle.program_laws.specs.Programs.{PipedAreComplete, PipesAreComplete, ServersAreComplete, ServeRunsAreComplete};
ghost use Rattle.program_laws.specs.Checking.{OneVerdict, ZeroIsRight, LegalLogsAreRight, WrittenLogsAreLegal, LegalLogsCheck, ChecksAreComplete, CheckRunsAreComplete, CheckRunsAreExact};
ghost use Rattle.program_laws.specs.CutLogs.{CutLogsAreNoLogs, CutLogsAreCut, CutLogsHaveFaults, FailedWritesLeaveCutLogs, CutLogsCheck};
ghost use Rattle.program_laws.specs.Simulating.{SimulationsAreComplete, SimRunsAreComplete};
ghost use Rattle.program_laws.specs.Statuses.{StatusesHaveCauses};

use history_book::Words;

/// `pipe` over a link that tells its bytes and counts no fault, whose bytes are all that a client has to say and fewer than the most that is read:
/// all that its session was told was written, and the status is 0, where the session ended as it was to, or 5. So is the status of the whole
/// program with the words `pipe LEVEL WORDS`, where the host gives a link and tells it beforehand.
pub fn pipes_are_complete()
    ensures piped { PipedAreComplete }
    ensures program { PipesAreComplete }
{}

/// The links that a worker serves one after another: each whose client says all that it has to say, over a link that tells its bytes and counts no
/// fault, is served to its own end, whatever became of those before it.
pub fn visits_are_complete<W: Words>()
    ensures { VisitsAreComplete W.gives }
{}

/// The status of `serve` is 0 or 5; or the network, a door, the host, a file or the output counted a fault; or the setup that was asked for is at
/// fault. So it is of the whole program with the words `serve` and its options.
pub fn servers_are_complete()
    ensures serve { ServersAreComplete }
    ensures program { ServeRunsAreComplete }
{}

/// A text has one verdict: one line and one status, which is 0 exactly where the text, of at most 268,435,456 bytes, is the log of a history that
/// has no breach.
pub fn verdicts_are_exact()
    ensures one { OneVerdict }
    ensures zero { ZeroIsRight }
{}

/// `check PATH` reads the whole file and prints the line of all its bytes, and its status, 0 or 1, is that of this line; or it is 5. So is that of
/// the whole program with these words; and where the host tells the file's bytes, the line and the status are those of the verdict on them.
pub fn checks_are_complete()
    ensures check { ChecksAreComplete }
    ensures program { CheckRunsAreComplete }
    ensures exact { CheckRunsAreExact }
{}

/// The log of a legal history, with an order that meets it, has the verdict `ok`; what `serve` or `sim` wrote whole as the log of its history is one,
/// where it has at most 268,435,456 bytes; and the whole program, with the words `check PATH` and a host that tells such a file's bytes, prints `ok` with
/// status 0, or the status is 5.
pub fn own_logs_are_right()
    ensures verdict { LegalLogsAreRight }
    ensures written { WrittenLogsAreLegal }
    ensures program { LegalLogsCheck }
{}

/// A text that is the beginning of a log, and lacks one byte of it at least, is no log. With at most 268,435,456 bytes it has the fault `Cut` and the
/// verdict `log fault: cut`, with more `log fault: too long`, and status 1. What a failed write of the log of `serve` or `sim` left in the file is the
/// whole log or such a text. The whole program, with the words `check PATH` and a host that tells such a file's bytes, prints that line with status 1,
/// or the status is 5.
pub fn cut_logs_have_faults()
    ensures no_log { CutLogsAreNoLogs }
    ensures fault { CutLogsAreCut }
    ensures verdict { CutLogsHaveFaults }
    ensures left { FailedWritesLeaveCutLogs }
    ensures program { CutLogsCheck }
{}

/// `sim LEVEL SEED SESSIONS QUERIES` serves all clients of the seed to their ends, writes the log of their history, where one is asked for, and
/// prints its line, with status 0; or the status is 5. So it is of the whole program with these words.
pub fn simulations_are_complete()
    ensures sim { SimulationsAreComplete }
    ensures program { SimRunsAreComplete }
{}

/// Whatever the words of the command line: the status is 1 only where what came in is to blame, 2 only for words that are no command, 3 and 4 only
/// where a read or a write was counted as failed, 6 only where a call of the host or the network was, or a door counted a failed accept; and it is
/// never above 6.
pub fn statuses_have_causes()
    ensures { StatusesHaveCauses }
{}
