// The program.
ghost use Rattle.std.specs.Prelude.{◌≡◌, ◌≤◌, ℕ, List, IfOk};
ghost use Rattle.link_traits.specs.Host.{objects_out};
ghost use Rattle.sim_command.specs.Simulations.{Simulates};
ghost use Rattle.command_line.specs.Commands.{IsCommandLine};
ghost use Rattle.host_calls.specs.Printing.{Printed};
ghost use Rattle.check_command.specs.Checks.{Checks};
ghost use Rattle.check_command.specs.Judges.{Judges};
ghost use Rattle.command_help.specs.Texts.{help_of, version_line};
ghost use Rattle.monkey_server.specs.Program.{no_past, usage_line, status_of, ServesAlone, Pipes, Stops, Obeys, Does};
ghost use Rattle.link_traits.specs.Traffic.{sight_of};

use crate::telling::{tell_end, tell_file, tell_output, tell_sim, tell_words};
use cell_base::{Items, Level, Memory, Text};
use check_command::{check_file, check_file_wide, judge_file};
use choice_stream::ListWords;
use command_help::{help_text, version_text};
use command_line::{CommandLine, PipeCommand, SimPlan, Topic, read_command};
use doors::Network;
use history_core::InitialState;
use host_calls::{Object, Status, print, tell_fault, tell_memory};
use link_traits::{Host, HostFault, Link};
use serve_command::serve;
use session_core::{End, Served, serve_link};
use sim_command::{Plan, simulate};
use std::alloc::Global;
use std::sync::Wait;
use std::thread::Threads;
use valid_writes::{SeatBook, Store};

const USAGE: &str =
    "usage: monkeydb pipe LEVEL WORDS | serve [OPTIONS] | check [--wide] PATH | sim LEVEL SEED SESSIONS QUERIES | stop [ADDRESS] | judge PATH\n";

// The status of what became of a session.
fn status_for(served: Served) -> Status
    ensures { result.code ≡ status_of served.end served.short }
{
    if served.short {
        return Status { code: 5 };
    }
    let code = match served.end {
        End::Terminated | End::Closed | End::Cancelled => 0,
        End::ReadFault => 3,
        End::WriteFault => 4,
        End::Memory => 5,
        End::Cut | End::Protocol(_) | End::Refused(_) | End::Spent => 1,
    };
    Status { code }
}

// Serves one session at a level over a link, on a book that has no event, and lets go of the book.
fn serve_alone<L: Link>(
    alloc: Global,
    level: Level,
    mut book: SeatBook,
    link: &mut L,
    words: Items<u32>,
) -> Served
    requires { book ≡ no_past level }
    ensures { ServesAlone level words (sight_of L.traffic L.read_faults L.write_faults link.old) result (sight_of L.traffic L.read_faults L.write_faults link.new) }
{
    let mut words = ListWords::new(words);
    let served = serve_link(alloc, level, &mut book, link, &mut words);
    // Only for its contract: the history is legal.
    let _ = book.history();
    served
}

// The book of a new history at a level, without a row and without an event.
fn new_book(alloc: Global, level: Level) -> Result<SeatBook, Memory>
    ensures { IfOk result (λ book. book ≡ no_past level) }
{
    let store = Store::new(alloc, level, InitialState::empty(alloc))?;
    Ok(store.seat(None))
}

// Serves one session over the standard link.
fn pipe<R: Eprint, H: Host>(rt: &R, alloc: Global, host: &mut H, command: PipeCommand) -> Status
    requires { objects_out (H.hosted host.old) ≡ 0 }
    ensures pipes { Pipes command.level command.words (H.hosted host.old) result.code (H.hosted host.new) }
    ensures none_out { objects_out (H.hosted host.new) ≡ 0 }
{
    let PipeCommand { level, words } = command;
    let book = match new_book(alloc, level) {
        Ok(book) => book,
        Err(Memory) => {
            tell_memory(rt, "pipe");
            return Status { code: 5 };
        }
    };
    let mut link = match host.standard_link() {
        Ok(link) => link,
        Err(HostFault::Failed) => {
            let streams = Object::named("standard input and output");
            tell_fault(
                rt,
                alloc,
                "pipe",
                streams,
                host.reason(),
                "they can't be had",
            );
            return Status { code: 6 };
        }
        Err(HostFault::Memory) => {
            tell_memory(rt, "pipe");
            return Status { code: 5 };
        }
    };
    let served = serve_alone(alloc, level, book, &mut link, words);
    host.link_back(link);
    tell_end(rt, alloc, host.reason(), served);
    status_for(served)
}

// Checks the log of a file, on several threads where that is asked for.
fn check_log<R: Threads + Sync, H: Host>(
    rt: &R,
    alloc: Global,
    host: &mut H,
    path: &Text,
    wide: bool,
) -> Status
    requires none_out { objects_out (H.hosted host.old) ≡ 0 }
    ensures checks { Checks path.now (H.hosted host.old) result.code (H.hosted host.new) }
    ensures none_out { objects_out (H.hosted host.new) ≡ 0 }
{
    if wide {
        return check_file_wide(rt, alloc, host, path);
    }
    check_file(alloc, host, path)
}

// Checks the log of a file, and tells why that couldn't be done.
fn check<R: Threads + Eprint + Sync, H: Host>(
    rt: &R,
    alloc: Global,
    host: &mut H,
    path: &Text,
    wide: bool,
) -> Status
    requires none_out { objects_out (H.hosted host.old) ≡ 0 }
    ensures checks { Checks path.now (H.hosted host.old) result.code (H.hosted host.new) }
    ensures none_out { objects_out (H.hosted host.new) ≡ 0 }
{
    let status = check_log(rt, alloc, host, path, wide);
    tell_file(rt, alloc, "check", path, host.reason(), status);
    status
}

// Judges the log of a file, and tells why that couldn't be done.
fn judge<R: Eprint, H: Host>(rt: &R, alloc: Global, host: &mut H, path: &Text) -> Status
    requires none_out { objects_out (H.hosted host.old) ≡ 0 }
    ensures judges { Judges path.now (H.hosted host.old) result.code (H.hosted host.new) }
    ensures none_out { objects_out (H.hosted host.new) ≡ 0 }
{
    let status = judge_file(alloc, host, path);
    tell_file(rt, alloc, "judge", path, host.reason(), status);
    status
}

// Simulates many sessions.
fn sim<R: Eprint, H: Host>(rt: &R, alloc: Global, host: &mut H, wanted: &SimPlan) -> Status
    requires sessions { wanted.now.sessions ≤ 64 }
    requires queries { wanted.now.queries ≤ 200 }
    requires none_out { objects_out (H.hosted host.old) ≡ 0 }
    ensures simulates { Simulates wanted.now.level wanted.now.seed wanted.now.sessions wanted.now.queries wanted.now.log (H.hosted host.old) result.code (H.hosted host.new) }
    ensures none_out { objects_out (H.hosted host.new) ≡ 0 }
{
    let plan = Plan {
        level: wanted.level,
        seed: wanted.seed,
        sessions: wanted.sessions,
        queries: wanted.queries,
    };
    let status = simulate(alloc, host, plan, &wanted.log);
    tell_sim(rt, alloc, &wanted.log, host.reason(), status);
    status
}

// Asks a server to stop.
fn stop<R: Eprint, N: Network>(rt: &R, network: &mut N, address: &Text) -> Status
    ensures { Stops address.now (N.networked network.old) result.code (N.networked network.new) }
{
    match network.ask_to_stop(address) {
        Ok(()) => Status { code: 0 },
        // The network has told why.
        Err(HostFault::Failed) => Status { code: 6 },
        Err(HostFault::Memory) => {
            tell_memory(rt, "stop");
            Status { code: 5 }
        }
    }
}

// Prints a text, and tells where it couldn't be written whole.
fn say<R: Eprint, H: Host>(rt: &R, alloc: Global, host: &mut H, text: &str, whole: Status) -> Status
    requires none_out { objects_out (H.hosted host.old) ≡ 0 }
    ensures printed { Printed text.now whole.code (H.hosted host.old) result.code (H.hosted host.new) }
    ensures none_out { objects_out (H.hosted host.new) ≡ 0 }
{
    let status = print(host, text.as_bytes(), whole);
    tell_output(rt, alloc, host.reason(), status);
    status
}

// Prints what is to be known of the program or a command.
fn help<R: Eprint, H: Host>(rt: &R, alloc: Global, host: &mut H, topic: Topic) -> Status
    requires none_out { objects_out (H.hosted host.old) ≡ 0 }
    ensures printed { Printed (help_of topic) 0 (H.hosted host.old) result.code (H.hosted host.new) }
    ensures none_out { objects_out (H.hosted host.new) ≡ 0 }
{
    say(rt, alloc, host, help_text(topic), Status { code: 0 })
}

// Prints the version.
fn version<R: Eprint, H: Host>(rt: &R, alloc: Global, host: &mut H) -> Status
    requires none_out { objects_out (H.hosted host.old) ≡ 0 }
    ensures printed { Printed version_line 0 (H.hosted host.old) result.code (H.hosted host.new) }
    ensures none_out { objects_out (H.hosted host.new) ≡ 0 }
{
    say(rt, alloc, host, version_text(), Status { code: 0 })
}

// Prints the usage line.
fn print_usage<R: Eprint, H: Host>(rt: &R, alloc: Global, host: &mut H) -> Status
    requires none_out { objects_out (H.hosted host.old) ≡ 0 }
    ensures printed { Printed usage_line 2 (H.hosted host.old) result.code (H.hosted host.new) }
    ensures none_out { objects_out (H.hosted host.new) ≡ 0 }
{
    say(rt, alloc, host, USAGE, Status { code: 2 })
}

// Does what the command says.
#[tactic(auto, using(crate::proofs::Bounds::serve_bounded))]
fn obey<R: Threads + Wait + Eprint + Sync, H: Host, N: Network>(
    rt: &R,
    alloc: Global,
    host: &mut H,
    network: &mut N,
    line: CommandLine,
) -> Status
    requires line { (args : List (List ℕ)) × IsCommandLine args line }
    requires none_out { objects_out (H.hosted host.old) ≡ 0 }
    ensures obeys { Obeys line (N.networked network.old) (H.hosted host.old) result.code (N.networked network.new) (H.hosted host.new) }
    ensures none_out { objects_out (H.hosted host.new) ≡ 0 }
{
    match line {
        CommandLine::Pipe(command) => pipe(rt, alloc, host, command),
        CommandLine::Serve(options) => serve(rt, alloc, host, network, &options),
        CommandLine::Check { path, wide } => check(rt, alloc, host, &path, wide),
        CommandLine::Judge { path } => judge(rt, alloc, host, &path),
        CommandLine::Sim(plan) => sim(rt, alloc, host, &plan),
        CommandLine::Stop { address } => stop(rt, network, &address),
        CommandLine::Help(topic) => help(rt, alloc, host, topic),
        CommandLine::Version => version(rt, alloc, host),
        CommandLine::Unknown => print_usage(rt, alloc, host),
    }
}

/// Does all that the program does with the words of its command line, its own name left out. `pipe LEVEL WORDS` serves one
/// session over the host's standard link, at Read Committed (`rc`), Read Atomic (`ra`) or Causal Consistency (`cc`), with the numbers of
/// WORDS as the choice words and 0 after them; `serve` serves the links that come in at an address of the network, each as a session over one
/// history; `check PATH` reads the log of a file and prints `ok`, the first breach of its history, or why it is no log, and `check --wide PATH` does
/// the same on several threads; `judge PATH` prints the strongest level that the history of a log meets, with what proves that; `sim LEVEL SEED
/// SESSIONS QUERIES` simulates sessions whose queries and choices are drawn from a seed, and prints a summary of their history; `stop` asks the
/// server at an address to stop; `help`, `--help`, `COMMAND --help` and `--version` print what they ask for; other words print the usage line.
///
/// The status is 0 where the session ended well or was a cancel request, for a server that ended, for `ok`, for a level that a history meets, for a
/// summary, for help and the version, and for a request to stop that was sent; 1 where its input was cut short or was no messages, where its start was refused, or where more bytes were wanted than are read, for
/// a breach or a fault of a log, where the setup of a server failed or left too much, and where a simulation made 4,294,967,295 steps without coming
/// to its end; 2 for the usage line; 3 where reading failed; 4 where writing failed; 5 where memory ran out; and 6 where the host counted that it
/// gave no link or file, or the network that it opened no doors or sent no request, or where accepting a link failed. Where the status isn't 0, one
/// line tells the cause: on the output what a check or a judge found, and else on standard error.
pub fn monkey_main<R: Threads + Wait + Eprint + Sync, H: Host, N: Network>(
    rt: &R,
    alloc: Global,
    host: &mut H,
    network: &mut N,
    words: &[Text],
) -> Status
    requires { objects_out (H.hosted host.old) ≡ 0 }
    ensures does { Does words.now (N.networked network.old) (H.hosted host.old) result.code (N.networked network.new) (H.hosted host.new) }
    ensures none_out { objects_out (H.hosted host.new) ≡ 0 }
{
    match read_command(alloc, words) {
        Ok(line) => {
            tell_words(rt, alloc, &line, words);
            obey(rt, alloc, host, network, line)
        }
        Err(Memory) => {
            tell_memory(rt, "monkeydb");
            Status { code: 5 }
        }
    }
}
