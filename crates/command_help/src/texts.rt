// The texts of help, as docs/help has them.
ghost use Rattle.std.specs.Prelude.{◌≡◌, codes};
ghost use Rattle.command_help.specs.Texts.{program_help, pipe_help, serve_help, check_help, judge_help, sim_help, stop_help, help_of, version_line};

use command_line::{Name, Topic};

const PROGRAM: &str = r"monkeydb: a mock SQL server that shows what weak isolation permits

  serve [OPTIONS]                     serves many sessions over TCP, all over one history
  stop [ADDRESS]                      asks a server to end
  pipe LEVEL WORDS                    serves one session over standard input and output
  check [--wide] PATH                 checks the log of a history at the levels that it names
  judge PATH                          tells the strongest level that the history of a log meets
  sim LEVEL SEED SESSIONS QUERIES     simulates many sessions, and prints a summary

LEVEL is rc (Read Committed), ra (Read Atomic) or cc (Causal Consistency).

monkeydb COMMAND --help tells what a command is for, its options with range and default, and an example.
monkeydb --version tells the version.

The status is 0 where all went well, 1 where what came in is at fault, 2 for words that are no command, 3 where a read failed, 4 where
a write failed, 5 where memory ran out, and 6 where a file, an address or a connection couldn't be had. Each status but 0 comes with
one line that names the cause: on standard output where check or judge found something, and else on standard error.

  monkeydb serve --level cc --seed 7 --log history.log
";

const PIPE: &str = r"monkeydb pipe LEVEL WORDS: serves one session over standard input and output

  LEVEL   the level of the session: rc, ra or cc
  WORDS   the choice words, with commas between them: each from 0 to 4294967295. After the last, every further word is 0

It reads the bytes of a client's messages, and writes the server's messages. The status is 1 where the input ends inside a message or is
no messages, or where the start was refused.

  monkeydb pipe rc 1,0,2 < examples/session.bin
";

const SERVE: &str = r"monkeydb serve [OPTIONS]: serves many sessions over TCP, all over one history

  --level LEVEL      the level of sessions that set none: rc, ra or cc. Default: rc
  --seed SEED        the choice words: a number from 0 to 18446744073709551615. Default: 0
  --listen ADDRESS   where to listen: a host and a port. Default: 127.0.0.1:5433
  --workers N        how many connections are served at once: from 1 to 64. Default: 16
  --accept N         how many connections each worker serves: from 1 to 4096. Default: 64
  --setup PATH       a file of SQL whose rows are there from the start. Default: none
  --log PATH         the file for the log of the history. Default: none
  --quiet            no line on standard error but of what went wrong

At the end it prints: served S sessions T transactions E events. The status is 1 where the setup failed, and 6 where it can't listen,
where accepting a connection failed, or where the log can't be made.

  monkeydb serve --level cc --seed 7 --log history.log
";

const CHECK: &str =
    r"monkeydb check [--wide] PATH: checks the log of a history at the levels that it names

  PATH     the file of the log: at most 268435456 bytes
  --wide   checks on several threads. Default: on one

It prints ok, the first breach of the history, or why the file is no log. The status is 0 for ok, and else 1.

  monkeydb check history.log
";

const JUDGE: &str =
    r"monkeydb judge PATH: tells the strongest level that the history of a log meets, whatever level the log names

  PATH   the file of the log: at most 268435456 bytes

It prints judge cc, judge ra, judge rc or judge none; then an order that proves it, and a cycle that proves that the next level up isn't
met. The status is 0 for a level, and 1 for none, for a breach, and for a file that is no log.

  monkeydb judge history.log
";

const SIM: &str =
    r"monkeydb sim LEVEL SEED SESSIONS QUERIES: simulates many sessions, and prints a summary

  LEVEL        the level of the sessions: rc, ra or cc
  SEED         what the queries, their turns and their choices are drawn from: a number from 0 to 18446744073709551615
  SESSIONS     how many sessions there are: from 1 to 64
  QUERIES      how many queries each sends: from 1 to 200
  --log PATH   the file for the log of the history. Default: none

The same words print the same line.

  monkeydb sim cc 7 8 100 --log history.log
";

const STOP: &str = r"monkeydb stop [ADDRESS]: asks the server at an address to end

  ADDRESS   a host and a port. Default: 127.0.0.1:5433

The status is 0 where the request was sent, and 6 where it couldn't be.

  monkeydb stop 127.0.0.1:5433
";

// The line of the version.
const VERSION: &str = "monkeydb 0.1.0, logs of version 3\n";

// The help about the program.
fn program_help() -> &'static str
    ensures { result.now ≡ program_help }
{
    PROGRAM
}

// The help about `pipe`.
fn pipe_help() -> &'static str
    ensures { result.now ≡ pipe_help }
{
    PIPE
}

// The help about `serve`.
fn serve_help() -> &'static str
    ensures { result.now ≡ serve_help }
{
    SERVE
}

// The help about `check`.
fn check_help() -> &'static str
    ensures { result.now ≡ check_help }
{
    CHECK
}

// The help about `judge`.
fn judge_help() -> &'static str
    ensures { result.now ≡ judge_help }
{
    JUDGE
}

// The help about `sim`.
fn sim_help() -> &'static str
    ensures { result.now ≡ sim_help }
{
    SIM
}

// The help about `stop`.
fn stop_help() -> &'static str
    ensures { result.now ≡ stop_help }
{
    STOP
}

// The help about a command.
fn command_help(name: Name) -> &'static str
    ensures { result.now ≡ help_of (Topic.Command name) }
{
    match name {
        Name::Pipe => pipe_help(),
        Name::Serve => serve_help(),
        Name::Check => check_help(),
        Name::Judge => judge_help(),
        Name::Sim => sim_help(),
        Name::Stop => stop_help(),
    }
}

/// The help about the program or a command: what it is for, its options with range and default, and an example.
pub fn help_text(topic: Topic) -> &'static str
    ensures { result.now ≡ help_of topic }
{
    match topic {
        Topic::Program => program_help(),
        Topic::Command(name) => command_help(name),
    }
}

/// The version of the program, and of the logs that it writes.
pub fn version_text() -> &'static str
    ensures { result.now ≡ version_line }
{
    VERSION
}
