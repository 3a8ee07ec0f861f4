// The command that the words of the command line are.
ghost use Rattle.std.specs.Prelude.{List, IfOk, IfSome, IsNone};
ghost use Rattle.clap.specs.Words.{Text as Bytes};
ghost use Rattle.command_line.specs.Commands.{Says, AsksAboutProgram, IsCommandLine, OneCommand, PlainPipe, PlainCheck, PlainJudge, PlainSim, PlainServe, PlainStop};

use crate::arguments::{Name, name_of};
use crate::check::{is_wide, path_of};
use crate::pipe::{PipeCommand, pipe_of};
use crate::question::{Topic, is_version, topic_of};
use crate::said::{Said, said_of, strs};
use crate::serve::{ServeOptions, serve_of};
use crate::sim::{SimPlan, sim_of};
use crate::stop::stop_of;
use cell_base::{Memory, Text};
use std::alloc::Global;

/// A command with what its words say.
#[derive(Debug, Drop)]
pub enum CommandLine {
    /// `pipe LEVEL WORDS`.
    Pipe(PipeCommand),
    /// `serve` with its options.
    Serve(ServeOptions),
    /// `check [--wide] PATH`.
    Check { path: Text, wide: bool },
    /// `judge PATH`.
    Judge { path: Text },
    /// `sim LEVEL SEED SESSIONS QUERIES`.
    Sim(SimPlan),
    /// `stop [ADDRESS]`.
    Stop { address: Text },
    /// `help`, `--help` or `COMMAND --help`.
    Help(Topic),
    /// `--version`.
    Version,
    /// The words are no command.
    Unknown,
}

// What the words give for `pipe`.
fn pipe_line(alloc: Global, said: &Said) -> Result<CommandLine, Memory>
    ensures { IfOk result (λ line. (args : List Bytes) → ¬ (AsksAboutProgram args) → Says Name.Pipe args said.now → IsCommandLine args line) }
{
    match pipe_of(alloc, said)? {
        Some(pipe) => Ok(CommandLine::Pipe(pipe)),
        None => Ok(CommandLine::Unknown),
    }
}

// What the words give for `serve`.
fn serve_line(alloc: Global, said: &Said) -> Result<CommandLine, Memory>
    ensures { IfOk result (λ line. (args : List Bytes) → ¬ (AsksAboutProgram args) → Says Name.Serve args said.now → IsCommandLine args line) }
{
    match serve_of(alloc, said)? {
        Some(options) => Ok(CommandLine::Serve(options)),
        None => Ok(CommandLine::Unknown),
    }
}

// What the words give for `check`.
fn check_line(alloc: Global, said: &Said) -> Result<CommandLine, Memory>
    ensures { IfOk result (λ line. (args : List Bytes) → ¬ (AsksAboutProgram args) → Says Name.Check args said.now → IsCommandLine args line) }
{
    match path_of(alloc, said)? {
        Some(path) => Ok(CommandLine::Check {
            path,
            wide: is_wide(said),
        }),
        None => Ok(CommandLine::Unknown),
    }
}

// What the words give for `judge`.
fn judge_line(alloc: Global, said: &Said) -> Result<CommandLine, Memory>
    ensures { IfOk result (λ line. (args : List Bytes) → ¬ (AsksAboutProgram args) → Says Name.Judge args said.now → IsCommandLine args line) }
{
    match path_of(alloc, said)? {
        Some(path) => Ok(CommandLine::Judge { path }),
        None => Ok(CommandLine::Unknown),
    }
}

// What the words give for `sim`.
fn sim_line(alloc: Global, said: &Said) -> Result<CommandLine, Memory>
    ensures { IfOk result (λ line. (args : List Bytes) → ¬ (AsksAboutProgram args) → Says Name.Sim args said.now → IsCommandLine args line) }
{
    match sim_of(alloc, said)? {
        Some(plan) => Ok(CommandLine::Sim(plan)),
        None => Ok(CommandLine::Unknown),
    }
}

// What the words give for `stop`.
fn stop_line(alloc: Global, said: &Said) -> Result<CommandLine, Memory>
    ensures { IfOk result (λ line. (args : List Bytes) → ¬ (AsksAboutProgram args) → Says Name.Stop args said.now → IsCommandLine args line) }
{
    let address = stop_of(alloc, said)?;
    Ok(CommandLine::Stop { address })
}

// What the words after the name give for the command.
fn line_of(alloc: Global, name: Name, said: &Said) -> Result<CommandLine, Memory>
    ensures { IfOk result (λ line. (args : List Bytes) → ¬ (AsksAboutProgram args) → Says name args said.now → IsCommandLine args line) }
{
    match name {
        Name::Pipe => pipe_line(alloc, said),
        Name::Serve => serve_line(alloc, said),
        Name::Check => check_line(alloc, said),
        Name::Judge => judge_line(alloc, said),
        Name::Sim => sim_line(alloc, said),
        Name::Stop => stop_line(alloc, said),
    }
}

// What the words ask about the program itself.
fn question_of(args: &[Text]) -> Option<CommandLine>
    ensures some { IfSome result (IsCommandLine args.now) }
    ensures none { IsNone result → ¬ (AsksAboutProgram args.now) }
{
    if let Some(topic) = topic_of(args) {
        return Some(CommandLine::Help(topic));
    }
    if is_version(args) {
        Some(CommandLine::Version)
    } else {
        None
    }
}

// The command that words are which ask nothing about the program itself.
fn command_line_of(alloc: Global, args: &[Text]) -> Result<CommandLine, Memory>
    requires { ¬ (AsksAboutProgram args.now) }
    ensures { IfOk result (IsCommandLine args.now) }
{
    let Some((name, words)) = name_of(args) else {
        return Ok(CommandLine::Unknown);
    };
    let strs = strs(alloc, words)?;
    match said_of(alloc, name, strs.as_slice())? {
        Some(said) => line_of(alloc, name, &said),
        None => Ok(CommandLine::Unknown),
    }
}

/// The command that the words are. `Unknown` comes exactly where they are none, and an error where memory ran out.
pub fn read_command(alloc: Global, args: &[Text]) -> Result<CommandLine, Memory>
    ensures { IfOk result (IsCommandLine args.now) }
{
    match question_of(args) {
        Some(line) => Ok(line),
        None => command_line_of(alloc, args),
    }
}

/// The same words are one command, so it is the words alone that say which one is read.
pub fn one_command()
    ensures { OneCommand }
{}

/// The commands in their plain form: places in their order, `serve` without values, and `stop` with an address and without.
pub fn plain_words()
    ensures pipe { PlainPipe }
    ensures check { PlainCheck }
    ensures judge { PlainJudge }
    ensures sim { PlainSim }
    ensures serve { PlainServe }
    ensures stop { PlainStop }
{}
