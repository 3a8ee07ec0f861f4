// The commands' names, and the arguments of each as a command of `clap`.
ghost use Rattle.std.specs.Prelude.{◌≡◌, ◌≢◌, ◌∷◌, List, IfOk, IfSome, IsNone, false};
ghost use Rattle.clap.specs.Words.{app_of, rule_of, with_rule, Text as Bytes};
ghost use Rattle.command_line.specs.declared.arguments.Name.{Name as Named};
ghost use Rattle.command_line.specs.Rules.{rule_for};
ghost use Rattle.command_line.specs.Arguments.{word_of, place, last_place, text_option, flag, bare, arguments_of, pipe_arguments, serve_arguments, check_arguments, judge_arguments, sim_arguments, stop_arguments};

use cell_base::{Memory, Text};
use clap::{Arg, ArgAction, Command};
use std::alloc::Global;

/// The name of a command.
#[derive(Clone, Copy, Debug, PartialEq, Eq)]
pub enum Name {
    Pipe,
    Serve,
    Check,
    Judge,
    Sim,
    Stop,
}

/// How an argument is given.
#[derive(Clone, Copy)]
pub enum Kind {
    /// By its place, which has to be there.
    Place,
    /// By its place, which may be left out.
    LastPlace,
    /// As an option that takes one text.
    Valued,
    /// As an option without a value.
    Flag,
}

// The name that the word is.
fn named(word: &str) -> Option<Name>
    ensures some { IfSome result (λ name. word.now ≡ word_of name) }
    ensures none { IsNone result → (name : Named) → word.now ≢ word_of name }
{
    if word == "pipe" {
        Some(Name::Pipe)
    } else if word == "serve" {
        Some(Name::Serve)
    } else if word == "check" {
        Some(Name::Check)
    } else if word == "judge" {
        Some(Name::Judge)
    } else if word == "sim" {
        Some(Name::Sim)
    } else if word == "stop" {
        Some(Name::Stop)
    } else {
        None
    }
}

/// The name that the first word is, and the words after it.
pub fn name_of(args: &[Text]) -> Option<(Name, &[Text])>
    ensures some { IfSome result (λ x. args.now ≡ word_of x.0 ∷ x.1.now) }
    ensures none { IsNone result → (name : Named) (words : List Bytes) → args.now ≢ word_of name ∷ words }
{
    let (first, words) = args.split_first()?;
    let name = named(first.as_str())?;
    Some((name, words))
}

// An argument by its place, which has to be there.
fn place<'a>(alloc: Global, name: &'a str) -> Arg<'a>
    ensures rule { rule_of result ≡ place name.entry.now }
    ensures local { result.global ≡ false }
{
    Arg::new(alloc, name).action(ArgAction::Set).required(true)
}

// An argument by its place, which may be left out.
fn last_place<'a>(alloc: Global, name: &'a str) -> Arg<'a>
    ensures rule { rule_of result ≡ last_place name.entry.now }
    ensures local { result.global ≡ false }
{
    Arg::new(alloc, name).action(ArgAction::Set)
}

// An option that takes one text.
fn text_option<'a>(alloc: Global, name: &'a str) -> Arg<'a>
    ensures rule { rule_of result ≡ text_option name.entry.now }
    ensures local { result.global ≡ false }
{
    Arg::new(alloc, name).long(name).action(ArgAction::Set)
}

// An option without a value.
fn flag<'a>(alloc: Global, name: &'a str) -> Arg<'a>
    ensures rule { rule_of result ≡ flag name.entry.now }
    ensures local { result.global ≡ false }
{
    Arg::new(alloc, name).long(name).action(ArgAction::SetTrue)
}

// A command without arguments.
fn bare<'a>(alloc: Global, name: &'a str) -> Command<'a>
    ensures { app_of result ≡ bare name.entry.now }
{
    Command::new(alloc, name)
        .no_binary_name(true)
        .disable_help_flag(true)
}

// An argument that is given so.
fn argument<'a>(alloc: Global, kind: Kind, name: &'a str) -> Arg<'a>
    ensures rule { rule_of result ≡ rule_for kind name.entry.now }
    ensures local { result.global ≡ false }
{
    match kind {
        Kind::Place => place(alloc, name),
        Kind::LastPlace => last_place(alloc, name),
        Kind::Valued => text_option(alloc, name),
        Kind::Flag => flag(alloc, name),
    }
}

// The command with one argument more. A command costs much to check wherever a step may fail, so each step is made here.
fn with_one<'a>(
    alloc: Global,
    command: Command<'a>,
    kind: Kind,
    name: &'a str,
) -> Result<Command<'a>, Memory>
    ensures { IfOk result (λ more. app_of more ≡ with_rule (app_of command.entry) (rule_for kind name.entry.now)) }
{
    match command.arg(argument(alloc, kind, name)) {
        Ok(more) => Ok(more),
        Err(_) => Err(Memory),
    }
}

// The command with two arguments more.
fn with_two<'a>(
    alloc: Global,
    command: Command<'a>,
    kind: Kind,
    first: &'a str,
    second: &'a str,
) -> Result<Command<'a>, Memory>
    ensures { IfOk result (λ more. app_of more ≡
        with_rule (with_rule (app_of command.entry) (rule_for kind first.entry.now)) (rule_for kind second.entry.now)) }
{
    let more = with_one(alloc, command, kind, first)?;
    with_one(alloc, more, kind, second)
}

// The command with four arguments more.
fn with_four<'a>(
    alloc: Global,
    command: Command<'a>,
    kind: Kind,
    first: &'a str,
    second: &'a str,
    third: &'a str,
    fourth: &'a str,
) -> Result<Command<'a>, Memory>
    ensures { IfOk result (λ more. app_of more ≡
        with_rule (with_rule (with_rule (with_rule (app_of command.entry) (rule_for kind first.entry.now)) (rule_for kind second.entry.now))
        (rule_for kind third.entry.now)) (rule_for kind fourth.entry.now)) }
{
    let more = with_two(alloc, command, kind, first, second)?;
    with_two(alloc, more, kind, third, fourth)
}

// The arguments of `pipe`.
fn pipe_arguments<'a>(alloc: Global) -> Result<Command<'a>, Memory>
    ensures { IfOk result (λ command. app_of command ≡ pipe_arguments) }
{
    with_two(alloc, bare(alloc, "pipe"), Kind::Place, "level", "words")
}

// The arguments of `serve`.
fn serve_arguments<'a>(alloc: Global) -> Result<Command<'a>, Memory>
    ensures { IfOk result (λ command. app_of command ≡ serve_arguments) }
{
    let first = with_four(
        alloc,
        bare(alloc, "serve"),
        Kind::Valued,
        "level",
        "seed",
        "listen",
        "workers",
    )?;
    let further = with_two(alloc, first, Kind::Valued, "accept", "log")?;
    let valued = with_one(alloc, further, Kind::Valued, "setup")?;
    with_one(alloc, valued, Kind::Flag, "quiet")
}

// The arguments of `check`.
fn check_arguments<'a>(alloc: Global) -> Result<Command<'a>, Memory>
    ensures { IfOk result (λ command. app_of command ≡ check_arguments) }
{
    let placed = with_one(alloc, bare(alloc, "check"), Kind::Place, "path")?;
    with_one(alloc, placed, Kind::Flag, "wide")
}

// The arguments of `judge`.
fn judge_arguments<'a>(alloc: Global) -> Result<Command<'a>, Memory>
    ensures { IfOk result (λ command. app_of command ≡ judge_arguments) }
{
    with_one(alloc, bare(alloc, "judge"), Kind::Place, "path")
}

// The arguments of `sim`.
fn sim_arguments<'a>(alloc: Global) -> Result<Command<'a>, Memory>
    ensures { IfOk result (λ command. app_of command ≡ sim_arguments) }
{
    let placed = with_four(
        alloc,
        bare(alloc, "sim"),
        Kind::Place,
        "level",
        "seed",
        "sessions",
        "queries",
    )?;
    with_one(alloc, placed, Kind::Valued, "log")
}

// The arguments of `stop`.
fn stop_arguments<'a>(alloc: Global) -> Result<Command<'a>, Memory>
    ensures { IfOk result (λ command. app_of command ≡ stop_arguments) }
{
    with_one(alloc, bare(alloc, "stop"), Kind::LastPlace, "address")
}

/// The arguments of the command.
pub fn arguments_of<'a>(alloc: Global, name: Name) -> Result<Command<'a>, Memory>
    ensures { IfOk result (λ command. app_of command ≡ arguments_of name) }
{
    match name {
        Name::Pipe => pipe_arguments(alloc),
        Name::Serve => serve_arguments(alloc),
        Name::Check => check_arguments(alloc),
        Name::Judge => judge_arguments(alloc),
        Name::Sim => sim_arguments(alloc),
        Name::Stop => stop_arguments(alloc),
    }
}
