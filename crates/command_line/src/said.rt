// What words give for a command's arguments, as `clap` reads them.
ghost use Rattle.std.specs.Prelude.{◌≡◌, ◌≢◌, ◌∷◌, List, [], map, option_map, true, IfOk, IfSome, IsNone};
ghost use Rattle.clap.specs.Words.{Row, app_of, fault_of, matches_of, first_of, rows_of, found_of, is_simple_and_free};
ghost use Rattle.command_line.specs.Arguments.{word_of};
ghost use Rattle.command_line.specs.Commands.{Says};

use crate::arguments::{Name, arguments_of};
use cell_base::{Memory, Text};
use clap::error::ErrorKind;
use clap::{ArgMatches, Command};
use std::alloc::Global;
use std::marker::Model;

/// What words give for each argument of a command.
#[derive(Drop)]
pub struct Said<'a> {
    matches: ArgMatches<'a>,
}

impl<'a> Model for Said<'a> {
    ghost Value = { List Row };

    ghost view = { λ s. rows_of (found_of s.matches) };
}

// The text that matches have for an argument.
fn text_at<'a>(matches: &ArgMatches<'a>, name: &str) -> Option<&'a str>
    ensures { option_map (λ s. s.now) result ≡ first_of name.now (rows_of (found_of matches.now)) }
{
    matches.get_str(name)
}

impl<'a> Said<'a> {
    /// The text that they give for an argument.
    pub fn value(&self, name: &str) -> Option<&'a str>
        ensures { option_map (λ s. s.now) result ≡ first_of name.now self.now }
    {
        text_at(&self.matches, name)
    }
}

// What the words give for the arguments of a command of `clap`. `None` comes exactly where it doesn't take them.
fn said_by<'a>(command: Command<'a>, words: &'a [&'a str]) -> Result<Option<Said<'a>>, Memory>
    requires { is_simple_and_free (app_of command) ≡ true }
    ensures taken { IfOk result (λ found. IfSome found (λ said. fault_of (app_of command.entry) (map (λ w. w.now) words.entry.now) ≡ [])) }
    ensures said { IfOk result (λ found. IfSome found (λ said. said ≡ matches_of (app_of command.entry) (map (λ w. w.now) words.entry.now))) }
    ensures refused { IfOk result (λ found. IsNone found → fault_of (app_of command.entry) (map (λ w. w.now) words.entry.now) ≢ []) }
{
    match command.try_get_matches_from(words) {
        Ok(matches) => Ok(Some(Said { matches })),
        Err(error) => {
            if error.kind() == ErrorKind::OutOfMemory {
                Err(Memory)
            } else {
                Ok(None)
            }
        }
    }
}

/// What the words after the name give for the command's arguments. `None` comes exactly where `clap` doesn't take them.
pub fn said_of<'a>(
    alloc: Global,
    name: Name,
    words: &'a [&'a str],
) -> Result<Option<Said<'a>>, Memory>
    ensures some { IfOk result (λ found. IfSome found (λ said. Says name (word_of name ∷ map (λ w. w.now) words.entry.now) said)) }
    ensures none { IfOk result (λ found. IsNone found → (said : List Row) → ¬ (Says name (word_of name ∷ map (λ w. w.now) words.entry.now) said)) }
{
    let command = arguments_of(alloc, name)?;
    said_by(command, words)
}

/// The same words, as `clap` takes them.
pub fn strs<'a>(alloc: Global, words: &'a [Text]) -> Result<Vec<&'a str>, Memory>
    ensures { IfOk result (λ strs. map (λ w. w.now) strs.items ≡ words.entry.now) }
{
    let mut strs = Vec::new(alloc);
    for word in words {
        strs.push(word.as_str())?;
    }
    Ok(strs)
}

/// The text once more.
pub fn text_of(alloc: Global, text: &str) -> Result<Text, Memory>
    ensures { IfOk result (λ copy. copy ≡ text.now) }
{
    match Text::from_bytes(alloc, text.as_bytes()) {
        Ok(copy) => Ok(copy),
        Err(_) => Err(Memory),
    }
}

/// The text once more, where there is one.
pub fn text_or_none(alloc: Global, text: Option<&str>) -> Result<Option<Text>, Memory>
    ensures { IfOk result (λ copy. copy ≡ option_map (λ s. s.now) text.entry) }
{
    match text {
        Some(text) => Ok(Some(text_of(alloc, text)?)),
        None => Ok(None),
    }
}
