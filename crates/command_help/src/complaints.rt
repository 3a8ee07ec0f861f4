// The line that says what is wrong with words that are no command.
use crate::rules::{Argument, Rule, arguments_of};
use crate::wrong::{Wrong, first_wrong};
use cell_base::{Memory, Text};
use command_line::{Name, name_of};
use std::alloc::Global;

// Adds a word that was given, with a question mark for what would break the line.
fn push_word(line: &mut String, word: &str) -> Result<(), Memory> {
    for c in word.chars() {
        line.push(if c.is_control() { '?' } else { c })?;
    }
    Ok(())
}

// Adds what a text has to say.
fn push_rule(alloc: Global, line: &mut String, rule: Rule) -> Result<(), Memory> {
    match rule {
        Rule::Level => line.push_str("one of rc, ra, cc")?,
        Rule::Words => {
            line.push_str("numbers from 0 to 4294967295, with commas between them")?;
        }
        Rule::Number => line.push_str("a number from 0 to 18446744073709551615")?,
        Rule::UpTo(most) => {
            line.push_str(format!(in alloc; "a number from 1 to {most}")?.as_str())?;
        }
        Rule::Any => line.push_str("some text")?,
    }
    Ok(())
}

// Adds an option with what is to be said of it.
fn push_option(line: &mut String, name: &str, what: &str) -> Result<(), Memory> {
    line.push_str("--")?;
    line.push_str(name)?;
    line.push_str(what)?;
    Ok(())
}

// Adds a word with what is to be said of it.
fn push_told(line: &mut String, word: &str, what: &str) -> Result<(), Memory> {
    push_word(line, word)?;
    line.push_str(what)?;
    Ok(())
}

// Adds an argument with the text that it was given, and what that has to say.
fn push_value(
    alloc: Global,
    line: &mut String,
    argument: Argument<'_>,
    value: &str,
) -> Result<(), Memory> {
    line.push_str(argument.name)?;
    line.push_str(" ")?;
    push_word(line, value)?;
    line.push_str(": ")?;
    push_rule(alloc, line, argument.rule)
}

// Adds that the value of an option begins with a dash, and how it is written.
fn push_dashed(line: &mut String, option: Argument<'_>, value: &str) -> Result<(), Memory> {
    push_option(line, option.name, " ")?;
    push_told(line, value, ": a value that begins with a dash is written ")?;
    push_option(line, option.name, "=")?;
    push_word(line, value)
}

// Adds what is wrong.
fn push_wrong(alloc: Global, line: &mut String, wrong: Wrong<'_>) -> Result<(), Memory> {
    match wrong {
        Wrong::NoOption(word) => push_told(line, word, ": no such option"),
        Wrong::NoValue(name) => push_option(line, name, ": its value is missing"),
        Wrong::NeedlessValue(name) => push_option(line, name, ": it takes no value"),
        Wrong::Twice(name) => push_option(line, name, ": it stands twice"),
        Wrong::Option(option, value) => {
            line.push_str("--")?;
            push_value(alloc, line, option, value)
        }
        Wrong::Dashed(option, value) => push_dashed(line, option, value),
        Wrong::Place(place, value) => push_value(alloc, line, place, value),
        Wrong::Further(word) => push_told(line, word, ": one word too many"),
        Wrong::Missing(name) => push_told(line, name, " is missing"),
    }
}

// What is wrong with the words after the name of a command.
fn command_complaint(
    alloc: Global,
    name: Name,
    command: &str,
    words: &[Text],
) -> Result<String, Memory> {
    let mut line = String::new(alloc);
    line.push_str(command)?;
    line.push_str(": ")?;
    match first_wrong(alloc, arguments_of(name), words)? {
        Some(wrong) => push_wrong(alloc, &mut line, wrong)?,
        None => line.push_str("it doesn't take these words")?,
    }
    line.push_str("; try monkeydb ")?;
    line.push_str(command)?;
    line.push_str(" --help")?;
    Ok(line)
}

// What is wrong with words that begin with no command's name.
fn nameless_complaint(alloc: Global, first: Option<&Text>) -> Result<String, Memory> {
    let mut line = String::new(alloc);
    line.push_str("monkeydb: ")?;
    match first {
        Some(word) => push_told(&mut line, word.as_str(), ": no command, which is")?,
        None => line.push_str("the command is missing:")?,
    }
    line.push_str(" one of pipe, serve, check, judge, sim, stop; try monkeydb --help")?;
    Ok(line)
}

/// One line that says what is wrong with words that are no command: the command, the option or the place, the value, what is right, and where help is.
pub fn complaint(alloc: Global, args: &[Text]) -> Result<String, Memory> {
    match (name_of(args), args.first()) {
        (Some((name, words)), Some(first)) => command_complaint(alloc, name, first.as_str(), words),
        (_, first) => nameless_complaint(alloc, first),
    }
}
