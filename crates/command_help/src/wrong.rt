// What is wrong with the words of a command.
use crate::rules::{Argument, Kind, fits};
use cell_base::{Memory, Text};
use std::alloc::Global;

/// The first thing that is wrong with the words of a command.
#[derive(Clone, Copy, Debug, PartialEq, Eq)]
pub enum Wrong<'a> {
    /// The word looks like an option, and there is none of this name.
    NoOption(&'a str),
    /// The option lacks its value.
    NoValue(&'a str),
    /// The option takes no value.
    NeedlessValue(&'a str),
    /// The option stands twice.
    Twice(&'a str),
    /// The option has a value that doesn't say what it has to.
    Option(Argument<'a>, &'a str),
    /// The value of an option begins with a dash.
    Dashed(Argument<'a>, &'a str),
    /// The word of this place doesn't say what it has to.
    Place(Argument<'a>, &'a str),
    /// No place is left for the word.
    Further(&'a str),
    /// The place has no word.
    Missing(&'a str),
}

// How far the words of a command were read.
#[derive(Drop)]
struct Reader<'a> {
    // The options that were given.
    given: Vec<&'a str>,
    // The option that waits for its value.
    waits: Option<Argument<'a>>,
    // How many places have their word.
    places: usize,
    // Whether a word may be an option: up to `--`.
    takes_options: bool,
}

// Whether a word is taken for an option.
fn is_dashed(word: &str) -> bool {
    word.len() > 1 && word.starts_with("-")
}

// The name of an option, and its value where they stand in one word.
fn option_parts(word: &str) -> Option<(&str, Option<&str>)> {
    let text = word.strip_prefix("--")?;
    match text.split_once("=") {
        Some((name, value)) => Some((name, Some(value))),
        None => Some((text, None)),
    }
}

// The option of this name.
fn option_named<'a>(arguments: &[Argument<'a>], name: &str) -> Option<Argument<'a>> {
    for argument in arguments {
        let is_option = argument.kind == Kind::Valued || argument.kind == Kind::Flag;
        if is_option && argument.name == name {
            return Some(*argument);
        }
    }
    None
}

// The argument at this place, counted from 0.
fn place_at<'a>(arguments: &[Argument<'a>], place: usize) -> Option<Argument<'a>> {
    let argument = arguments.get(place)?;
    match argument.kind {
        Kind::Place | Kind::LastPlace => Some(*argument),
        Kind::Valued | Kind::Flag => None,
    }
}

// What is wrong with the value of an option.
fn wrong_value<'a>(
    alloc: Global,
    option: Argument<'a>,
    value: &'a str,
) -> Result<Option<Wrong<'a>>, Memory> {
    if fits(alloc, option.rule, value)? {
        Ok(None)
    } else {
        Ok(Some(Wrong::Option(option, value)))
    }
}

// What is wrong with the word after an option that takes a value.
fn wrong_next<'a>(
    alloc: Global,
    option: Argument<'a>,
    word: &'a str,
) -> Result<Option<Wrong<'a>>, Memory> {
    if word.starts_with("--") {
        return Ok(Some(Wrong::NoValue(option.name)));
    }
    match wrong_value(alloc, option, word)? {
        None if is_dashed(word) => Ok(Some(Wrong::Dashed(option, word))),
        wrong => Ok(wrong),
    }
}

// What is wrong with a word that is taken for an option.
fn wrong_option<'a>(
    alloc: Global,
    arguments: &[Argument<'a>],
    reader: &mut Reader<'a>,
    word: &'a str,
) -> Result<Option<Wrong<'a>>, Memory> {
    let Some((name, value)) = option_parts(word) else {
        return Ok(Some(Wrong::NoOption(word)));
    };
    let Some(option) = option_named(arguments, name) else {
        return Ok(Some(Wrong::NoOption(word)));
    };
    if reader.given.iter().any(|it| *it == option.name) {
        return Ok(Some(Wrong::Twice(option.name)));
    }
    reader.given.push(option.name)?;
    match (option.kind == Kind::Flag, value) {
        (true, None) => Ok(None),
        (true, Some(_)) => Ok(Some(Wrong::NeedlessValue(option.name))),
        (false, Some(value)) => wrong_value(alloc, option, value),
        (false, None) => {
            reader.waits = Some(option);
            Ok(None)
        }
    }
}

// What is wrong with a word at this place.
fn wrong_place<'a>(
    alloc: Global,
    arguments: &[Argument<'a>],
    place: usize,
    word: &'a str,
) -> Result<Option<Wrong<'a>>, Memory> {
    let Some(argument) = place_at(arguments, place) else {
        return Ok(Some(Wrong::Further(word)));
    };
    if fits(alloc, argument.rule, word)? {
        Ok(None)
    } else {
        Ok(Some(Wrong::Place(argument, word)))
    }
}

// The place that lacks its word, where so many have theirs.
fn missing<'a>(arguments: &[Argument<'a>], places: usize) -> Option<Wrong<'a>> {
    let argument = place_at(arguments, places)?;
    if argument.kind == Kind::Place {
        Some(Wrong::Missing(argument.name))
    } else {
        None
    }
}

// What is wrong with the next word.
fn wrong_word<'a>(
    alloc: Global,
    arguments: &[Argument<'a>],
    reader: &mut Reader<'a>,
    word: &'a str,
) -> Result<Option<Wrong<'a>>, Memory> {
    if let Some(option) = reader.waits {
        reader.waits = None;
        return wrong_next(alloc, option, word);
    }
    if !reader.takes_options || !is_dashed(word) {
        let place = reader.places;
        reader.places = place.saturating_add(1);
        return wrong_place(alloc, arguments, place, word);
    }
    if word == "--" {
        reader.takes_options = false;
        return Ok(None);
    }
    wrong_option(alloc, arguments, reader, word)
}

/// The first thing that is wrong with the words of a command that has these arguments. Where it finds nothing, the words may still be wrong to
/// whoever reads them.
pub fn first_wrong<'a>(
    alloc: Global,
    arguments: &[Argument<'a>],
    words: &'a [Text],
) -> Result<Option<Wrong<'a>>, Memory> {
    let mut reader = Reader {
        given: Vec::new(alloc),
        waits: None,
        places: 0,
        takes_options: true,
    };
    for word in words {
        if let Some(wrong) = wrong_word(alloc, arguments, &mut reader, word.as_str())? {
            return Ok(Some(wrong));
        }
    }
    match reader.waits {
        Some(option) => Ok(Some(Wrong::NoValue(option.name))),
        None => Ok(missing(arguments, reader.places)),
    }
}
