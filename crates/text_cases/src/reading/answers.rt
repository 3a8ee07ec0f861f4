// What the readers make of a text.
ghost use Rattle.std.specs.Prelude.{◌<◌, ◌^◌, length};

use crate::reading::expr::Plain;
use crate::reading::tokens::push_tokens;
use case_lines::{Line, each, named};
use cell_base::{Items, Memory, Text};
use held_values::without;
use sql_lexer::{LexFault, tokens};
use sql_statements::{ParseFault, parse, statements};
use sql_tree::{Statement, Token};
use std::alloc::{AllocError, Global};

/// What is asked of a text. Where it isn't read, each of them is answered by the fault.
#[derive(Clone, Copy)]
pub enum Ask {
    /// Its tokens with their places.
    Tokens,
    /// How many tokens it has, of a million bytes.
    TokenCount,
    /// How many statements `parse` makes of its tokens.
    Count,
    /// Its statements, each followed by a semicolon.
    Statements,
    /// Only whether it is read.
    Whether,
    /// Only whether it is read, with the code for the fault.
    Code,
}

/// The longest text of a case.
const MAX_TEXT: usize = 2_000_000;

// ---- tokens

fn tokens_line(alloc: Global, found: &[Token]) -> Result<String, AllocError> {
    let mut line = Line::new(alloc);
    push_tokens(&mut line, found);
    line.whole()
}

fn tokens_shown(alloc: Global, answer: Result<Vec<Token>, LexFault>) -> Result<String, AllocError> {
    match answer {
        Ok(found) => tokens_line(alloc, &found),
        Err(fault) => named(alloc, &fault),
    }
}

fn tokens_counted(
    alloc: Global,
    answer: Result<Vec<Token>, LexFault>,
) -> Result<String, AllocError> {
    match answer {
        Ok(found) => named(alloc, &found.len()),
        Err(fault) => named(alloc, &fault),
    }
}

fn count_of_million(alloc: Global, text: &Text) -> Result<String, Memory>
    requires { length text.now < 2 ^ 32 }
{
    if text.bytes().len() != 1_000_000 {
        return Err(Memory);
    }
    Ok(tokens_counted(alloc, tokens(alloc, text))?)
}

// ---- statements

fn lines(alloc: Global, found: &Items<Statement>) -> Result<String, AllocError> {
    let mut line = Line::new(alloc);
    each::<Plain, _>(&mut line, "", found);
    line.whole()
}

fn read(alloc: Global, found: &Items<Statement>, ask: Ask) -> Result<String, AllocError> {
    match ask {
        Ask::Statements => lines(alloc, found),
        Ask::Count => named(alloc, &found.len()),
        _ => String::from_str(alloc, "read"),
    }
}

fn refused(alloc: Global, fault: ParseFault, ask: Ask) -> Result<String, AllocError> {
    match ask {
        Ask::Code => named(alloc, &fault.state()),
        _ => named(alloc, &fault),
    }
}

fn shown(
    alloc: Global,
    answer: Result<Items<Statement>, ParseFault>,
    ask: Ask,
) -> Result<String, AllocError> {
    match answer {
        Ok(found) => read(alloc, &found, ask),
        Err(fault) => refused(alloc, fault, ask),
    }
}

fn parsed(alloc: Global, answer: Result<Vec<Token>, LexFault>) -> Result<String, AllocError> {
    match answer {
        Ok(found) => shown(alloc, parse(alloc, &found), Ask::Count),
        Err(fault) => named(alloc, &fault),
    }
}

// ---- texts

fn answered(alloc: Global, text: &Text, ask: Ask) -> Result<String, Memory>
    requires { length text.now < 2 ^ 32 }
{
    match ask {
        Ask::Tokens => Ok(tokens_shown(alloc, tokens(alloc, text))?),
        Ask::TokenCount => count_of_million(alloc, text),
        Ask::Count => Ok(parsed(alloc, tokens(alloc, text))?),
        _ => Ok(shown(alloc, statements(alloc, text), ask)?),
    }
}

fn answered_whole(alloc: Global, text: Text, ask: Ask) -> Result<String, Memory> {
    if text.bytes().len() > MAX_TEXT {
        return Err(Memory);
    }
    answered(alloc, &text, ask)
}

/// What the text comes to.
pub fn answer(alloc: Global, spelled: &str, ask: Ask) -> Result<String, Memory> {
    match Text::from_bytes(alloc, spelled.as_bytes()) {
        Ok(text) => answered_whole(alloc, text, ask),
        Err(_) => Err(Memory),
    }
}

/// What the text that was made comes to.
pub fn answer_to(
    alloc: Global,
    spelled: Result<String, AllocError>,
    ask: Ask,
) -> Result<String, Memory> {
    let spelled = spelled?;
    let given = answer(alloc, spelled.as_str(), ask);
    without(spelled, given)
}
