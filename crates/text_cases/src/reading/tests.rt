// What no clause says: that the lexemes and the grammar are those that are meant, by texts read by hand.
use crate::reading::answers::{Ask, answer_to};
use crate::reading::cases::{
    CHANGES, EXPRESSIONS, FAULTS, LONG, RESERVED, SELECTS, SESSIONS, SPACED_EXPRESSIONS,
    SPACED_FAULTS, SPACED_SELECTS, UNSUPPORTED,
};
use crate::reading::compared::{is_code, is_no_text, is_not};
use crate::reading::lexemes::{LEXEMES, SPACED_LEXEMES};
use crate::reading::tables::{are_answered, are_pairs_read, are_read};
use crate::reading::texts::joined;
use case_lines::is;
use cell_base::{Memory, SqlState, Text};
use sql_lexer::LexFault;
use sql_statements::ParseFault;
use std::alloc::Global;
use std::test::Fail;

#[test]
fn reads_each_lexeme(rt: HostRuntime) -> Result<(), Fail> {
    are_read(rt.alloc(), Ask::Tokens, LEXEMES)?;
    are_pairs_read(rt.alloc(), Ask::Tokens, SPACED_LEXEMES)
}

#[test]
fn reads_expressions(rt: HostRuntime) -> Result<(), Fail> {
    are_read(rt.alloc(), Ask::Statements, EXPRESSIONS)?;
    are_pairs_read(rt.alloc(), Ask::Statements, SPACED_EXPRESSIONS)
}

#[test]
fn reads_queries(rt: HostRuntime) -> Result<(), Fail> {
    are_read(rt.alloc(), Ask::Statements, SELECTS)?;
    are_pairs_read(rt.alloc(), Ask::Statements, SPACED_SELECTS)
}

#[test]
fn reads_changes(rt: HostRuntime) -> Result<(), Fail> {
    are_read(rt.alloc(), Ask::Statements, CHANGES)
}

#[test]
fn reads_transactions_and_settings(rt: HostRuntime) -> Result<(), Fail> {
    are_read(rt.alloc(), Ask::Statements, SESSIONS)
}

#[test]
fn finds_faults(rt: HostRuntime) -> Result<(), Fail> {
    are_read(rt.alloc(), Ask::Statements, FAULTS)?;
    are_pairs_read(rt.alloc(), Ask::Statements, SPACED_FAULTS)
}

#[test]
fn keeps_its_limits(rt: HostRuntime) -> Result<(), Fail> {
    are_answered(rt.alloc(), Ask::Whether, LONG)
}

/// What the reader says of a text of these parts.
fn says(alloc: Global, parts: &[&str]) -> Result<String, Memory> {
    answer_to(alloc, joined(alloc, parts), Ask::Whether)
}

fn is_reserved(alloc: Global, word: &str) -> Result<(), Fail> {
    is_not(word, says(alloc, &["SELECT a FROM ", word, ""]), "read")?;
    is(word, says(alloc, &["SELECT a FROM \"", word, "\""]), "read")
}

#[test]
fn takes_no_reserved_word_for_a_name(rt: HostRuntime) -> Result<(), Fail> {
    for word in RESERVED {
        is_reserved(rt.alloc(), word)?;
    }
    Ok(())
}

fn is_unsupported(alloc: Global, word: &str) -> Result<(), Fail> {
    is(word, says(alloc, &["foo ", word, ""]), "Unsupported")?;
    is(word, says(alloc, &["foo \"", word, "\""]), "Syntax")
}

#[test]
fn knows_each_unsupported_word(rt: HostRuntime) -> Result<(), Fail> {
    for word in UNSUPPORTED {
        is_unsupported(rt.alloc(), word)?;
    }
    Ok(())
}

/// Texts with the codes of their faults.
const CODES: &[(&str, &str)] = &[
    ("SELECT DISTINCT v FROM t", "S0A000"),
    ("SAVEPOINT a", "S0A000"),
    ("SELECT 'a", "S42601"),
    ("SELECT 1.5", "S0A000"),
    ("SELECT 9223372036854775808", "S22003"),
    ("SELECT 1; SELEC 2", "S42601"),
    ("SELECT 1", "read"),
];

#[test]
fn answers_a_code(rt: HostRuntime) -> Result<(), Fail> {
    are_pairs_read(rt.alloc(), Ask::Code, CODES)
}

const PARSE_FAULTS: &[(ParseFault, SqlState)] = &[
    (ParseFault::TooMany, SqlState::S54000),
    (ParseFault::TooDeep, SqlState::S54000),
    (ParseFault::Unsupported, SqlState::S0A000),
    (ParseFault::Syntax, SqlState::S42601),
    (ParseFault::Memory, SqlState::S53200),
];

#[test]
fn has_a_code_for_each_fault(_rt: HostRuntime) -> Result<(), Fail> {
    for (fault, want) in PARSE_FAULTS {
        is_code(fault, fault.state(), *want)?;
    }
    Ok(())
}

const LEX_FAULTS: &[(LexFault, SqlState)] = &[
    (LexFault::UnclosedString(0), SqlState::S42601),
    (LexFault::UnclosedComment(1), SqlState::S42601),
    (LexFault::UnclosedName(2), SqlState::S42601),
    (LexFault::EmptyName(3), SqlState::S42601),
    (LexFault::BadCharacter(4), SqlState::S42601),
    (LexFault::Junk(5), SqlState::S42601),
    (LexFault::TooWide(6), SqlState::S22003),
    (LexFault::NameTooLong(7), SqlState::S54000),
    (LexFault::Unsupported(8), SqlState::S0A000),
    (LexFault::Memory, SqlState::S53200),
];

#[test]
fn answers_a_code_for_each_fault(_rt: HostRuntime) -> Result<(), Fail> {
    for (fault, want) in LEX_FAULTS {
        is_code(fault, fault.state(), *want)?;
    }
    Ok(())
}

/// Bytes that are no text.
const NO_TEXTS: &[&[u8]] = &[b"\xff", b"SELECT '\xff'", b"SELECT \xc3"];

/// Bytes that are no text have no tokens.
#[test]
fn takes_text_alone(rt: HostRuntime) -> Result<(), Fail> {
    for (place, bytes) in NO_TEXTS.iter().enumerate() {
        is_no_text(place, Text::from_bytes(rt.alloc(), bytes))?;
    }
    Ok(())
}

/// Texts with the numbers of their statements.
const COUNTS: &[(&str, &str)] = &[(";", "0"), ("", "0"), (";;COMMIT;", "1")];

#[test]
fn reads_no_statement_between_semicolons(rt: HostRuntime) -> Result<(), Fail> {
    are_pairs_read(rt.alloc(), Ask::Count, COUNTS)
}
