// Texts of a million bytes, each answered in time: no call nests with their length.
use crate::reading::answers::Ask;
use crate::reading::tables::are_answered;
use crate::reading::texts::Long;
use std::test::Fail;

const LONG_TEXTS: &[Long] = &[
    ("", "(", 1_000_000, "", "", "TooDeep"),
    ("", "-", 1_000_000, "", "", "read"),
    ("", "- ", 500_000, "", "", "Syntax"),
    ("SELECT ", "- ", 500_000, "1", "", "TooDeep"),
    ("", "NOT ", 250_000, "", "", "Syntax"),
    ("SELECT ", "NOT ", 250_000, "true", "", "TooDeep"),
    ("SELECT 1", "+1", 500_000, "", "", "TooDeep"),
];

#[test]
fn answers_long_texts(rt: HostRuntime) -> Result<(), Fail> {
    are_answered(rt.alloc(), Ask::Whether, LONG_TEXTS)
}

const LONG_WORDS: &[Long] = &[
    ("", "/*", 500_000, "", "", "Lex(UnclosedComment(0))"),
    ("", "a", 1_000_000, "", "", "Lex(NameTooLong(0))"),
    ("SELECT ", "a ", 500_000, "", "", "Syntax"),
];

#[test]
fn answers_long_words(rt: HostRuntime) -> Result<(), Fail> {
    are_answered(rt.alloc(), Ask::Whether, LONG_WORDS)
}

const PARENTHESES: &[Long] = &[("", "(", 1_000_000, "", "", "1000000")];

#[test]
fn reads_a_million_parentheses(rt: HostRuntime) -> Result<(), Fail> {
    are_answered(rt.alloc(), Ask::TokenCount, PARENTHESES)
}

const MINUS_SIGNS: &[Long] = &[
    ("", "-", 1_000_000, "", "", "0"),
    ("", "- ", 500_000, "", "", "500000"),
];

#[test]
fn reads_a_million_minus_signs(rt: HostRuntime) -> Result<(), Fail> {
    are_answered(rt.alloc(), Ask::TokenCount, MINUS_SIGNS)
}

const COMMENT_STARTS: &[Long] = &[("", "/*", 500_000, "", "", "UnclosedComment(0)")];

#[test]
fn reads_half_a_million_comment_starts(rt: HostRuntime) -> Result<(), Fail> {
    are_answered(rt.alloc(), Ask::TokenCount, COMMENT_STARTS)
}

const LETTERS: &[Long] = &[
    ("", "a", 1_000_000, "", "", "NameTooLong(0)"),
    ("", "1", 1_000_000, "", "", "TooWide(0)"),
    ("", "'", 1_000_000, "", "", "1"),
];

#[test]
fn reads_a_word_of_a_million_letters(rt: HostRuntime) -> Result<(), Fail> {
    are_answered(rt.alloc(), Ask::TokenCount, LETTERS)
}
