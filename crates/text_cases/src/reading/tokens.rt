// Tokens as text.
use case_lines::Line;
use sql_tree::{Token, TokenKind};

fn push_text(line: &mut Line, word: &str, text: &str) {
    line.word(word);
    line.word(text);
}

fn push_number(line: &mut Line, word: &str, number: i64) {
    line.word(word);
    line.number(number);
}

fn push_kind(line: &mut Line, kind: &TokenKind) {
    match kind {
        TokenKind::Word(name) => push_text(line, "w:", name.as_str()),
        TokenKind::Quoted(name) => push_text(line, "q:", name.as_str()),
        TokenKind::Str(text) => push_text(line, "s:", text.as_str()),
        TokenKind::Number(n) => push_number(line, "n:", *n),
        TokenKind::Param(n) => push_number(line, "p:", i64::from(*n)),
        TokenKind::Sign(sign) => line.name(sign),
    }
}

fn push_token(line: &mut Line, token: &Token) {
    push_kind(line, &token.kind);
    push_number(line, " ", i64::from(token.start));
    push_number(line, "-", i64::from(token.end));
}

/// The tokens with their places, between blanks.
pub fn push_tokens(line: &mut Line, tokens: &[Token]) {
    for (i, token) in tokens.iter().enumerate() {
        line.word(if i > 0 { " " } else { "" });
        push_token(line, token);
    }
}
