// What a token list is judged by as a whole: its pieces, the level at a token, and the tokens that aren't supported.
ghost use Rattle.std.specs.Prelude.{◌≡◌, ◌+◌, ◌<◌, ◌≤◌, nat_lt, take, drop, length, map, Some, None, IfSome, false};
ghost use Rattle.sql_refusal.specs.Pieces as spec;
ghost use Rattle.sql_refusal.specs.Streams as streams;

use crate::words::UNSUPPORTED;
use sql_tree::{Sign, Token, TokenKind};

/// The greatest level that a token may have.
const MAX_LEVEL: usize = 66;

/// How many commas an INSERT may have outside of parentheses.
const MAX_COMMAS: u32 = 999;

fn is_semi(token: &Token) -> bool
    ensures { result ≡ spec.is_semi token.now.kind }
{
    matches!(token.kind, TokenKind::Sign(Sign::Semi))
}

fn is_comma(token: &Token) -> bool
    ensures { result ≡ spec.is_comma token.now.kind }
{
    matches!(token.kind, TokenKind::Sign(Sign::Comma))
}

fn is_open(token: &Token) -> bool
    ensures { result ≡ spec.is_open token.now.kind }
{
    matches!(token.kind, TokenKind::Sign(Sign::Open))
}

fn is_close(token: &Token) -> bool
    ensures { result ≡ spec.is_close token.now.kind }
{
    matches!(token.kind, TokenKind::Sign(Sign::Close))
}

fn is_word(token: &Token, word: &[u8]) -> bool
    ensures { result ≡ spec.is_word word.now token.now.kind }
{
    match &token.kind {
        TokenKind::Word(text) => text.bytes() == word,
        _ => false,
    }
}

pub fn begins_with(tokens: &[Token], word: &[u8]) -> bool
    ensures { result ≡ spec.begins_with word.now tokens.now }
{
    match tokens {
        [first, ..] => is_word(first, word),
        [] => false,
    }
}

fn is_among(mut table: &[&[u8]], word: &[u8]) -> bool
    ensures { result ≡ spec.is_among (map (λ row. row.now) table.entry.now) word.now }
{
    while let [first, rest @ ..] = table {
        if *first == word {
            return true;
        }
        table = rest;
    }
    false
}

/// How many tokens stand before the first `;`.
#[tactic(auto, unfolding(crate::specs::Streams::first_piece, crate::specs::Streams::after_piece))]
fn piece_len(tokens: &[Token]) -> usize
    ensures within { result ≤ length tokens.now }
    ensures front { take result tokens.now ≡ streams.first_piece tokens.now }
    ensures rest { streams.after_piece tokens.now ≡ streams.after_piece (drop result tokens.now) }
    ensures ends { result < length tokens.now → streams.after_piece tokens.now ≡ Some (drop (result + 1) tokens.now) }
    ensures last { result ≡ length tokens.now → streams.after_piece tokens.now ≡ None }
{
    let mut len = 0;
    while len < tokens.len() {
        if is_semi(&tokens[len]) {
            return len;
        }
        len += 1;
    }
    len
}

/// The first piece, and what stands after its `;`.
pub fn split(tokens: &[Token]) -> (&[Token], Option<&[Token]>)
    ensures piece { result.0.now ≡ streams.first_piece tokens.now }
    ensures following { streams.tokens_in result.1 ≡ streams.after_piece tokens.now }
    ensures shorter { IfSome result.1 (λ following. length following.now < length tokens.now) }
{
    let len = piece_len(tokens);
    if len < tokens.len() {
        (&tokens[..len], Some(&tokens[len + 1..]))
    } else {
        (tokens, None)
    }
}

/// Whether some token of the piece has a level above 66.
#[tactic(auto, unfolding(crate::specs::Streams::is_deep))]
pub fn is_deep(piece: &[Token]) -> bool
    ensures { result ≡ streams.is_deep 0 0 piece.now }
{
    let mut opened: usize = 0;
    let mut closed: usize = 0;
    let mut ahead = piece;
    while let [token, rest @ ..] = ahead {
        if opened > closed && opened - closed > MAX_LEVEL {
            return true;
        }
        if is_open(token) {
            opened += 1;
        }
        if is_close(token) {
            closed += 1;
        }
        ahead = rest;
    }
    false
}

/// Whether the piece has more than 999 commas at level 0.
#[tactic(auto, unfolding(crate::specs::Streams::commas_from))]
pub fn has_many_commas(piece: &[Token]) -> bool
    ensures { result ≡ nat_lt 999 (streams.commas_from 0 0 piece.now) }
{
    let mut left = MAX_COMMAS;
    let mut opened: usize = 0;
    let mut closed: usize = 0;
    let mut ahead = piece;
    while let [token, rest @ ..] = ahead {
        if is_comma(token) && opened == closed {
            if left == 0 {
                return true;
            }
            left -= 1;
        }
        if is_open(token) {
            opened += 1;
        }
        if is_close(token) {
            closed += 1;
        }
        ahead = rest;
    }
    false
}

const SELECT: &[u8] = b"select";

const VALUES: &[u8] = b"values";

const TABLE: &[u8] = b"table";

const ON: &[u8] = b"on";

fn is_unsupported_word(filled: bool, after_create: bool, word: &[u8], after: &[Token]) -> bool
    ensures { result ≡ streams.is_unsupported_word filled after_create word.now after.now }
{
    (word == SELECT && filled)
        || (word == VALUES && !filled)
        || (word == TABLE && !after_create)
        || (word == ON && begins_with(after, b"conflict"))
        || is_among(&UNSUPPORTED, word)
}

/// Whether the token isn't supported where it stands.
fn is_unsupported(filled: bool, after_create: bool, token: &Token, after: &[Token]) -> bool
    ensures { result ≡ streams.is_unsupported filled after_create token.now.kind after.now }
{
    match &token.kind {
        TokenKind::Word(text) => is_unsupported_word(filled, after_create, text.bytes(), after),
        TokenKind::Sign(Sign::Cast) => true,
        TokenKind::Sign(Sign::Join) => true,
        TokenKind::Param(_) => true,
        _ => false,
    }
}

/// Whether the piece holds a token that isn't supported.
#[tactic(auto, unfolding(crate::specs::Streams::holds_unsupported))]
pub fn holds_unsupported(piece: &[Token]) -> bool
    ensures { result ≡ streams.holds_unsupported false false piece.now }
{
    let mut filled = false;
    let mut after_create = false;
    let mut ahead = piece;
    while let [token, rest @ ..] = ahead {
        if is_unsupported(filled, after_create, token, rest) {
            return true;
        }
        filled = true;
        after_create = is_word(token, b"create");
        ahead = rest;
    }
    false
}
