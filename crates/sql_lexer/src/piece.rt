// The piece at the front of a text: white space, a comment or a token.
ghost use Rattle.std.specs.Prelude.{◌≡◌, ◌≢◌, OnSome, ◌<◌, ◌≤◌, ◌+◌, ◌^◌, length, slice_index, IfOk, Option, Some};
ghost use Rattle.std.specs.Str.{IsUtf8};
ghost use Rattle.sql_lexer.specs.Bytes as bytes;
ghost use Rattle.sql_lexer.specs.Lexemes as lexemes;
ghost use Rattle.sql_lexer.specs.Front as spec;
ghost use Rattle.sql_lexer.specs.Front.{Gives};

use crate::LexFault;
use crate::scan::{Class, at_most, byte, closing, comment, content, digits, folded, is_in, past};
use sql_tree::{Sign, TokenKind};
use std::alloc::Global;

/// What stands at the front.
#[derive(Drop)]
pub enum Piece {
    /// White space or a comment.
    Gap,
    /// A token.
    Kind(TokenKind),
}

/// What stands directly before a piece.
#[derive(Clone, Copy)]
pub enum Before {
    /// A name or a closing parenthesis: a point here never begins a number.
    Joined,
    /// Anything else, or nothing.
    Other,
}

/// A piece, and its length in bytes.
pub type Found = (Piece, usize);

#[tactic(auto, unfolding(crate::specs::Front::comment_piece))]
fn comment_piece(at: u32, z: &[u8]) -> Result<Found, LexFault>
    requires two { 2 ≤ length z.now }
    requires fits { length z.now < 2 ^ 32 }
    ensures value { Gives (spec.comment_piece at z.now) result }
    ensures within { IfOk result (λ f. (1 ≤ f.1) × (f.1 ≤ length z.now)) }
{
    match comment(&z[2..]) {
        None => Err(LexFault::UnclosedComment(at)),
        Some(end) => Ok((Piece::Gap, end)),
    }
}

fn is_prefix(b: u8) -> bool
    ensures { result ≡ bytes.is_prefix b }
{
    matches!(b, b'e' | b'E' | b'b' | b'B' | b'x' | b'X' | b'n' | b'N')
}

#[tactic(auto, unfolding(crate::specs::Front::word))]
fn word(alloc: Global, at: u32, z: &[u8]) -> Result<Found, LexFault>
    requires some { 1 ≤ length z.now }
    requires utf8 { IsUtf8 z.now }
    ensures value { Gives (spec.word at z.now) result }
    ensures within { IfOk result (λ f. (1 ≤ f.1) × (f.1 ≤ length z.now)) }
{
    let end = past(Class::Word, z, 1);
    if end == 1 && is_prefix(z[0]) && byte(z, 1) == b'\'' {
        return Err(LexFault::Unsupported(at));
    }
    if end > 63 {
        return Err(LexFault::NameTooLong(at));
    }
    let name = folded(alloc, &z[..end])?;
    Ok((Piece::Kind(TokenKind::Word(name)), end))
}

#[tactic(auto, unfolding(crate::specs::Front::string))]
fn string(alloc: Global, at: u32, z: &[u8]) -> Result<Found, LexFault>
    requires some { 1 ≤ length z.now }
    requires fits { length z.now < 2 ^ 32 }
    requires quote { slice_index z.now 0 ≡ 39 }
    requires utf8 { IsUtf8 z.now }
    ensures value { Gives (spec.string at z.now) result }
    ensures within { IfOk result (λ f. (1 ≤ f.1) × (f.1 ≤ length z.now)) }
{
    match closing(b'\'', &z[1..]) {
        None => Err(LexFault::UnclosedString(at)),
        Some(end) => {
            let text = content(alloc, b'\'', &z[1..end - 1])?;
            Ok((Piece::Kind(TokenKind::Str(text)), end))
        }
    }
}

#[tactic(auto, unfolding(crate::specs::Front::quoted))]
fn quoted(alloc: Global, at: u32, z: &[u8]) -> Result<Found, LexFault>
    requires some { 1 ≤ length z.now }
    requires fits { length z.now < 2 ^ 32 }
    requires quote { slice_index z.now 0 ≡ 34 }
    requires utf8 { IsUtf8 z.now }
    ensures value { Gives (spec.quoted at z.now) result }
    ensures within { IfOk result (λ f. (1 ≤ f.1) × (f.1 ≤ length z.now)) }
{
    match closing(b'"', &z[1..]) {
        None => Err(LexFault::UnclosedName(at)),
        Some(end) => {
            let name = content(alloc, b'"', &z[1..end - 1])?;
            match name.bytes().len() {
                0 => Err(LexFault::EmptyName(at)),
                1..=63 => Ok((Piece::Kind(TokenKind::Quoted(name)), end)),
                _ => Err(LexFault::NameTooLong(at)),
            }
        }
    }
}

/// Whether a number goes on, with a point or with an exponent, at these two bytes.
fn is_fraction(b: u8, next: u8) -> bool
    ensures { result ≡ spec.is_fraction b next }
{
    b == b'.' || ((b == b'e' || b == b'E') && is_in(Class::Digit, next))
}

const MOST: u64 = 9_223_372_036_854_775_807;

#[tactic(auto, unfolding(crate::specs::Front::number))]
fn number(at: u32, z: &[u8]) -> Result<Found, LexFault>
    requires some { 1 ≤ length z.now }
    ensures value { Gives (spec.number at z.now) result }
    ensures within { IfOk result (λ f. (1 ≤ f.1) × (f.1 ≤ length z.now)) }
{
    let end = past(Class::Digit, z, 1);
    let next = byte(z, end);
    let goes_on = is_fraction(next, byte(z, end + 1));
    if !goes_on && is_in(Class::Word, next) {
        return Err(LexFault::Junk(at));
    }
    let n = digits(&z[..end]);
    if n > MOST {
        return Err(LexFault::TooWide(at));
    }
    if goes_on {
        return Err(LexFault::Unsupported(at));
    }
    Ok((Piece::Kind(TokenKind::Number(n as i64)), end))
}

fn single(b: u8) -> Option<Sign>
    ensures { result ≡ lexemes.sign_of b }
{
    match b {
        b'+' => Some(Sign::Plus),
        b'-' => Some(Sign::Minus),
        b'*' => Some(Sign::Star),
        b'/' => Some(Sign::Slash),
        b'%' => Some(Sign::Percent),
        b'=' => Some(Sign::Eq),
        b'<' => Some(Sign::Lt),
        b'>' => Some(Sign::Gt),
        b'(' => Some(Sign::Open),
        b')' => Some(Sign::Close),
        b',' => Some(Sign::Comma),
        b';' => Some(Sign::Semi),
        _ => None,
    }
}

fn double(b: u8, next: u8) -> Option<Sign>
    ensures value { result ≡ lexemes.sign_of_two b next }
    ensures some { OnSome result (next ≢ 0) }
{
    match (b, next) {
        (b'<', b'>') | (b'!', b'=') => Some(Sign::Ne),
        (b'<', b'=') => Some(Sign::Le),
        (b'>', b'=') => Some(Sign::Ge),
        (b':', b':') => Some(Sign::Cast),
        (b'|', b'|') => Some(Sign::Join),
        _ => None,
    }
}

#[tactic(auto, unfolding(crate::specs::Front::sign))]
fn sign(at: u32, z: &[u8]) -> Result<Found, LexFault>
    requires some { 1 ≤ length z.now }
    ensures value { Gives (spec.sign at z.now) result }
    ensures within { IfOk result (λ f. (1 ≤ f.1) × (f.1 ≤ length z.now)) }
{
    if let Some(s) = double(z[0], byte(z, 1)) {
        return Ok((Piece::Kind(TokenKind::Sign(s)), 2));
    }
    match single(z[0]) {
        Some(s) => Ok((Piece::Kind(TokenKind::Sign(s)), 1)),
        None => Err(LexFault::BadCharacter(at)),
    }
}

/// The most digits of a parameter.
const MAX_DIGITS: usize = 5;

#[tactic(auto, unfolding(crate::specs::Front::param))]
fn param(at: u32, z: &[u8]) -> Result<Found, LexFault>
    requires some { 1 ≤ length z.now }
    ensures value { Gives (spec.param at z.now) result }
    ensures within { IfOk result (λ f. (1 ≤ f.1) × (f.1 ≤ length z.now)) }
{
    let front = at_most(z, MAX_DIGITS + 1);
    let end = past(Class::Digit, front, 1);
    if end == 1 {
        return Err(LexFault::BadCharacter(at));
    }
    let n = digits(&front[1..end]);
    Ok((Piece::Kind(TokenKind::Param(n as u32)), end))
}

#[tactic(auto, unfolding(crate::specs::Front::point))]
fn point(before: Before, at: u32, z: &[u8]) -> Result<Found, LexFault>
    requires some { 1 ≤ length z.now }
    ensures value { Gives (spec.point (spec.is_joined before) at z.now) result }
    ensures within { IfOk result (λ f. (1 ≤ f.1) × (f.1 ≤ length z.now)) }
{
    match before {
        Before::Other if is_in(Class::Digit, byte(z, 1)) => Err(LexFault::Unsupported(at)),
        Before::Other | Before::Joined => Ok((Piece::Kind(TokenKind::Sign(Sign::Dot)), 1)),
    }
}

/// The piece at the front of the text `z`, which stands at the place `at`, directly after `before`.
#[tactic(auto, unfolding(crate::specs::Front::piece))]
pub fn front(alloc: Global, before: Before, at: u32, z: &[u8]) -> Result<Found, LexFault>
    requires some { 1 ≤ length z.now }
    requires fits { length z.now < 2 ^ 32 }
    requires utf8 { IsUtf8 z.now }
    ensures value { Gives (spec.piece (spec.is_joined before) at z.now) result }
    ensures within { IfOk result (λ f. (1 ≤ f.1) × (f.1 ≤ length z.now)) }
{
    let (b, next) = (z[0], byte(z, 1));
    if is_in(Class::Space, b) {
        Ok((Piece::Gap, past(Class::Space, z, 1)))
    } else if b == b'-' && next == b'-' {
        Ok((Piece::Gap, past(Class::Line, z, 2)))
    } else if b == b'/' && next == b'*' {
        comment_piece(at, z)
    } else if is_in(Class::Start, b) {
        word(alloc, at, z)
    } else if b == b'"' {
        quoted(alloc, at, z)
    } else if b == b'\'' {
        string(alloc, at, z)
    } else if is_in(Class::Digit, b) {
        number(at, z)
    } else if b == b'$' {
        param(at, z)
    } else if b == b'.' {
        point(before, at, z)
    } else {
        sign(at, z)
    }
}

/// What the token is for the piece directly after it.
pub fn after(kind: &TokenKind) -> Before
    ensures { spec.is_joined result ≡ lexemes.joins kind.now }
{
    match kind {
        TokenKind::Word(_) | TokenKind::Quoted(_) | TokenKind::Sign(Sign::Close) => Before::Joined,
        _ => Before::Other,
    }
}
