// The tests of a whole token list, and the cause that comes first.
ghost use Rattle.std.specs.Prelude.{◌≡◌, List, Bool, nat_lt};
ghost use Rattle.sql_tree.specs.declared.token.Token.{Token};
ghost use Rattle.sql_grammar.specs.Words as words;
ghost use Rattle.sql_refusal.specs.Causes.{IsCause};
ghost use Rattle.sql_refusal.specs.Pieces as spec;

use crate::cause::Cause;
use crate::message::{is_unlimited, is_wide};
use crate::pieces::{begins_with, has_many_commas, holds_unsupported, is_deep, split};
use sql_grammar::Mark;
use sql_tree::Token;

/// How many pieces may hold a token.
const MAX_PIECES: u32 = 256;

/// A test of a piece.
trait Test {
    ghost test: { List Token → Bool };

    fn holds(&self, piece: &[Token]) -> bool
        ensures { result ≡ test piece.now };
}

/// Whether some piece passes the test.
fn some_piece<T: Test>(test: &T, tokens: &[Token]) -> bool
    ensures { result ≡ spec.some T.test (spec.pieces tokens.now) }
{
    let mut rest = Some(tokens);
    while let Some(ahead) = rest {
        let (piece, following) = split(ahead);
        if test.holds(piece) {
            return true;
        }
        rest = following;
    }
    false
}

struct TooManyRows;

impl Test for TooManyRows {
    ghost test = { λ piece. spec.has_too_many_rows piece };

    #[tactic(auto, using(crate::proofs::Streamed::commas_place_are))]
    fn holds(&self, piece: &[Token]) -> bool {
        begins_with(piece, b"insert") && has_many_commas(piece)
    }
}

struct Deep;

impl Test for Deep {
    ghost test = { λ piece. spec.has_deep_place piece };

    #[tactic(auto, using(crate::proofs::Streamed::deep_place_is))]
    fn holds(&self, piece: &[Token]) -> bool {
        is_deep(piece)
    }
}

struct Unsupported;

impl Test for Unsupported {
    ghost test = { λ piece. spec.has_unsupported_place piece };

    #[tactic(auto, using(crate::proofs::Streamed::unsupported_place_is))]
    fn holds(&self, piece: &[Token]) -> bool {
        holds_unsupported(piece)
    }
}

fn holds_a_token(piece: &[Token]) -> bool
    ensures { result ≡ spec.holds_a_token piece.now }
{
    match piece {
        [] => false,
        [_, ..] => true,
    }
}

/// Whether more than 256 pieces hold a token.
fn has_too_many_pieces(tokens: &[Token]) -> bool
    ensures { result ≡ nat_lt 256 (spec.number (λ piece. spec.holds_a_token piece) (spec.pieces tokens.now)) }
{
    let mut left = MAX_PIECES;
    let mut rest = Some(tokens);
    while let Some(ahead) = rest {
        let (piece, following) = split(ahead);
        if holds_a_token(piece) {
            if left == 0 {
                return true;
            }
            left -= 1;
        }
        rest = following;
    }
    false
}

fn has_too_many(tokens: &[Token]) -> bool
    ensures { result ≡ spec.has_too_many tokens.now }
{
    has_too_many_pieces(tokens) || some_piece(&TooManyRows, tokens)
}

fn has_deep_token(tokens: &[Token]) -> bool
    ensures { result ≡ spec.has_deep_token tokens.now }
{
    some_piece(&Deep, tokens)
}

fn has_unsupported_token(tokens: &[Token]) -> bool
    ensures { result ≡ spec.has_unsupported_token tokens.now }
{
    some_piece(&Unsupported, tokens)
}

/// The cause for which a token list outside the limited grammar is refused: the first of the four that holds of the whole
/// list. The marks are those of the tokens. Nothing is allocated.
pub fn cause_of(tokens: &[Token], marks: &[Mark]) -> Cause
    requires { marks.now ≡ words.marks tokens.now }
    ensures { IsCause tokens.now result }
{
    if has_too_many(tokens) {
        return Cause::TooMany;
    }
    if has_deep_token(tokens) {
        return Cause::TooDeep;
    }
    if is_unlimited(marks) {
        return Cause::TooDeep;
    }
    if is_wide(marks) {
        return Cause::Unsupported;
    }
    if has_unsupported_token(tokens) {
        return Cause::Unsupported;
    }
    Cause::Syntax
}
