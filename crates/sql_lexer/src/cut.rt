// All tokens of a text.
ghost use Rattle.std.specs.Prelude.{◌≡◌, ◌<◌, ◌≤◌, ◌+◌, ◌^◌, ◌⊎◌, drop, length, IfOk, IfErr, MatchResult, List, ℕ};
ghost use Rattle.std.specs.Str.{IsUtf8};
ghost use Rattle.sql_tree.specs.declared.token.Token.{Token};
ghost use Rattle.sql_lexer.specs.declared.fault.LexFault.{LexFault};
ghost use Rattle.sql_lexer.specs.Tokens.{AreTokensOf, IsFirstFaultOf, IsFaultOf, IsFaultOrMemory};

use crate::LexFault;
use crate::piece::{Before, Piece, after, front};
use cell_base::Text;
use sql_tree::Token;
use std::alloc::Global;

fn rest(text: &[u8], at: usize) -> &[u8]
    requires { at ≤ length text.now }
    ensures { result.now ≡ drop at text.now }
{
    &text[at..]
}

fn cut(alloc: Global, text: &[u8]) -> Result<Vec<Token>, LexFault>
    requires fits { length text.now < 2 ^ 32 }
    requires utf8 { IsUtf8 text.now }
    ensures found { IfOk result (λ ts. AreTokensOf text.now ts.items) }
    ensures fault { IfErr result (λ f. IsFaultOf text.now f) }
{
    let mut found = Vec::new(alloc);
    let mut before = Before::Other;
    let mut at: usize = 0;
    while at < text.len() {
        let ahead = rest(text, at);
        let (piece, len) = front(alloc, before, at as u32, ahead)?;
        match piece {
            Piece::Gap => before = Before::Other,
            Piece::Kind(kind) => {
                before = after(&kind);
                let token = Token {
                    kind,
                    start: at as u32,
                    end: (at + len) as u32,
                };
                found.push(token)?;
            }
        }
        at += len;
    }
    Ok(found)
}

/// The tokens that stand for the text, in order, each with the place of its first byte and the place after its last,
/// or the fault of the first place at which nothing fits. The text has fewer than 4,294,967,296 bytes.
pub fn tokens(alloc: Global, text: &Text) -> Result<Vec<Token>, LexFault>
    requires { length text.now < 2 ^ 32 }
    ensures found { IfOk result (λ found. AreTokensOf text.now found.items) }
    // What stands for the text is found, unless memory runs out.
    ensures only { (ts : List Token) → AreTokensOf text.now ts
        → MatchResult result (λ found. found.items ≡ ts) (λ f. f ≡ LexFault.Memory) }
    ensures fault { IfErr result (λ f. IsFaultOf text.now f) }
    // The first fault of the text is answered, unless memory runs out.
    ensures refused { (f : LexFault) → IsFirstFaultOf text.now f
        → MatchResult result (λ found. ⊥) (λ g. IsFaultOrMemory g f) }
{
    cut(alloc, text.bytes())
}

/// The law that a text has one reading: tokens stand for it or a fault is its first, not both, and no two lists of tokens
/// or two faults.
pub fn one_reading()
    ensures some_reading { (text : List ℕ)
        → ((ts : List Token) × AreTokensOf text ts) ⊎ ((f : LexFault) × IsFirstFaultOf text f) }
    ensures one_list { (text : List ℕ) (ts us : List Token) → AreTokensOf text ts → AreTokensOf text us → ts ≡ us }
    ensures one_fault { (text : List ℕ) (f g : LexFault) → IsFirstFaultOf text f → IsFirstFaultOf text g → f ≡ g }
    ensures not_both { (text : List ℕ) (ts : List Token) (f : LexFault)
        → AreTokensOf text ts → ¬ (IsFirstFaultOf text f) }
{}
