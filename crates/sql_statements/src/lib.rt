//! Reads the statements of a text or a token list, or answers the one fault that comes first.
//!
//! [`parse`] and [`statements`] answer exactly the trees of the grammar within its limits, or exactly the fault of the
//! table of causes that `sql_refusal` judges by. Both directions stand as clauses, and [`one_answer`] is the law that a text
//! has one answer.
#![tactic(auto)]

ghost use Rattle.std.specs.Prelude.{◌≡◌, ◌<◌, ◌^◌, ◌⊎◌, ℕ, List, length, IfOk, IfErr};
ghost use Rattle.sql_tree.specs.declared.statement.Statement.{Statement};
ghost use Rattle.sql_grammar.specs.Words as words;
ghost use Rattle.sql_grammar.specs.Limited.{IsLimited};
ghost use Rattle.sql_statements.specs.declared.fault.ParseFault.{ParseFault};
ghost use Rattle.sql_statements.specs.Faults.{AreStatementsOf, Answers, HasCause, IsFaultOfList, IsFaultOfText, Refuses, UnlessMemory};

mod fault;

use cell_base::{Items, Text};
pub use fault::ParseFault;
use sql_grammar::{Mark, marks};
use sql_lexer::{LexFault, tokens as tokens_of};
use sql_parser::{Refusal, parse as parse_limited};
use sql_refusal::{Cause, cause_of};
use sql_tree::{Statement, Token};
use std::alloc::Global;

/// The fault of a list that the limited grammar doesn't hold.
fn refusal(tokens: &[Token], marks: &[Mark]) -> ParseFault
    requires { marks.now ≡ words.marks tokens.now }
    ensures { HasCause tokens.now result }
{
    match cause_of(tokens, marks) {
        Cause::TooMany => ParseFault::TooMany,
        Cause::TooDeep => ParseFault::TooDeep,
        Cause::Unsupported => ParseFault::Unsupported,
        Cause::Syntax => ParseFault::Syntax,
    }
}

/// The cause of a list that the limited grammar doesn't hold, or that memory for its marks ran out.
fn refused(alloc: Global, tokens: &[Token]) -> ParseFault
    ensures { UnlessMemory (HasCause tokens.now) result }
{
    match marks(alloc, tokens) {
        Ok(found) => refusal(tokens, found.as_slice()),
        Err(_) => ParseFault::Memory,
    }
}

/// The statements that the tokens spell, all of them. Pieces without a token give none.
///
/// A list outside the grammar, or beyond its limits of 256 statements, 1,000 rows of an INSERT and a depth of 64 for each
/// expression, is refused by the first that holds of it: TooMany, TooDeep, Unsupported, Syntax.
pub fn parse(alloc: Global, tokens: &[Token]) -> Result<Items<Statement>, ParseFault>
    // What is read is in the limited grammar, with just these trees.
    ensures found { IfOk result (λ xs. IsLimited (words.marks tokens.now) xs) }
    // What is in the limited grammar is read, unless memory runs out. So it has no other trees.
    ensures only { (xs : List Statement) → IsLimited (words.marks tokens.now) xs → Answers result xs }
    // A fault that is answered is the list's, unless memory ran out.
    ensures fault { IfErr result (λ f. UnlessMemory (IsFaultOfList tokens.now) f) }
    // The list's fault is the one answered, unless memory runs out.
    ensures refused { (f : ParseFault) → IsFaultOfList tokens.now f → Refuses result f }
{
    match parse_limited(alloc, tokens) {
        Ok(statements) => Ok(statements),
        Err(Refusal::Memory) => Err(ParseFault::Memory),
        Err(Refusal::NotInGrammar) => Err(refused(alloc, tokens)),
    }
}

/// The statements of a text of fewer than 4,294,967,296 bytes: those of its tokens. A fault of the lexer comes before one
/// of the tokens.
pub fn statements(alloc: Global, text: &Text) -> Result<Items<Statement>, ParseFault>
    requires { length text.now < 2 ^ 32 }
    // What is read are the text's statements.
    ensures found { IfOk result (λ xs. AreStatementsOf text.now xs) }
    // The text's statements are read, unless memory runs out. So it has no others.
    ensures only { (xs : List Statement) → AreStatementsOf text.now xs → Answers result xs }
    // A fault that is answered is the text's, unless memory ran out.
    ensures fault { IfErr result (λ f. UnlessMemory (IsFaultOfText text.now) f) }
    // The text's fault is the one answered, unless memory runs out.
    ensures refused { (f : ParseFault) → IsFaultOfText text.now f → Refuses result f }
{
    match tokens_of(alloc, text) {
        Ok(found) => parse(alloc, &found),
        Err(LexFault::Memory) => Err(ParseFault::Memory),
        Err(fault) => Err(ParseFault::Lex(fault)),
    }
}

/// The law that a text has one answer: statements or a fault, not both, and no two of either.
pub fn one_answer()
    ensures some_answer { (text : List ℕ)
        → ((xs : List Statement) × AreStatementsOf text xs) ⊎ ((f : ParseFault) × IsFaultOfText text f) }
    ensures one_list { (text : List ℕ) (xs ys : List Statement) → AreStatementsOf text xs → AreStatementsOf text ys → xs ≡ ys }
    ensures one_fault { (text : List ℕ) (f g : ParseFault) → IsFaultOfText text f → IsFaultOfText text g → f ≡ g }
    ensures not_both { (text : List ℕ) (xs : List Statement) (f : ParseFault) → AreStatementsOf text xs → ¬ (IsFaultOfText text f) }
{}
