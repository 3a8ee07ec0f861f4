//! Reads statements: exactly those of the grammar, each as its one tree.
#![tactic(auto)]

ghost use Rattle.std.specs.Prelude.{List, IfOk};
ghost use Rattle.sql_tree.specs.declared.statement.Statement.{Statement};
ghost use Rattle.sql_grammar.specs.Steps.{reading};
ghost use Rattle.sql_grammar.specs.Statements as st;
ghost use Rattle.sql_grammar.specs.Words as words;
ghost use Rattle.sql_grammar.specs.Limited.{IsLimited, max_depth, max_rows, max_statements};
ghost use Rattle.sql_parser.specs.Reads.{Gives, EndsWith};

mod change;
mod create;
mod defaults;
mod error;
mod expr;
mod expression;
mod grammar;
mod kept;
mod levels;
mod message;
mod nodes;
mod parts;
mod select;
mod setting;
mod table;
mod takes;
mod tokens;
mod transaction;

use crate::message::message;
use crate::tokens::Tokens;
use cell_base::Items;
pub use error::Refusal;
use sql_grammar::{Mark, marks};
use sql_tree::{Statement, Token};
use std::alloc::Global;

fn whole(alloc: Global, marks: &[Mark]) -> Result<Items<Statement>, Refusal>
    ensures { EndsWith (reading (st.message max_depth max_rows max_statements) marks.now) result }
{
    let mut tokens = Tokens::new(marks);
    let found = message(alloc, &mut tokens)?;
    match tokens.peek() {
        None => Ok(found),
        Some(_) => Err(Refusal::NotInGrammar),
    }
}

/// The statements that the tokens spell, all of them. Pieces without a token give none.
pub fn parse(alloc: Global, tokens: &[Token]) -> Result<Items<Statement>, Refusal>
    // What is read is in the limited grammar, with just these trees.
    ensures found { IfOk result (λ xs. IsLimited (words.marks tokens.now) xs) }
    // What is in the limited grammar is read, unless memory runs out. So it has no other trees.
    ensures only { (xs : List Statement) → IsLimited (words.marks tokens.now) xs → Gives result xs }
{
    let found = marks(alloc, tokens)?;
    whole(alloc, found.as_slice())
}
