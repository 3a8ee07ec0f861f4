// Expressions as statements have them.
ghost use Rattle.sql_grammar.specs.Steps.{reading};
ghost use Rattle.sql_grammar.specs.Syntax as syntax;
ghost use Rattle.sql_grammar.specs.Limited.{max_depth};
ghost use Rattle.sql_parser.specs.Reads.{Reads};

use crate::error::Refusal;
use crate::grammar::read;
use crate::levels::Start;
use crate::tokens::Tokens;
use sql_tree::Expr;
use std::alloc::Global;

/// How deep an expression may be spelled.
const MAX_DEPTH: u32 = 64;

/// An expression.
pub fn expression(alloc: Global, tokens: &mut Tokens<'_>) -> Result<Expr, Refusal>
    ensures { Reads (reading (syntax.expression max_depth) tokens.old) result tokens.new }
{
    let found = read(alloc, tokens, MAX_DEPTH, Start::Whole)?;
    Ok(found.tree)
}
