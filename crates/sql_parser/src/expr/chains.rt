//! Chains: operands of a level with operators between them, from the left. What reads an operand is a parameter, so
//! that one proof serves all levels.

ghost use Rattle.sql_grammar.specs.Reading as spec;
ghost use Rattle.sql_parser.specs.Levels.{level_of_chain, operand_of};
ghost use Rattle.sql_parser.specs.Nests.{IsReader};
ghost use Rattle.sql_parser.specs.Reads.{Reads};

use crate::error::Refusal;
use crate::expr::Grammar;
use crate::kept::beside;
use crate::levels::Chain;
use crate::nodes::{binary, link};
use crate::tokens::Tokens;
use sql_grammar::Node;

/// A level of chains, and what reads its operands.
#[derive(Drop)]
pub struct Links<'a, F, O> {
    pub grammar: &'a Grammar<F>,
    pub chain: Chain,
    pub operand: &'a O,
}

impl<'a, F, O: Fn(&Grammar<F>, &mut Tokens<'_>) -> Result<Node, Refusal>> Links<'a, F, O> {
    fn next(&self, tokens: &mut Tokens<'_>) -> Result<Node, Refusal>
        requires { IsReader (operand_of self.now.chain self.now.grammar.now.room (spec.read self.now.grammar.now.inner)) (O.pre self.now.operand.now self.now.grammar) (O.post self.now.operand.now self.now.grammar) }
        ensures { Reads (operand_of self.now.chain self.now.grammar.now.room (spec.read self.now.grammar.now.inner) tokens.old) result tokens.new }
    {
        (self.operand)(self.grammar, tokens)
    }

    /// Reads the chain.
    #[tactic(auto, unfolding(sql_grammar::specs::Reading::chain_from))]
    pub fn read(&self, tokens: &mut Tokens<'_>) -> Result<Node, Refusal>
        requires { IsReader (operand_of self.now.chain self.now.grammar.now.room (spec.read self.now.grammar.now.inner)) (O.pre self.now.operand.now self.now.grammar) (O.post self.now.operand.now self.now.grammar) }
        ensures { Reads (spec.read_chain self.now.grammar.now.room (spec.read self.now.grammar.now.inner) (operand_of self.now.chain self.now.grammar.now.room (spec.read self.now.grammar.now.inner)) (level_of_chain self.now.chain) tokens.old) result tokens.new }
    {
        let mut left = self.next(tokens)?;
        for _turn in 0..self.grammar.room {
            let Some(op) = link(self.chain, tokens.peek()) else {
                return Ok(left);
            };
            tokens.skip();
            let (before, right) = beside(left, self.next(tokens))?;
            left = binary(self.grammar.alloc, self.grammar.room, op, before, right)?;
        }
        drop(left);
        Err(Refusal::NotInGrammar)
    }
}
