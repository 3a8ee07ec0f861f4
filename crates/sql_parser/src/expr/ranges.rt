//! What stands after IN and BETWEEN. A function for each step, since a tree that is held over a step that may fail
//! costs much to check.

ghost use Rattle.std.specs.Prelude.{◌≡◌, ◌+◌, max};
ghost use Rattle.sql_grammar.specs.Grammar.{negation, within};
ghost use Rattle.sql_grammar.specs.Reading as spec;
ghost use Rattle.sql_parser.specs.Nests.{Nests};
ghost use Rattle.sql_parser.specs.Reads.{Reads};

use crate::error::Refusal;
use crate::expr::Grammar;
use crate::kept::{beside, kept};
use crate::levels::Start;
use crate::nodes;
use crate::tokens::Tokens;
use cell_base::Items;
use sql_grammar::Node;
use sql_tree::Expr;
use std::alloc::Global;

impl<F: Fn(Global, &mut Tokens<'_>, u32, Start) -> Result<Node, Refusal>> Grammar<F> {
    #[tactic(auto, unfolding(sql_grammar::specs::Reading::among))]
    pub fn among(&self, tokens: &mut Tokens<'_>, negated: bool, left: Node) -> Result<Node, Refusal>
        requires { Nests self.now.inner (F.pre self.now.deep) (F.post self.now.deep) }
        ensures { Reads (spec.among self.now.room (spec.read self.now.inner) negated left tokens.old) result tokens.new }
    {
        let left = kept(left, tokens.opening())?;
        self.listed(tokens, negated, left)
    }

    /// The list, and what closes it.
    fn listed(&self, tokens: &mut Tokens<'_>, negated: bool, left: Node) -> Result<Node, Refusal>
        requires { Nests self.now.inner (F.pre self.now.deep) (F.post self.now.deep) }
        ensures { Reads (spec.and_then (spec.list self.now.room (spec.read self.now.inner) tokens.old) (λ found us. spec.and_then (spec.close us) (λ u. spec.made self.now.room (Expr.In left.tree found.0 negated) (1 + max left.depth found.1)))) result tokens.new }
    {
        let (left, (found, depth)) = beside(left, self.list(tokens))?;
        self.closed(tokens, negated, left, found, depth)
    }

    fn closed(
        &self,
        tokens: &mut Tokens<'_>,
        negated: bool,
        left: Node,
        found: Items<Expr>,
        depth: u32,
    ) -> Result<Node, Refusal>
        ensures { Reads (spec.and_then (spec.close tokens.old) (λ u. spec.made self.now.room (Expr.In left.tree found negated) (1 + max left.depth depth))) result tokens.new }
    {
        let (left, found) = kept((left, found), tokens.close())?;
        nodes::one_of(self.alloc, self.room, left, found, depth, negated)
    }

    #[tactic(auto, unfolding(sql_grammar::specs::Reading::between))]
    pub fn between(
        &self,
        tokens: &mut Tokens<'_>,
        negated: bool,
        left: Node,
    ) -> Result<Node, Refusal>
        requires { Nests self.now.inner (F.pre self.now.deep) (F.post self.now.deep) }
        ensures { Reads (spec.between self.now.room (spec.read self.now.inner) negated left tokens.old) result tokens.new }
    {
        let (left, low) = beside(left, self.sum(tokens))?;
        self.above(tokens, negated, left, low)
    }

    /// What follows the lower end.
    fn above(
        &self,
        tokens: &mut Tokens<'_>,
        negated: bool,
        left: Node,
        low: Node,
    ) -> Result<Node, Refusal>
        requires { Nests self.now.inner (F.pre self.now.deep) (F.post self.now.deep) }
        ensures { Reads (spec.and_then (spec.and_word tokens.old) (λ u us. spec.and_then (spec.read_sum self.now.room (spec.read self.now.inner) us) (λ high. spec.made self.now.room (negation negated (within left.tree low.tree high.tree)) (16 + max left.depth (max low.depth high.depth))))) result tokens.new }
    {
        let (left, low) = kept((left, low), tokens.and_word())?;
        self.upper(tokens, negated, left, low)
    }

    /// The upper end.
    fn upper(
        &self,
        tokens: &mut Tokens<'_>,
        negated: bool,
        left: Node,
        low: Node,
    ) -> Result<Node, Refusal>
        requires { Nests self.now.inner (F.pre self.now.deep) (F.post self.now.deep) }
        ensures { Reads (spec.and_then (spec.read_sum self.now.room (spec.read self.now.inner) tokens.old) (λ high. spec.made self.now.room (negation negated (within left.tree low.tree high.tree)) (16 + max left.depth (max low.depth high.depth)))) result tokens.new }
    {
        let ((left, low), high) = beside((left, low), self.sum(tokens))?;
        nodes::between(self.alloc, self.room, negated, left, low, high)
    }
}
