//! Expressions, a function for each level. The parser of what stands in parentheses or after NOT or a sign is a
//! parameter, so that each function is proved by itself.

ghost use Rattle.std.specs.Prelude.{◌≡◌, ◌+◌, [], MatchResult};
ghost use Rattle.sql_grammar.specs.Reading as spec;
ghost use Rattle.sql_parser.specs.Levels.{level_of_start};
ghost use Rattle.sql_parser.specs.Nests.{Nests};
ghost use Rattle.sql_parser.specs.Reads.{Reads};

mod chains;
mod ranges;

use crate::error::Refusal;
use crate::expr::chains::Links;
use crate::kept::{beside, kept};
use crate::levels::{Chain, Start};
use crate::nodes;
use crate::nodes::{binary, comparison, leaf, made};
use crate::tokens::Tokens;
use cell_base::{Items, Text};
use sql_grammar::{Keyword, Mark, Node};
use sql_tree::{Expr, Sign};
use std::alloc::Global;

/// The tree of the one mark that comes next.
fn one_mark(tokens: &mut Tokens<'_>, tree: Expr) -> Node
    ensures value { result ≡ spec.node tree 1 }
    ensures left { tokens.new ≡ spec.rest tokens.old }
{
    tokens.skip();
    leaf(tree)
}

#[derive(Drop)]
pub struct Grammar<F> {
    pub alloc: Global,
    /// How deep a spelling may be, and how deep one inside it.
    pub room: u32,
    pub inner: u32,
    pub deep: F,
}

impl<F: Fn(Global, &mut Tokens<'_>, u32, Start) -> Result<Node, Refusal>> Grammar<F> {
    fn deeper(&self, tokens: &mut Tokens<'_>, start: Start) -> Result<Node, Refusal>
        requires { Nests self.now.inner (F.pre self.now.deep) (F.post self.now.deep) }
        ensures { Reads (spec.read self.now.inner (level_of_start start) tokens.old) result tokens.new }
    {
        (self.deep)(self.alloc, tokens, self.inner, start)
    }

    #[tactic(auto, unfolding(sql_grammar::specs::Reading::parens))]
    fn parens(&self, tokens: &mut Tokens<'_>) -> Result<Node, Refusal>
        requires { Nests self.now.inner (F.pre self.now.deep) (F.post self.now.deep) }
        ensures { Reads (spec.parens self.now.room (spec.read self.now.inner) tokens.old) result tokens.new }
    {
        let x = self.deeper(tokens, Start::Whole)?;
        let x = kept(x, tokens.close())?;
        made(self.room, x.tree, 1, x.depth)
    }

    #[tactic(auto, unfolding(sql_grammar::specs::Reading::argument))]
    fn argument(&self, tokens: &mut Tokens<'_>, called: Text) -> Result<Node, Refusal>
        requires { Nests self.now.inner (F.pre self.now.deep) (F.post self.now.deep) }
        ensures { Reads (spec.argument self.now.room (spec.read self.now.inner) called tokens.old) result tokens.new }
    {
        let x = self.deeper(tokens, Start::Whole)?;
        let x = kept(x, tokens.close())?;
        nodes::call(self.alloc, self.room, called, x)
    }

    #[tactic(auto, unfolding(sql_grammar::specs::Reading::call))]
    fn call(&self, tokens: &mut Tokens<'_>, called: Text) -> Result<Node, Refusal>
        requires { Nests self.now.inner (F.pre self.now.deep) (F.post self.now.deep) }
        ensures { Reads (spec.call self.now.room (spec.read self.now.inner) called tokens.old) result tokens.new }
    {
        match tokens.peek() {
            Some(Mark::Sign(Sign::Star)) => {
                tokens.skip();
                tokens.close()?;
                Ok(leaf(Expr::Call(called, None)))
            }
            _ => self.argument(tokens, called),
        }
    }

    #[tactic(auto, unfolding(sql_grammar::specs::Reading::named))]
    fn named(&self, tokens: &mut Tokens<'_>, first: Text) -> Result<Node, Refusal>
        requires { Nests self.now.inner (F.pre self.now.deep) (F.post self.now.deep) }
        ensures { Reads (spec.named self.now.room (spec.read self.now.inner) first tokens.old) result tokens.new }
    {
        match tokens.peek() {
            Some(Mark::Sign(Sign::Dot)) => {
                tokens.skip();
                let second = tokens.name(self.alloc)?;
                Ok(leaf(Expr::Column(Some(first), second)))
            }
            Some(Mark::Sign(Sign::Open)) => {
                tokens.skip();
                self.call(tokens, first)
            }
            _ => Ok(leaf(Expr::Column(None, first))),
        }
    }

    /// The name that comes next, and what is read after it.
    fn at_word(&self, tokens: &mut Tokens<'_>, name: &Text) -> Result<Node, Refusal>
        requires { Nests self.now.inner (F.pre self.now.deep) (F.post self.now.deep) }
        ensures { Reads (spec.named self.now.room (spec.read self.now.inner) name.now (spec.rest tokens.old)) result tokens.new }
    {
        let first = name.copy(self.alloc)?;
        tokens.skip();
        self.named(tokens, first)
    }

    #[tactic(auto, unfolding(sql_grammar::specs::Reading::read_atom))]
    fn atom(&self, tokens: &mut Tokens<'_>) -> Result<Node, Refusal>
        requires { Nests self.now.inner (F.pre self.now.deep) (F.post self.now.deep) }
        ensures { Reads (spec.read_atom self.now.room (spec.read self.now.inner) tokens.old) result tokens.new }
    {
        match tokens.peek() {
            Some(Mark::Number(n)) => Ok(one_mark(tokens, Expr::Int(*n))),
            Some(Mark::Str(text)) => Ok(one_mark(tokens, Expr::Str(text.copy(self.alloc)?))),
            Some(Mark::Key(Keyword::True)) => Ok(one_mark(tokens, Expr::Flag(true))),
            Some(Mark::Key(Keyword::False)) => Ok(one_mark(tokens, Expr::Flag(false))),
            Some(Mark::Key(Keyword::Null)) => Ok(one_mark(tokens, Expr::Null)),
            Some(Mark::Plain(_, name)) => self.at_word(tokens, name),
            Some(Mark::Quoted(name)) => self.at_word(tokens, name),
            Some(Mark::Sign(Sign::Open)) => {
                tokens.skip();
                self.parens(tokens)
            }
            _ => Err(Refusal::NotInGrammar),
        }
    }

    #[tactic(auto, unfolding(sql_grammar::specs::Reading::read_un))]
    fn un(&self, tokens: &mut Tokens<'_>) -> Result<Node, Refusal>
        requires { Nests self.now.inner (F.pre self.now.deep) (F.post self.now.deep) }
        ensures { Reads (spec.read_un self.now.room (spec.read self.now.inner) tokens.old) result tokens.new }
    {
        match tokens.peek() {
            Some(Mark::Sign(Sign::Minus)) => {
                tokens.skip();
                let x = self.deeper(tokens, Start::Sign)?;
                nodes::negative(self.alloc, self.room, x)
            }
            Some(Mark::Sign(Sign::Plus)) => {
                tokens.skip();
                let x = self.deeper(tokens, Start::Sign)?;
                made(self.room, x.tree, 1, x.depth)
            }
            _ => self.atom(tokens),
        }
    }

    #[tactic(auto, unfolding(sql_grammar::specs::Reading::read_prod))]
    fn prod(&self, tokens: &mut Tokens<'_>) -> Result<Node, Refusal>
        requires { Nests self.now.inner (F.pre self.now.deep) (F.post self.now.deep) }
        ensures { Reads (spec.read_prod self.now.room (spec.read self.now.inner) tokens.old) result tokens.new }
    {
        Links {
            grammar: self,
            chain: Chain::Product,
            operand: &Self::un,
        }
        .read(tokens)
    }

    #[tactic(auto, unfolding(sql_grammar::specs::Reading::read_sum))]
    fn sum(&self, tokens: &mut Tokens<'_>) -> Result<Node, Refusal>
        requires { Nests self.now.inner (F.pre self.now.deep) (F.post self.now.deep) }
        ensures { Reads (spec.read_sum self.now.room (spec.read self.now.inner) tokens.old) result tokens.new }
    {
        Links {
            grammar: self,
            chain: Chain::Sum,
            operand: &Self::prod,
        }
        .read(tokens)
    }

    #[tactic(auto, unfolding(sql_grammar::specs::Reading::list, sql_grammar::specs::Reading::list_from))]
    fn list(&self, tokens: &mut Tokens<'_>) -> Result<(Items<Expr>, u32), Refusal>
        requires { Nests self.now.inner (F.pre self.now.deep) (F.post self.now.deep) }
        ensures { Reads (spec.list self.now.room (spec.read self.now.inner) tokens.old) result tokens.new }
    {
        let mut found = Items::new(self.alloc);
        let mut depth = 0;
        for _turn in 0..tokens.len() {
            let x = self.deeper(tokens, Start::Whole)?;
            depth = x.depth.max(depth);
            found.push(x.tree)?;
            if !tokens.comma()? {
                return Ok((found, depth));
            }
        }
        Err(Refusal::NotInGrammar)
    }

    #[tactic(auto, unfolding(sql_grammar::specs::Reading::not_range))]
    fn not_range(&self, tokens: &mut Tokens<'_>, left: Node) -> Result<Node, Refusal>
        requires { Nests self.now.inner (F.pre self.now.deep) (F.post self.now.deep) }
        ensures { Reads (spec.not_range self.now.room (spec.read self.now.inner) left tokens.old) result tokens.new }
    {
        match tokens.peek() {
            Some(Mark::Key(Keyword::In)) => {
                tokens.skip();
                self.among(tokens, true, left)
            }
            Some(Mark::Key(Keyword::Between)) => {
                tokens.skip();
                self.between(tokens, true, left)
            }
            _ => {
                drop(left);
                Err(Refusal::NotInGrammar)
            }
        }
    }

    #[tactic(auto, unfolding(sql_grammar::specs::Reading::range))]
    fn range(&self, tokens: &mut Tokens<'_>, left: Node) -> Result<Node, Refusal>
        requires { Nests self.now.inner (F.pre self.now.deep) (F.post self.now.deep) }
        ensures { Reads (spec.range self.now.room (spec.read self.now.inner) left tokens.old) result tokens.new }
    {
        match tokens.peek() {
            Some(Mark::Key(Keyword::In)) => {
                tokens.skip();
                self.among(tokens, false, left)
            }
            Some(Mark::Key(Keyword::Between)) => {
                tokens.skip();
                self.between(tokens, false, left)
            }
            Some(Mark::Key(Keyword::Not)) => {
                tokens.skip();
                self.not_range(tokens, left)
            }
            _ => Ok(left),
        }
    }

    #[tactic(auto, unfolding(sql_grammar::specs::Reading::read_rng))]
    fn rng(&self, tokens: &mut Tokens<'_>) -> Result<Node, Refusal>
        requires { Nests self.now.inner (F.pre self.now.deep) (F.post self.now.deep) }
        ensures { Reads (spec.read_rng self.now.room (spec.read self.now.inner) tokens.old) result tokens.new }
    {
        let left = self.sum(tokens)?;
        self.range(tokens, left)
    }

    #[tactic(auto, unfolding(sql_grammar::specs::Reading::compared))]
    fn compared(&self, tokens: &mut Tokens<'_>, left: Node) -> Result<Node, Refusal>
        requires { Nests self.now.inner (F.pre self.now.deep) (F.post self.now.deep) }
        ensures { Reads (spec.compared self.now.room (spec.read self.now.inner) left tokens.old) result tokens.new }
    {
        let Some(op) = comparison(tokens.peek()) else {
            return Ok(left);
        };
        tokens.skip();
        let (left, right) = beside(left, self.rng(tokens))?;
        binary(self.alloc, self.room, op, left, right)
    }

    #[tactic(auto, unfolding(sql_grammar::specs::Reading::read_cmp))]
    fn cmp(&self, tokens: &mut Tokens<'_>) -> Result<Node, Refusal>
        requires { Nests self.now.inner (F.pre self.now.deep) (F.post self.now.deep) }
        ensures { Reads (spec.read_cmp self.now.room (spec.read self.now.inner) tokens.old) result tokens.new }
    {
        let left = self.rng(tokens)?;
        self.compared(tokens, left)
    }

    #[tactic(auto, unfolding(sql_grammar::specs::Reading::null_test))]
    fn null_test(&self, tokens: &mut Tokens<'_>, left: Node) -> Result<Node, Refusal>
        ensures { Reads (spec.null_test self.now.room (spec.read self.now.inner) left tokens.old) result tokens.new }
    {
        let (left, negated) = beside(left, tokens.not_word())?;
        let left = kept(left, tokens.null_word())?;
        nodes::null_test(self.alloc, self.room, left, negated)
    }

    #[tactic(auto, unfolding(sql_grammar::specs::Reading::read_is, sql_grammar::specs::Reading::tests_from))]
    fn is(&self, tokens: &mut Tokens<'_>) -> Result<Node, Refusal>
        requires { Nests self.now.inner (F.pre self.now.deep) (F.post self.now.deep) }
        ensures { Reads (spec.read_is self.now.room (spec.read self.now.inner) tokens.old) result tokens.new }
    {
        let mut left = self.cmp(tokens)?;
        for _turn in 0..self.room {
            let Some(Mark::Key(Keyword::Is)) = tokens.peek() else {
                return Ok(left);
            };
            tokens.skip();
            left = self.null_test(tokens, left)?;
        }
        drop(left);
        Err(Refusal::NotInGrammar)
    }

    #[tactic(auto, unfolding(sql_grammar::specs::Reading::read_not))]
    fn not(&self, tokens: &mut Tokens<'_>) -> Result<Node, Refusal>
        requires { Nests self.now.inner (F.pre self.now.deep) (F.post self.now.deep) }
        ensures { Reads (spec.read_not self.now.room (spec.read self.now.inner) tokens.old) result tokens.new }
    {
        match tokens.peek() {
            Some(Mark::Key(Keyword::Not)) => {
                tokens.skip();
                let x = self.deeper(tokens, Start::Not)?;
                nodes::not(self.alloc, self.room, x)
            }
            _ => self.is(tokens),
        }
    }

    #[tactic(auto, unfolding(sql_grammar::specs::Reading::read_and))]
    fn and(&self, tokens: &mut Tokens<'_>) -> Result<Node, Refusal>
        requires { Nests self.now.inner (F.pre self.now.deep) (F.post self.now.deep) }
        ensures { Reads (spec.read_and self.now.room (spec.read self.now.inner) tokens.old) result tokens.new }
    {
        Links {
            grammar: self,
            chain: Chain::And,
            operand: &Self::not,
        }
        .read(tokens)
    }

    #[tactic(auto, unfolding(sql_grammar::specs::Reading::read_or))]
    fn or(&self, tokens: &mut Tokens<'_>) -> Result<Node, Refusal>
        requires { Nests self.now.inner (F.pre self.now.deep) (F.post self.now.deep) }
        ensures { Reads (spec.read_or self.now.room (spec.read self.now.inner) tokens.old) result tokens.new }
    {
        Links {
            grammar: self,
            chain: Chain::Or,
            operand: &Self::and,
        }
        .read(tokens)
    }

    pub fn start(&self, tokens: &mut Tokens<'_>, start: Start) -> Result<Node, Refusal>
        requires { Nests self.now.inner (F.pre self.now.deep) (F.post self.now.deep) }
        ensures { Reads (spec.read_at self.now.room (spec.read self.now.inner) (level_of_start start) tokens.old) result tokens.new }
    {
        match start {
            Start::Whole => self.or(tokens),
            Start::Not => self.not(tokens),
            Start::Sign => self.un(tokens),
        }
    }
}
