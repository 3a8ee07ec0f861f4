// Parts that stand one after the other.
ghost use Rattle.std.specs.Prelude.{◌≡◌, ℕ, Bool, List, [], ◌∷◌, length, Option};
ghost use Rattle.sql_tree.specs.declared.token.Sign.TheVariants as s;
ghost use Rattle.sql_grammar.specs.declared.mark.Mark.{Mark};
ghost use Rattle.sql_grammar.specs.declared.mark.Sought.TheVariants as sought;
ghost use Rattle.sql_grammar.specs.Reading.{front};
ghost use Rattle.sql_grammar.specs.Syntax.{Kind, kind, is};
ghost use Rattle.sql_grammar.specs.Steps.{repeat_from};
ghost use Rattle.sql_parser.specs.Parts.{Finds, following, after_comma, braced_by, listed_by};
ghost use Rattle.sql_parser.specs.Reads.{Reads};

use crate::error::Refusal;
use crate::kept::kept;
use crate::tokens::Tokens;
use cell_base::Items;
use sql_grammar::Sought;
use sql_tree::Sign;
use std::alloc::Global;

/// A part that is read.
pub trait Part {
    type Out: Drop;

    ghost reading: { List Mark → Option (Self.Out × List Mark) };

    fn read(&self, alloc: Global, tokens: &mut Tokens<'_>) -> Result<Self::Out, Refusal>
        ensures { Reads (reading tokens.old) result tokens.new };
}

/// What may follow any number of times, each time told by the next mark.
pub trait Next {
    type Out: Drop;

    ghost begins: { Kind → Bool };

    ghost reading: { List Mark → Option (List Self.Out × List Mark) };

    fn is_next(&self, tokens: &Tokens<'_>) -> bool
        ensures { result ≡ begins (kind (front tokens.now)) };

    fn read(
        &self,
        alloc: Global,
        tokens: &mut Tokens<'_>,
        found: &mut Items<Self::Out>,
    ) -> Result<(), Refusal>
        ensures { Finds (following found.old (reading tokens.old)) result found.new tokens.new };
}

/// Reads on as long as what may follow does.
#[tactic(auto, unfolding(sql_grammar::specs::Steps::repeat_from))]
pub fn repeat<N: Next>(
    next: &N,
    alloc: Global,
    tokens: &mut Tokens<'_>,
    found: &mut Items<N::Out>,
) -> Result<(), Refusal>
    ensures { Finds (repeat_from N.begins N.reading (length tokens.old) found.old tokens.old) result found.new tokens.new }
{
    for _turn in 0..tokens.len() {
        if !next.is_next(tokens) {
            return Ok(());
        }
        next.read(alloc, tokens, found)?;
    }
    Ok(())
}

/// A part after a comma.
#[derive(Drop)]
struct AfterComma<'a, P> {
    part: &'a P,
}

impl<'a, P: Part> Next for AfterComma<'a, P> {
    type Out = P::Out;

    ghost begins = { is (sought.Sign s.Comma) };

    ghost reading = { after_comma P.reading };

    fn is_next(&self, tokens: &Tokens<'_>) -> bool {
        tokens.at_sign(Sign::Comma)
    }

    fn read(
        &self,
        alloc: Global,
        tokens: &mut Tokens<'_>,
        found: &mut Items<P::Out>,
    ) -> Result<(), Refusal> {
        tokens.sign(Sign::Comma)?;
        let item = self.part.read(alloc, tokens)?;
        found.push(item)?;
        Ok(())
    }
}

/// One or more with commas between.
pub fn listed<P: Part>(
    part: &P,
    alloc: Global,
    tokens: &mut Tokens<'_>,
) -> Result<Items<P::Out>, Refusal>
    ensures { Reads (listed_by P.reading tokens.old) result tokens.new }
{
    let mut found = Items::new(alloc);
    found.push(part.read(alloc, tokens)?)?;
    repeat(&AfterComma { part }, alloc, tokens, &mut found)?;
    Ok(found)
}

/// One or more with commas between, in parentheses.
pub fn braced<P: Part>(
    part: &P,
    alloc: Global,
    tokens: &mut Tokens<'_>,
) -> Result<Items<P::Out>, Refusal>
    ensures { Reads (braced_by (listed_by P.reading) tokens.old) result tokens.new }
{
    tokens.sign(Sign::Open)?;
    let found = listed(part, alloc, tokens)?;
    kept(found, tokens.sign(Sign::Close))
}
