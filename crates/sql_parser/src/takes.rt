//! Marks that may be there: read where they are, and left alone where not.

ghost use Rattle.std.specs.Prelude.{◌≡◌};
ghost use Rattle.std.specs.Bool.{OnTrue, OnFalse};
ghost use Rattle.sql_grammar.specs.Reading as spec;
ghost use Rattle.sql_grammar.specs.declared.mark.Sought.TheVariants as which;
ghost use Rattle.sql_grammar.specs.Syntax.{kind, is};

use crate::tokens::Tokens;
use sql_grammar::{Keyword, Sought, Word};
use sql_tree::Sign;

impl<'a> Tokens<'a> {
    /// Reads the word, keyword or sign if it comes next, and says whether it did.
    pub fn takes(&mut self, sought: Sought) -> bool
        ensures seen { result ≡ is sought (kind (spec.front self.old)) }
        ensures taken { OnTrue result (self.new ≡ spec.rest self.old) }
        ensures left { OnFalse result (self.new ≡ self.old) }
    {
        let found = self.at(sought);
        if found {
            self.skip();
        }
        found
    }

    pub fn takes_word(&mut self, word: Word) -> bool
        ensures seen { result ≡ is (which.Plain word) (kind (spec.front self.old)) }
        ensures taken { OnTrue result (self.new ≡ spec.rest self.old) }
        ensures left { OnFalse result (self.new ≡ self.old) }
    {
        self.takes(Sought::Plain(word))
    }

    pub fn takes_reserved(&mut self, word: Word) -> bool
        ensures seen { result ≡ is (which.Reserved word) (kind (spec.front self.old)) }
        ensures taken { OnTrue result (self.new ≡ spec.rest self.old) }
        ensures left { OnFalse result (self.new ≡ self.old) }
    {
        self.takes(Sought::Reserved(word))
    }

    pub fn takes_key(&mut self, key: Keyword) -> bool
        ensures seen { result ≡ is (which.Key key) (kind (spec.front self.old)) }
        ensures taken { OnTrue result (self.new ≡ spec.rest self.old) }
        ensures left { OnFalse result (self.new ≡ self.old) }
    {
        self.takes(Sought::Key(key))
    }

    pub fn takes_sign(&mut self, sign: Sign) -> bool
        ensures seen { result ≡ is (which.Sign sign) (kind (spec.front self.old)) }
        ensures taken { OnTrue result (self.new ≡ spec.rest self.old) }
        ensures left { OnFalse result (self.new ≡ self.old) }
    {
        self.takes(Sought::Sign(sign))
    }
}
