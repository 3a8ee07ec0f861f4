//! A cursor over marks.

ghost use Rattle.std.specs.Prelude.{◌≡◌, length};
ghost use Rattle.std.specs.Option.{option_copied};
ghost use Rattle.sql_grammar.specs.Reading as spec;
ghost use Rattle.sql_grammar.specs.declared.mark.Sought.TheVariants as which;
ghost use Rattle.sql_grammar.specs.Syntax.{kind, is, is_name, among, place, one, name_but, integer, text};
ghost use Rattle.sql_grammar.specs.Steps.{reading, fit, a_number, a_string};
ghost use Rattle.sql_parser.specs.Reads.{Reads};

use crate::error::Refusal;
use cell_base::Text;
use sql_grammar::{Keyword, Mark, Sought, Word};
use sql_tree::Sign;
use std::alloc::Global;
use std::marker::Model;

#[derive(Drop)]
pub struct Tokens<'a> {
    ahead: &'a [Mark],
}

impl<'a> Model for Tokens<'a> {
    ghost use Rattle.sql_parser.specs.Cursor.{Marks, marks_code};

    ghost Value = { Marks };

    ghost coded = { marks_code };

    ghost view = { λ t. t.ahead.now };
}

impl<'a> Tokens<'a> {
    pub fn new(ahead: &'a [Mark]) -> Tokens<'a>
        ensures { result ≡ ahead.now }
    {
        Tokens { ahead }
    }

    pub fn peek(&self) -> Option<&'a Mark>
        ensures { option_copied result ≡ spec.front self.now }
    {
        match self.ahead {
            [] => None,
            [first, ..] => Some(first),
        }
    }

    pub fn skip(&mut self)
        ensures { self.new ≡ spec.rest self.old }
    {
        if let [_, rest @ ..] = self.ahead {
            self.ahead = rest;
        }
    }

    pub fn len(&self) -> usize
        ensures { result ≡ length self.now }
    {
        self.ahead.len()
    }

    #[tactic(auto, unfolding(sql_grammar::specs::Reading::close))]
    pub fn close(&mut self) -> Result<(), Refusal>
        ensures { Reads (spec.close self.old) result self.new }
    {
        match self.peek() {
            Some(Mark::Sign(Sign::Close)) => {
                self.skip();
                Ok(())
            }
            _ => Err(Refusal::NotInGrammar),
        }
    }

    #[tactic(auto, unfolding(sql_grammar::specs::Reading::not_word))]
    pub fn not_word(&mut self) -> Result<bool, Refusal>
        ensures { Reads (spec.not_word self.old) result self.new }
    {
        match self.peek() {
            Some(Mark::Key(Keyword::Not)) => {
                self.skip();
                Ok(true)
            }
            _ => Ok(false),
        }
    }

    #[tactic(auto, unfolding(sql_grammar::specs::Reading::name))]
    pub fn name(&mut self, alloc: Global) -> Result<Text, Refusal>
        ensures { Reads (spec.name self.old) result self.new }
    {
        match self.peek() {
            Some(Mark::Plain(_, name)) => {
                self.skip();
                Ok(name.copy(alloc)?)
            }
            Some(Mark::Quoted(name)) => {
                self.skip();
                Ok(name.copy(alloc)?)
            }
            _ => Err(Refusal::NotInGrammar),
        }
    }

    #[tactic(auto, unfolding(sql_grammar::specs::Reading::opening))]
    pub fn opening(&mut self) -> Result<(), Refusal>
        ensures { Reads (spec.opening self.old) result self.new }
    {
        match self.peek() {
            Some(Mark::Sign(Sign::Open)) => {
                self.skip();
                Ok(())
            }
            _ => Err(Refusal::NotInGrammar),
        }
    }

    #[tactic(auto, unfolding(sql_grammar::specs::Reading::null_word))]
    pub fn null_word(&mut self) -> Result<(), Refusal>
        ensures { Reads (spec.null_word self.old) result self.new }
    {
        match self.peek() {
            Some(Mark::Key(Keyword::Null)) => {
                self.skip();
                Ok(())
            }
            _ => Err(Refusal::NotInGrammar),
        }
    }

    #[tactic(auto, unfolding(sql_grammar::specs::Reading::and_word))]
    pub fn and_word(&mut self) -> Result<(), Refusal>
        ensures { Reads (spec.and_word self.old) result self.new }
    {
        match self.peek() {
            Some(Mark::Key(Keyword::And)) => {
                self.skip();
                Ok(())
            }
            _ => Err(Refusal::NotInGrammar),
        }
    }

    #[tactic(auto, unfolding(sql_grammar::specs::Reading::comma))]
    pub fn comma(&mut self) -> Result<bool, Refusal>
        ensures { Reads (spec.comma self.old) result self.new }
    {
        match self.peek() {
            Some(Mark::Sign(Sign::Comma)) => {
                self.skip();
                Ok(true)
            }
            _ => Ok(false),
        }
    }

    /// Whether the word, keyword or sign comes next.
    pub fn at(&self, sought: Sought) -> bool
        ensures { result ≡ is sought (kind (spec.front self.now)) }
    {
        is_sought(sought, self.peek())
    }

    pub fn at_word(&self, word: Word) -> bool
        ensures { result ≡ is (which.Plain word) (kind (spec.front self.now)) }
    {
        self.at(Sought::Plain(word))
    }

    pub fn at_reserved(&self, word: Word) -> bool
        ensures { result ≡ is (which.Reserved word) (kind (spec.front self.now)) }
    {
        self.at(Sought::Reserved(word))
    }

    pub fn at_key(&self, key: Keyword) -> bool
        ensures { result ≡ is (which.Key key) (kind (spec.front self.now)) }
    {
        self.at(Sought::Key(key))
    }

    pub fn at_sign(&self, sign: Sign) -> bool
        ensures { result ≡ is (which.Sign sign) (kind (spec.front self.now)) }
    {
        self.at(Sought::Sign(sign))
    }

    /// Reads the word, keyword or sign.
    fn one(&mut self, sought: Sought) -> Result<(), Refusal>
        ensures { Reads (reading (one sought) self.old) result self.new }
    {
        if self.at(sought) {
            self.skip();
            Ok(())
        } else {
            Err(Refusal::NotInGrammar)
        }
    }

    pub fn word(&mut self, word: Word) -> Result<(), Refusal>
        ensures { Reads (reading (one (which.Plain word)) self.old) result self.new }
    {
        self.one(Sought::Plain(word))
    }

    pub fn reserved(&mut self, word: Word) -> Result<(), Refusal>
        ensures { Reads (reading (one (which.Reserved word)) self.old) result self.new }
    {
        self.one(Sought::Reserved(word))
    }

    pub fn key(&mut self, key: Keyword) -> Result<(), Refusal>
        ensures { Reads (reading (one (which.Key key)) self.old) result self.new }
    {
        self.one(Sought::Key(key))
    }

    pub fn sign(&mut self, sign: Sign) -> Result<(), Refusal>
        ensures { Reads (reading (one (which.Sign sign)) self.old) result self.new }
    {
        self.one(Sought::Sign(sign))
    }

    /// Whether a name comes next that is none of these words.
    pub fn at_name(&self, but: &[Word]) -> bool
        ensures { result ≡ is_name but.now (kind (spec.front self.now)) }
    {
        match self.peek() {
            Some(Mark::Plain(word, _)) => !is_among(but, *word),
            Some(Mark::Quoted(_)) => true,
            _ => false,
        }
    }

    /// Reads a name that is none of these words.
    pub fn name_but(&mut self, alloc: Global, but: &[Word]) -> Result<Text, Refusal>
        ensures { Reads (reading (name_but but.now) self.old) result self.new }
    {
        if self.at_name(but) {
            self.name(alloc)
        } else {
            Err(Refusal::NotInGrammar)
        }
    }

    pub fn integer(&mut self) -> Result<i64, Refusal>
        ensures { Reads (reading integer self.old) result self.new }
    {
        match self.peek() {
            Some(Mark::Number(number)) => {
                self.skip();
                Ok(*number)
            }
            _ => Err(Refusal::NotInGrammar),
        }
    }

    pub fn at_integer(&self) -> bool
        ensures { result ≡ fit a_number (kind (spec.front self.now)) }
    {
        matches!(self.peek(), Some(Mark::Number(_)))
    }

    pub fn text(&mut self, alloc: Global) -> Result<Text, Refusal>
        ensures { Reads (reading text self.old) result self.new }
    {
        match self.peek() {
            Some(Mark::Str(content)) => {
                self.skip();
                Ok(content.copy(alloc)?)
            }
            _ => Err(Refusal::NotInGrammar),
        }
    }

    pub fn at_text(&self) -> bool
        ensures { result ≡ fit a_string (kind (spec.front self.now)) }
    {
        matches!(self.peek(), Some(Mark::Str(_)))
    }
}

fn is_sought(sought: Sought, mark: Option<&Mark>) -> bool
    ensures { result ≡ is sought (kind (option_copied mark.entry)) }
{
    match (sought, mark) {
        (Sought::Plain(word), Some(Mark::Plain(other, _))) => *other == word,
        (Sought::Reserved(word), Some(Mark::Reserved(other))) => *other == word,
        (Sought::Key(key), Some(Mark::Key(other))) => *other == key,
        (Sought::Sign(sign), Some(Mark::Sign(other))) => *other == sign,
        _ => false,
    }
}

fn is_among(mut but: &[Word], word: Word) -> bool
    ensures { result ≡ among but.entry.now (place word) }
{
    while let [first, rest @ ..] = but {
        if word == *first {
            return true;
        }
        but = rest;
    }
    false
}
