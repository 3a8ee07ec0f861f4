// Rules of the grammar as data: what they spell, without the trees.

use sql_grammar::{Keyword, Word};
use sql_tree::Sign;

/// A level of expressions, from what binds loosest to what binds tightest.
#[derive(Clone, Copy, Debug, PartialEq, Eq)]
pub enum Level {
    Or,
    And,
    Not,
    Is,
    Comparison,
    Range,
    Sum,
    Product,
    Signed,
    Atom,
}

/// What one mark may be.
#[derive(Clone, Copy)]
pub enum Pattern {
    Key(Keyword),
    Sign(Sign),
    Name,
    Number,
    Text,
}

/// A rule.
pub enum Rule {
    Nothing,
    /// A word that isn't reserved.
    Plain(Word),
    /// A reserved word.
    Reserved(Word),
    Key(Keyword),
    Sign(Sign),
    /// A name that is none of these words.
    Name(&'static [Word]),
    Number,
    Text,
    /// A mark that is as one of the patterns.
    Any(&'static [Pattern]),
    /// What a level of expressions spells.
    Part(Level),
    /// The one and then the other.
    Then(&'static Rule, &'static Rule),
    /// The first where the next mark may begin it, else the second.
    Either(&'static Rule, &'static Rule),
    /// As often as the next mark may begin it.
    Many(&'static Rule),
}
