// The words of the grammar, and the marks of tokens.
ghost use Rattle.std.specs.Prelude.{◌≡◌, ◌<◌, ◌+◌, ◌⊎◌, ◌∷◌, ℕ, List, map, slice_get, slice_index_or, Some, IfOk, IfSome, IfNone};
ghost use Rattle.sql_grammar.specs.Words as spec;

use crate::mark::{Class, Keyword, Mark, Word};
use cell_base::{Items, Memory};
use sql_tree::{Token, TokenKind};
use std::alloc::Global;

/// All reserved words, and the other words that the grammar names, by their first letters from `a` to `z`.
pub const WORDS: [&[(&[u8], Class)]; 26] = [
    &[
        (b"abort", Class::Plain(Word::Abort)),
        (b"all", Class::Reserved(Word::Other)),
        (b"and", Class::Key(Keyword::And)),
        (b"any", Class::Reserved(Word::Other)),
        (b"array", Class::Reserved(Word::Other)),
        (b"as", Class::Reserved(Word::As)),
        (b"asc", Class::Reserved(Word::Asc)),
    ],
    &[
        (b"begin", Class::Plain(Word::Begin)),
        (b"between", Class::Key(Keyword::Between)),
        (b"bigint", Class::Plain(Word::Bigint)),
        (b"bool", Class::Plain(Word::Bool)),
        (b"boolean", Class::Plain(Word::Boolean)),
        (b"by", Class::Plain(Word::By)),
    ],
    &[
        (b"case", Class::Reserved(Word::Other)),
        (b"cast", Class::Reserved(Word::Other)),
        (b"character", Class::Plain(Word::Character)),
        (b"characteristics", Class::Plain(Word::Characteristics)),
        (b"check", Class::Reserved(Word::Check)),
        (b"collate", Class::Reserved(Word::Other)),
        (b"commit", Class::Plain(Word::Commit)),
        (b"committed", Class::Plain(Word::Committed)),
        (b"constraint", Class::Reserved(Word::Constraint)),
        (b"create", Class::Reserved(Word::Create)),
        (b"cross", Class::Reserved(Word::Cross)),
    ],
    &[
        (b"default", Class::Reserved(Word::Default)),
        (b"deferrable", Class::Plain(Word::Deferrable)),
        (b"delete", Class::Plain(Word::Delete)),
        (b"desc", Class::Reserved(Word::Desc)),
        (b"distinct", Class::Reserved(Word::Other)),
    ],
    &[
        (b"else", Class::Reserved(Word::Other)),
        (b"end", Class::Reserved(Word::End)),
        (b"except", Class::Reserved(Word::Other)),
        (b"exists", Class::Reserved(Word::Other)),
    ],
    &[
        (b"false", Class::Key(Keyword::False)),
        (b"fetch", Class::Reserved(Word::Other)),
        (b"for", Class::Reserved(Word::Other)),
        (b"foreign", Class::Reserved(Word::Other)),
        (b"from", Class::Reserved(Word::From)),
        (b"full", Class::Reserved(Word::Other)),
    ],
    &[(b"group", Class::Reserved(Word::Other))],
    &[(b"having", Class::Reserved(Word::Other))],
    &[
        (b"ilike", Class::Reserved(Word::Other)),
        (b"in", Class::Key(Keyword::In)),
        (b"inner", Class::Reserved(Word::Inner)),
        (b"insert", Class::Plain(Word::Insert)),
        (b"int", Class::Plain(Word::Int)),
        (b"int4", Class::Plain(Word::Int4)),
        (b"int8", Class::Plain(Word::Int8)),
        (b"integer", Class::Plain(Word::Integer)),
        (b"intersect", Class::Reserved(Word::Other)),
        (b"into", Class::Reserved(Word::Into)),
        (b"is", Class::Key(Keyword::Is)),
        (b"isolation", Class::Plain(Word::Isolation)),
    ],
    &[(b"join", Class::Reserved(Word::Join))],
    &[(b"key", Class::Plain(Word::Key))],
    &[
        (b"left", Class::Reserved(Word::Other)),
        (b"level", Class::Plain(Word::Level)),
        (b"like", Class::Reserved(Word::Other)),
        (b"limit", Class::Reserved(Word::Limit)),
        (b"local", Class::Plain(Word::Local)),
    ],
    &[],
    &[
        (b"natural", Class::Reserved(Word::Other)),
        (b"not", Class::Key(Keyword::Not)),
        (b"null", Class::Key(Keyword::Null)),
    ],
    &[
        (b"offset", Class::Reserved(Word::Offset)),
        (b"on", Class::Reserved(Word::On)),
        (b"only", Class::Plain(Word::Only)),
        (b"or", Class::Key(Keyword::Or)),
        (b"order", Class::Reserved(Word::Order)),
    ],
    &[(b"primary", Class::Reserved(Word::Primary))],
    &[],
    &[
        (b"read", Class::Plain(Word::Read)),
        (b"references", Class::Reserved(Word::Other)),
        (b"repeatable", Class::Plain(Word::Repeatable)),
        (b"returning", Class::Reserved(Word::Other)),
        (b"right", Class::Reserved(Word::Other)),
        (b"rollback", Class::Plain(Word::Rollback)),
    ],
    &[
        (b"select", Class::Reserved(Word::Select)),
        (b"serializable", Class::Plain(Word::Serializable)),
        (b"session", Class::Plain(Word::Session)),
        (b"set", Class::Plain(Word::Set)),
        (b"show", Class::Plain(Word::Show)),
        (b"similar", Class::Reserved(Word::Other)),
        (b"some", Class::Reserved(Word::Other)),
        (b"start", Class::Plain(Word::Start)),
    ],
    &[
        (b"table", Class::Reserved(Word::Table)),
        (b"text", Class::Plain(Word::Text)),
        (b"then", Class::Reserved(Word::Other)),
        (b"to", Class::Reserved(Word::To)),
        (b"transaction", Class::Plain(Word::Transaction)),
        (b"true", Class::Key(Keyword::True)),
    ],
    &[
        (b"uncommitted", Class::Plain(Word::Uncommitted)),
        (b"union", Class::Reserved(Word::Other)),
        (b"unique", Class::Reserved(Word::Other)),
        (b"update", Class::Plain(Word::Update)),
        (b"using", Class::Reserved(Word::Other)),
    ],
    &[
        (b"values", Class::Plain(Word::Values)),
        (b"varchar", Class::Plain(Word::Varchar)),
        (b"varying", Class::Plain(Word::Varying)),
    ],
    &[
        (b"when", Class::Reserved(Word::Other)),
        (b"where", Class::Reserved(Word::Where)),
        (b"window", Class::Reserved(Word::Other)),
        (b"with", Class::Reserved(Word::Other)),
        (b"work", Class::Plain(Word::Work)),
        (b"write", Class::Plain(Word::Write)),
    ],
    &[],
    &[],
    &[],
];

fn lookup(mut table: &[(&[u8], Class)], word: &[u8]) -> Class
    ensures { result ≡ spec.lookup (map (λ row. (row.0.now, row.1)) table.entry.now) word.now }
{
    while let [entry, rest @ ..] = table {
        if entry.0 == word {
            return entry.1;
        }
        table = rest;
    }
    Class::Plain(Word::Other)
}

/// The place of the word's first letter among `a` to `z`, if it begins with one.
fn letter_of(word: &[u8]) -> Option<usize>
    ensures some { IfSome result (λ letter. (letter < 26) × (slice_get word.now 0 ≡ Some (97 + letter))) }
    ensures none { IfNone result ((slice_index_or word.now 0 0 < 97) ⊎ (122 < slice_index_or word.now 0 0)) }
{
    let first = word.first()?;
    let letter = first.checked_sub(b'a')?;
    if letter < 26 {
        Some(letter as usize)
    } else {
        None
    }
}

/// The words that begin with a letter.
fn words_of(letter: usize) -> &'static [(&'static [u8], Class)]
    requires { letter < 26 }
    ensures { (rest : List ℕ) → spec.lookup (map (λ row. (row.0.now, row.1)) result.now) ((97 + letter) ∷ rest) ≡ spec.class ((97 + letter) ∷ rest) }
{
    WORDS[letter]
}

fn class(word: &[u8]) -> Class
    ensures { result ≡ spec.class word.now }
{
    match letter_of(word) {
        Some(letter) => lookup(words_of(letter), word),
        None => Class::Plain(Word::Other),
    }
}

fn mark(alloc: Global, kind: &TokenKind) -> Result<Mark, Memory>
    ensures { IfOk result (λ m. m ≡ spec.mark kind.now) }
{
    Ok(match kind {
        TokenKind::Word(text) => match class(text.bytes()) {
            Class::Key(keyword) => Mark::Key(keyword),
            Class::Reserved(word) => Mark::Reserved(word),
            Class::Plain(word) => Mark::Plain(word, text.copy(alloc)?),
        },
        TokenKind::Quoted(name) => Mark::Quoted(name.copy(alloc)?),
        TokenKind::Number(number) => Mark::Number(*number),
        TokenKind::Str(text) => Mark::Str(text.copy(alloc)?),
        TokenKind::Param(number) => Mark::Param(*number),
        TokenKind::Sign(sign) => Mark::Sign(*sign),
    })
}

/// The marks of the tokens.
pub fn marks(alloc: Global, tokens: &[Token]) -> Result<Items<Mark>, Memory>
    ensures { IfOk result (λ ms. ms ≡ spec.marks tokens.now) }
{
    let mut found = Items::new(alloc);
    for token in tokens {
        found.push(mark(alloc, &token.kind)?)?;
    }
    Ok(found)
}
