// The words that lines begin with.
ghost use Rattle.std.specs.Prelude.{◌≡◌};
ghost use Rattle.history_log.specs.Spelling.{keyword_word};
ghost use Rattle.history_log.specs.Reading.{Finds};

/// The word that a line begins with, after the head.
#[derive(Clone, Copy, Debug, PartialEq, Eq)]
pub enum Keyword {
    Initial,
    Open,
    Close,
    Define,
    Look,
    Begin,
    Scan,
    Read,
    Own,
    Write,
    Commit,
    Rollback,
    Show,
    Order,
    End,
}

/// The keyword that the word is.
pub fn keyword_of(word: &[u8]) -> Option<Keyword>
    ensures { Finds (λ keyword written. written ≡ keyword_word keyword) result word.now }
{
    match word {
        b"read" => Some(Keyword::Read),
        b"write" => Some(Keyword::Write),
        b"own" => Some(Keyword::Own),
        b"scan" => Some(Keyword::Scan),
        b"show" => Some(Keyword::Show),
        b"look" => Some(Keyword::Look),
        b"begin" => Some(Keyword::Begin),
        b"commit" => Some(Keyword::Commit),
        b"rollback" => Some(Keyword::Rollback),
        b"open" => Some(Keyword::Open),
        b"close" => Some(Keyword::Close),
        b"define" => Some(Keyword::Define),
        b"initial" => Some(Keyword::Initial),
        b"order" => Some(Keyword::Order),
        b"end" => Some(Keyword::End),
        _ => None,
    }
}

impl Keyword {
    /// The word.
    pub fn text(self) -> &'static [u8]
        ensures { result.now ≡ keyword_word self }
    {
        match self {
            Keyword::Initial => b"initial",
            Keyword::Open => b"open",
            Keyword::Close => b"close",
            Keyword::Define => b"define",
            Keyword::Look => b"look",
            Keyword::Begin => b"begin",
            Keyword::Scan => b"scan",
            Keyword::Read => b"read",
            Keyword::Own => b"own",
            Keyword::Write => b"write",
            Keyword::Commit => b"commit",
            Keyword::Rollback => b"rollback",
            Keyword::Show => b"show",
            Keyword::Order => b"order",
            Keyword::End => b"end",
        }
    }
}
