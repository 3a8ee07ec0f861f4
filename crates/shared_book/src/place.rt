// Where the session of a book stands.
ghost use Rattle.std.specs.Prelude.{◌≡◌};
ghost use Rattle.shared_book.specs.Places.{session_at, place_opened, place_begun, begun_if, place_ended};

use history_core::BookFault;

/// Where a session stands, with its number.
#[derive(Clone, Copy, Debug, PartialEq, Eq)]
pub enum Place {
    /// None is open.
    NoSession,
    /// It is open, and nothing is pending in it.
    InSession(u32),
    /// Its transaction is pending.
    Pending(u32),
}

impl Place {
    /// The number of the session, where one is open.
    pub fn session(self) -> Option<u32>
        ensures { result ≡ session_at self }
    {
        match self {
            Place::NoSession => None,
            Place::InSession(session) | Place::Pending(session) => Some(session),
        }
    }

    /// Where a session stands once one was opened, unless that was refused.
    pub fn opened(self, answer: &Result<u32, BookFault>) -> Place
        ensures { result ≡ place_opened answer.now self }
    {
        match answer {
            Ok(session) => Place::InSession(*session),
            Err(_) => self,
        }
    }

    /// Where an open session stands once a transaction has begun, unless that was refused.
    pub fn begun(self, answer: &Result<u32, BookFault>) -> Place
        ensures { result ≡ begun_if answer.now self }
    {
        match answer {
            Ok(_) => self.in_transaction(),
            Err(_) => self,
        }
    }

    // Where an open session stands once a transaction has begun.
    fn in_transaction(self) -> Place
        ensures { result ≡ place_begun self }
    {
        match self {
            Place::NoSession => Place::NoSession,
            Place::InSession(session) | Place::Pending(session) => Place::Pending(session),
        }
    }

    /// Where an open session stands once its transaction has ended.
    pub fn ended(self) -> Place
        ensures { result ≡ place_ended self }
    {
        match self {
            Place::NoSession => Place::NoSession,
            Place::InSession(session) | Place::Pending(session) => Place::InSession(session),
        }
    }
}
