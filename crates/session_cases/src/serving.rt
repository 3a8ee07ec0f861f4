// Sessions served over links in memory.
ghost use Rattle.std.specs.Prelude.{◌≡◌, IfOk};
ghost use Rattle.history_book.specs.Book.{no_session};

use cell_base::{Items, Level, Memory};
use choice_stream::ListWords;
use event_text::event_lines;
use held_values::without;
use history_core::InitialState;
use link_traits::MemLink;
use session_core::{Served, serve_link};
use session_text::Session;
use std::alloc::Global;
use std::test::Fail;
use valid_writes::{SeatBook, Store};

/// What came of a session over a new history: its events, a line each, and how it ended.
#[derive(Drop)]
pub struct Outcome {
    pub events: String,
    pub served: Served,
}

/// The book of a new history without a row.
pub fn new_book(alloc: Global, level: Level) -> Result<SeatBook, Memory>
    ensures { IfOk result (λ book. book.state ≡ no_session) }
{
    Ok(Store::new(alloc, level, InitialState::empty(alloc))?.seat(None))
}

/// Serves the client of the session's text over this link, by the words of the text.
pub fn serve(
    alloc: Global,
    session: &Session,
    book: &mut SeatBook,
    link: &mut MemLink,
) -> Result<Served, Memory>
    requires { book.old.state ≡ no_session }
{
    let mut words = ListWords::new(Items::from_slice(alloc, &session.words)?);
    Ok(serve_link(alloc, session.level, book, link, &mut words))
}

/// The same over a new history.
pub fn served_new(alloc: Global, session: &Session, link: &mut MemLink) -> Result<Outcome, Fail> {
    let mut book = new_book(alloc, session.level)?;
    let came = outcome_of(alloc, session, &mut book, link);
    without(book, came)
}

// What comes of the session over the book's history, which has no event.
fn outcome_of(
    alloc: Global,
    session: &Session,
    book: &mut SeatBook,
    link: &mut MemLink,
) -> Result<Outcome, Fail>
    requires { book.old.state ≡ no_session }
{
    let served = serve(alloc, session, book, link)?;
    Ok(Outcome {
        events: event_lines(alloc, book.history().events())?,
        served,
    })
}
