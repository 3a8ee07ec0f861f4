// A history that has as many sessions as it may.
ghost use Rattle.std.specs.Prelude.{◌≡◌};
ghost use Rattle.history_book.specs.Book.{no_session};

use crate::links::failing_link;
use crate::serving::{new_book, serve};
use cell_base::SqlState;
use held_values::without;
use history_book::Book;
use link_traits::MemLink;
use session_core::End;
use session_text::{Session, read_sessions};
use std::alloc::Global;
use std::test::Fail;
use valid_writes::SeatBook;

const CLIENT: &str = r"
# a client that begins a block
> StartupMessage user=a
> Query BEGIN
";

// What became of a session that came after others: how many of these could be opened, its number and its end, and how many events there are.
#[derive(Clone, Copy, Debug, PartialEq, Eq)]
struct Remainder {
    opened: u32,
    session: Option<u32>,
    end: End,
    events: usize,
}

// Opens and closes so many sessions; answers how many could be opened.
fn opened(book: &mut SeatBook, number: u32) -> u32
    requires { book.old.state ≡ no_session }
    ensures { book.new.state ≡ no_session }
{
    let mut count = 0u32;
    for _ in 0..number {
        if book.open().is_err() {
            return count;
        }
        book.close();
        count = count.saturating_add(1);
    }
    count
}

// Serves the client after so many other sessions.
fn after_others(alloc: Global, client: &Session, number: u32) -> Result<Remainder, Fail> {
    let mut link = failing_link(alloc, &client.input, 10_000, 10_000, &[], &[])?;
    let remainder = remainder_over(alloc, client, number, &mut link);
    without(link, remainder)
}

// The same over this link.
fn remainder_over(
    alloc: Global,
    client: &Session,
    number: u32,
    link: &mut MemLink,
) -> Result<Remainder, Fail> {
    let mut book = new_book(alloc, client.level)?;
    let remainder = remainder_of(alloc, client, number, &mut book, link);
    without(book, remainder)
}

// The same on the book of a new history.
fn remainder_of(
    alloc: Global,
    client: &Session,
    number: u32,
    book: &mut SeatBook,
    link: &mut MemLink,
) -> Result<Remainder, Fail>
    requires { book.old.state ≡ no_session }
{
    let opened = opened(book, number);
    let served = serve(alloc, client, book, link)?;
    Ok(Remainder {
        opened,
        session: served.session,
        end: served.end,
        events: book.history().events().len(),
    })
}

// The same of the first client of the text.
fn first_after_others(alloc: Global, text: &str, number: u32) -> Result<Option<Remainder>, Fail> {
    let clients = read_sessions(alloc, text)?;
    let remainder = after_others_of(alloc, &clients, number);
    without(clients, remainder)
}

fn after_others_of(
    alloc: Global,
    clients: &[Session],
    number: u32,
) -> Result<Option<Remainder>, Fail> {
    match clients.first() {
        Some(client) => Ok(Some(after_others(alloc, client, number)?)),
        None => Ok(None),
    }
}

#[test]
fn refuses_a_session_beyond_the_last(rt: HostRuntime) -> Result<(), Fail> {
    let expected = Remainder {
        opened: 4096,
        session: None,
        end: End::Refused(SqlState::S54000),
        events: 8192,
    };
    assert_eq!(rt;
        first_after_others(rt.alloc(), CLIENT, 4096)?,
        Some(expected)
    );
    Ok(())
}
