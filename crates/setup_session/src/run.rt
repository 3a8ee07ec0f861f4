// Runs a setup.
ghost use Rattle.std.specs.Prelude.{◌≡◌, ℕ, List, IfOk, IfErr, OnOk};
ghost use Rattle.link_traits.specs.Memory.{mem_sight};
ghost use Rattle.setup_client.specs.Client.{link_of as sight_of_client};
ghost use Rattle.setup_session.specs.Setups.{no_past, Ran, WentWell, IsCause, SetsUp, FailsSetup};

use crate::fault::SetupFault;
use block_machine::End;
use cell_base::{Items, Level, Memory};
use choice_stream::ListWords;
use history_core::InitialState;
use link_traits::MemLink;
use session_core::{Served, serve_link};
use setup_client::{MOST_TEXT, first_error, link_of, tells_block};
use std::alloc::Global;
use valid_writes::{SeatBook, Store};

// The book of a new history at Causal Consistency, where a session alone is permitted the newest write and nothing else.
fn new_book(alloc: Global) -> Result<SeatBook, Memory>
    ensures { IfOk result (λ book. book ≡ no_past) }
{
    let store = Store::new(alloc, Level::Cc, InitialState::empty(alloc))?;
    Ok(store.seat(None))
}

// Serves the client of the link on a book that has no event.
fn serve(alloc: Global, book: &mut SeatBook, link: &mut MemLink) -> Served
    requires { book.old ≡ no_past }
    ensures { (text : List ℕ) → mem_sight link.old ≡ sight_of_client text → Ran text result link.new.traffic.written book.new.seen }
{
    let mut words = ListWords::new(Items::new(alloc));
    let served = serve_link(alloc, Level::Cc, book, link, &mut words);
    // Only for its contract: the history is legal.
    let _ = book.history();
    served
}

// Whether a session that was told these bytes went well, and why not.
fn judge(alloc: Global, served: Served, told: &[u8]) -> Result<(), SetupFault>
    ensures ok { OnOk result (WentWell served told.now) }
    ensures err { IfErr result (λ e. IsCause served told.now e) }
{
    if served.short {
        return Err(SetupFault::Memory);
    }
    if let Some(fault) = first_error(alloc, told)? {
        return Err(SetupFault::Statement(fault));
    }
    if tells_block(told) {
        return Err(SetupFault::Unfinished);
    }
    match served.end {
        End::Terminated => Ok(()),
        end => Err(SetupFault::Ended(end)),
    }
}

/// Runs the statements of a text by one session alone, over a store of its own at Causal Consistency, and answers the store. The text is one
/// query message: its statements are one transaction, where it has no BEGIN and COMMIT.
///
/// An error comes where the text has more than [`MOST_TEXT`] bytes, where a statement fails or the text can't be read, where the text ends inside a
/// block, where the session ends otherwise than its client said, and out of memory.
pub fn run_setup(alloc: Global, text: &[u8]) -> Result<Store, SetupFault>
    ensures ok { IfOk result (λ store. SetsUp text.now store) }
    ensures err { IfErr result (λ e. FailsSetup text.now e) }
{
    if text.len() > MOST_TEXT {
        return Err(SetupFault::TooLong);
    }
    let mut link = link_of(alloc, text)?;
    let mut book = new_book(alloc)?;
    let served = serve(alloc, &mut book, &mut link);
    match judge(alloc, served, link.written()) {
        Ok(()) => Ok(book.into_store()),
        Err(fault) => Err(fault),
    }
}
