// Stores whose sessions open one after another.
ghost use Rattle.std.specs.Prelude.{◌≡◌};
ghost use Rattle.history_book.specs.Book.{HasSession, no_session};

use crate::stop::Stop;
use held_values::{kept, let_go, without};
use history_book::Book;
use std::alloc::Global;
use table_samples::table;
use valid_writes::{SeatBook, Store};

/// The store, once its next session is open.
pub fn open_next(store: Store) -> Result<Store, Stop> {
    let mut book = store.seat(None);
    let opened = let_go(book.open());
    Ok(kept(book.into_store(), opened)?)
}

/// The store, once its next session is open and has defined the table.
pub fn with_table(alloc: Global, store: Store) -> Result<Store, Stop> {
    let mut book = store.seat(None);
    let made = make_table(alloc, &mut book);
    kept(book.into_store(), made)
}

fn make_table(alloc: Global, book: &mut SeatBook) -> Result<(), Stop>
    requires { book.old.state ≡ no_session }
{
    book.open()?;
    define(alloc, book)
}

fn define(alloc: Global, book: &mut SeatBook) -> Result<(), Stop>
    requires { HasSession book.old.state }
{
    let table = table(alloc)?;
    let defined = let_go(book.define(&table));
    Ok(without(table, defined)?)
}
