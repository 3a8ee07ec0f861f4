// What a read takes: what its word picks of the offer, and the stars that it adds.
ghost use Rattle.std.specs.Prelude.{◌≡◌, ◌<◌, ◌≤◌, ◌%◌, Some, IfOk, length, slice_get};
ghost use Rattle.history_core.specs.Transactions.{HasPending};
ghost use Rattle.history_core.specs.Relations.{Writes};
ghost use Rattle.history_core.specs.Legal.{IsOffer};
ghost use Rattle.indexed_history.specs.Writers.{ListsWriters};
ghost use Rattle.forced_rows.specs.Stars.{AreStarsOf};
ghost use Rattle.valid_writes.specs.Store.{IsStore};
ghost use Rattle.valid_writes.specs.Desk.{IsChosen};

use crate::kept::{Choice, Kept};
use cell_base::{Cell, Memory};
use forced_rows::ReadStars;

/// Those of the writes of a cell, of which these are the writers, that the pending transaction of the session may read next, ascending.
pub fn offered(store: &Kept, session: u32, cell: &Cell, writers: &[u32]) -> Result<Vec<u32>, Memory>
    requires kept { IsStore store.now }
    requires pending { HasPending store.now.history.events session }
    requires writers { ListsWriters store.now.history.events cell.now writers.now }
    ensures exact { IfOk result (λ offer. IsOffer store.now.history.events session cell.now offer.items) }
    ensures some { IfOk result (λ offer. 0 < length offer.items) }
    ensures few { IfOk result (λ offer. length offer.items ≤ 65536) }
{
    let _begun = store.history.history().begun();
    store
        .rows
        .offer(store.alloc, &store.history, session, cell, writers)
}

/// The number that the word picks of an offer.
fn picked(choices: &[u32], word: u32) -> u32
    requires some { 0 < length choices.now }
    requires few { length choices.now ≤ 65536 }
    ensures { slice_get choices.now (word % length choices.now) ≡ Some result }
{
    choices[(word % choices.len() as u32) as usize]
}

/// What a read of the session's pending transaction takes. Its offer is made once.
fn choose(
    store: &Kept,
    session: u32,
    cell: &Cell,
    writers: &[u32],
    word: u32,
) -> Result<Choice, Memory>
    requires kept { IsStore store.now }
    requires pending { HasPending store.now.history.events session }
    requires writers { ListsWriters store.now.history.events cell.now writers.now }
    ensures { IfOk result (IsChosen store.now.history session cell.now word) }
{
    let choices = offered(store, session, cell, writers)?;
    let source = picked(choices.as_slice(), word);
    let count = choices.as_slice().len() as u32;
    Ok(Choice { source, count })
}

/// What a read of what was chosen demands, as stars.
fn stars_of(
    store: &Kept,
    session: u32,
    cell: &Cell,
    writers: &[u32],
    choice: Choice,
) -> Result<ReadStars, Memory>
    requires kept { IsStore store.now }
    requires pending { HasPending store.now.history.events session }
    requires writers { ListsWriters store.now.history.events cell.now writers.now }
    requires writes { Writes store.now.history.events choice.source cell.now }
    ensures { IfOk result (AreStarsOf store.now.history.events session cell.now choice.source) }
{
    let source = choice.source;
    store.rows.stars_of_read(store.alloc, &store.history, session, cell, source, writers)
}

/// What a read takes, and the stars that it adds.
#[derive(Debug, Drop)]
pub struct Chosen {
    pub choice: Choice,
    pub stars: ReadStars,
}

/// What a read of the session's pending transaction takes, with its stars. The cell's writers are looked up once for both.
pub fn choose_with_stars(
    store: &Kept,
    session: u32,
    cell: &Cell,
    word: u32,
) -> Result<Chosen, Memory>
    requires kept { IsStore store.now }
    requires pending { HasPending store.now.history.events session }
    ensures choice { IfOk result (λ chosen. IsChosen store.now.history session cell.now word chosen.choice) }
    ensures stars { IfOk result (λ chosen. AreStarsOf store.now.history.events session cell.now chosen.choice.source chosen.stars) }
{
    let writers = store.history.writers(cell);
    let choice = choose(store, session, cell, writers, word)?;
    let stars = stars_of(store, session, cell, writers, choice)?;
    Ok(Chosen { choice, stars })
}
