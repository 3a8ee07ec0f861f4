//! The words of the lock's table, and the places among them where passes sleep.
ghost use Rattle.std.specs.Prelude.{◌≤◌, ◌<◌};
ghost use Rattle.turn_lock.specs.Tickets.{first_place, word_count};

// How many places there are for passes that have a ticket. Those whose tickets have one place are both woken there.
const PLACES: u64 = 16;

// The first of these places.
const FIRST: u64 = 16;

/// How many words the table has.
pub const WORDS: usize = 32;

/// The word at which passes without a ticket sleep. It stands apart from words 0 and 1, which all threads look at.
pub const GATE: usize = 8;

/// The word at which the pass with this ticket sleeps.
pub fn place_of(ticket: u64) -> usize
    ensures from { first_place ≤ result }
    ensures to { result < word_count }
{
    (FIRST + ticket % PLACES) as usize
}
