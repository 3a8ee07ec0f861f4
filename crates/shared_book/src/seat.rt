// A call of a book, made within one turn.
ghost use Rattle.std.specs.Prelude.{◌≡◌, ◌≤◌, ℕ, List, ◌++◌, Some, length};
ghost use Rattle.history_core.specs.declared.event.Event.{Event};
ghost use Rattle.history_core.specs.Chronicle.{Chronicle, IsLegalChronicle};
ghost use Rattle.history_book.specs.Book.{Past, SessionState};
ghost use Rattle.valid_writes.specs.Seats.{StandsIn};
ghost use Rattle.turn_lock.specs.Entries.{AddsAtMostOne};
ghost use Rattle.shared_book.specs.Entries.{entries_of};
ghost use Rattle.shared_book.specs.Places.{IsAt, state_at};
ghost use Rattle.shared_book.specs.Turns.{AddsOne, NeedsAt, Turned, LiesBetween, past_with};

use crate::kept::Kept;
use crate::place::Place;
use history_book::Book;
use turn_lock::Turn;
use valid_writes::{SeatBook, Store};

/// One call of a book, with what its caller lends it beside.
pub trait SeatCall<B> {
    /// What the call answers.
    type Answer;

    // What the call asks of the number of tables and of where the session stands.
    ghost may: { Self → ℕ → SessionState → Type 0 };

    // What the call does: of the past and what was lent before, the answer, and both after.
    ghost does: { Self → Past → B → Self.Answer → Past → B → Type 0 };

    /// Makes the call on the book of a session that stands there. The answer says where it stands afterwards.
    fn make(self, place: Place, book: &mut SeatBook, beside: &mut B) -> (Place, Self::Answer)
        requires may { may self (length book.old.seen.tables) book.old.state }
        requires place { IsAt place book.old.state }
        ensures does { does self book.old beside.old result.1 book.new beside.new }
        ensures adds { AddsOne book.old book.new }
        ensures place { IsAt result.0 book.new.state };

    // A call that may be made may be made also when there are more tables.
    ghost may_later: { (call : Self) (few many : ℕ) (state : SessionState) → few ≤ many → may call few state → may call many state };

    // What a call does within a turn it does also for a book that has seen less, and has other events of its own.
    ghost lifts: { (call : Self) (v : B) (answer : Self.Answer) (w : B) (before x y : Chronicle) (own mine added : List Event)
        (state after : SessionState) → LiesBetween before x y state added →
        does call (past_with x mine state) v answer (past_with y (mine ++ added) after) w →
        does call (past_with before own state) v answer (past_with y (own ++ added) after) w };
}

/// A call at the seat of the session that stands there.
pub struct AtSeat<C> {
    pub place: Place,
    pub call: C,
}

impl<B, C: SeatCall<B>> Turn<Kept, B> for AtSeat<C> {
    type Answer = (Place, C::Answer);

    ghost needs = { λ t entries. NeedsAt t.place (C.may t.call) entries };

    ghost does = { λ t x v answer y w. Turned t.place (λ old a new. C.does t.call old v a new w) x answer.0 answer.1 y };

    fn run(self, state: &mut Kept, beside: &mut B) -> (Place, C::Answer) {
        let AtSeat { place, call } = self;
        run_in(place, call, &mut state.store, beside)
    }
}

// Makes the call on the store, which is away meanwhile.
fn run_in<B, C: SeatCall<B>>(
    place: Place,
    call: C,
    store: &mut Option<Store>,
    beside: &mut B,
) -> (Place, C::Answer)
    requires there { (x : Chronicle) × (store.old ≡ Some x) × NeedsAt place (C.may call) (entries_of x) }
    ensures turned { (x : Chronicle) × (y : Chronicle) × (store.old ≡ Some x) × (store.new ≡ Some y)
        × Turned place (λ old a new. C.does call old beside.old a new beside.new) x result.0 result.1 y × AddsAtMostOne (entries_of x) (entries_of y) }
{
    match store.take() {
        Some(taken) => {
            let (place, answer, given) = run_on(place, call, taken, beside);
            *store = Some(given);
            (place, answer)
        }
        None => unreachable!(),
    }
}

// Makes the call on the store, which is given back.
fn run_on<B, C: SeatCall<B>>(
    place: Place,
    call: C,
    store: Store,
    beside: &mut B,
) -> (Place, C::Answer, Store)
    requires { NeedsAt place (C.may call) (entries_of store) }
    ensures turned { Turned place (λ old a new. C.does call old beside.old a new beside.new) store result.0 result.1 result.2 }
    ensures adds { AddsAtMostOne (entries_of store) (entries_of result.2) }
{
    // Only for its contract: the history is legal.
    let _ = store.history();
    let mut book = store.seat(place.session());
    let (place, answer) = call.make(place, &mut book, beside);
    // Only for its contract: the history is legal.
    let _ = book.history();
    (place, answer, book.into_store())
}
