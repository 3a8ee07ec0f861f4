// A client's session makes calls of its book.
ghost use Rattle.std.specs.Prelude.{◌≡◌, ◌≢◌, ℕ, ◌+◌, ◌<◌, Some, None, IsSome, Ok, OnOk, OnErr, true, false};
ghost use Rattle.history_core.specs.Chronicle.{Chronicle, IsLegalChronicle};
ghost use Rattle.session_core.specs.Stands.{IsFit, IsLast, message_at, outer};
ghost use Rattle.session_core.specs.Sessions.{wanted, work_of};
ghost use Rattle.session_core.specs.Wants.{IsOver};
ghost use Rattle.session_hall.specs.Seats.{Grows, Goes, IsAttending, IsCall, IsResting, IsSettled, LeftUnsent, GrowsAlone, IsCount, ShowsEnd, ShowsBy, TellsAll, shown_for};

use crate::client::Stepped;
use crate::seat::Seat;
use crate::telling::{listen, settle, wants_call};
use cell_base::Memory;
use session_core::{End, Want, make_call};
use valid_writes::Store;

// Makes the call that the session wants on a store, which is given back.
fn ask_on(store: Store, seat: &mut Seat) -> Store
    requires attending { IsAttending store seat.old }
    requires call { IsCall (wanted seat.old.session) }
    ensures grows { Grows store seat.old 1 result seat.new }
    ensures legal { IsLegalChronicle result }
    ensures fit { IsFit seat.new.session.runner }
    ensures end { seat.new.end ≡ seat.old.end }
    ensures outer { outer seat.new.session.stage ≡ outer seat.old.session.stage }
    ensures last { IsLast seat.old.session.stage → IsLast seat.new.session.stage }
    ensures work { work_of seat.new.session < work_of seat.old.session + message_at seat.new.session.stage }
{
    let number = seat.session.number();
    // Only for its contract: the history is legal.
    let _ = store.history();
    let mut book = store.seat(number);
    make_call(&mut seat.session, &mut book, &mut seat.words);
    book.into_store()
}

// Makes the call that the session wants.
fn ask(store: &mut Option<Store>, seat: &mut Seat)
    requires attending { (history : Chronicle) × (store.old ≡ Some history) × IsAttending history seat.old }
    requires call { IsCall (wanted seat.old.session) }
    ensures goes { (history : Chronicle) → store.old ≡ Some history → Goes history seat.old 1 store.new seat.new }
    ensures fit { IsFit seat.new.session.runner }
    ensures end { seat.new.end ≡ seat.old.end }
    ensures outer { outer seat.new.session.stage ≡ outer seat.old.session.stage }
    ensures last { IsLast seat.old.session.stage → IsLast seat.new.session.stage }
    ensures work { work_of seat.new.session < work_of seat.old.session + message_at seat.new.session.stage }
{
    match store.take() {
        Some(taken) => *store = Some(ask_on(taken, seat)),
        None => unreachable!(),
    }
}

// Where a call is wanted, makes it. Answers whether one was.
fn ask_next(store: &mut Option<Store>, seat: &mut Seat) -> bool
    requires attending { (history : Chronicle) × (store.old ≡ Some history) × IsLegalChronicle history × IsAttending history seat.old }
    requires unsent { LeftUnsent seat.old }
    ensures goes { (history : Chronicle) → store.old ≡ Some history → (many : ℕ) × Goes history seat.old many store.new seat.new }
    ensures unsent { LeftUnsent seat.new }
    ensures end { seat.new.end ≡ seat.old.end }
    ensures work { result ≡ true → work_of seat.new.session < work_of seat.old.session }
    ensures over { result ≡ false → IsOver (wanted seat.new.session) }
{
    if !wants_call(&seat.session) {
        return false;
    }
    ask(store, seat);
    true
}

// Makes the calls that a session owes its book after a reply that was left unsent.
fn leave(store: &mut Option<Store>, seat: &mut Seat)
    requires attending { (history : Chronicle) × (store.old ≡ Some history) × IsLegalChronicle history × IsAttending history seat.old }
    requires unsent { LeftUnsent seat.old }
    ensures goes { (history : Chronicle) → store.old ≡ Some history → (many : ℕ) × Goes history seat.old many store.new seat.new }
    ensures unsent { LeftUnsent seat.new }
    ensures end { seat.new.end ≡ seat.old.end }
    ensures over { IsOver (wanted seat.new.session) }
{
    while ask_next(store, seat) {}
}

// The end that is shown: a session that was stopped as by a failed write found no room for a reply.
fn shown(end: End) -> End
    ensures { result ≡ shown_for end }
{
    match end {
        End::WriteFault => End::Memory,
        other => other,
    }
}

// Notes the end, where the session has ended.
fn note_end(seat: &mut Seat) -> Stepped
    requires settled { IsSettled (wanted seat.old.session) }
    requires goes_on { seat.old.end ≡ None }
    ensures grows { GrowsAlone seat.old seat.new }
    ensures session { seat.new.session ≡ seat.old.session }
    ensures shows { ShowsEnd seat.new.end (wanted seat.new.session) }
    ensures by { ShowsBy (Ok result) seat.new.end }
    ensures told { TellsAll seat.new.session }
{
    match seat.session.demand() {
        Want::Ended(end) => {
            seat.end = Some(shown(end));
            Stepped::Ended
        }
        Want::Bytes | Want::Define | Want::Cells | Want::Book(_) => Stepped::Called,
        Want::Message | Want::Send => unreachable!(),
    }
}

// Lets a client go on until its session has made one call of its book, or has ended; all that is then due is sent.
fn go_on(store: &mut Option<Store>, seat: &mut Seat) -> Result<Stepped, Memory>
    requires attending { (history : Chronicle) × (store.old ≡ Some history) × IsLegalChronicle history × IsAttending history seat.old }
    requires settled { IsSettled (wanted seat.old.session) }
    requires goes_on { seat.old.end ≡ None }
    requires resting { IsResting seat.old }
    ensures goes { (history : Chronicle) → store.old ≡ Some history → (many : ℕ) × IsCount result many × Goes history seat.old many store.new seat.new }
    ensures shows { OnOk result (ShowsEnd seat.new.end (wanted seat.new.session)) }
    ensures by { OnOk result (ShowsBy result seat.new.end) }
    ensures told { OnOk result (TellsAll seat.new.session) }
    ensures resting { OnOk result (IsResting seat.new) }
    ensures unsent { OnErr result (LeftUnsent seat.new) }
    ensures end { OnErr result (seat.new.end ≡ None) }
{
    listen(seat)?;
    if !wants_call(&seat.session) {
        return Ok(note_end(seat));
    }
    ask(store, seat);
    settle(seat)?;
    Ok(note_end(seat))
}

/// A client's step. Where no room for a reply can be had, the session leaves its book and has ended.
pub(crate) fn step(store: &mut Option<Store>, seat: &mut Seat) -> Result<Stepped, Memory>
    requires attending { (history : Chronicle) × (store.old ≡ Some history) × IsLegalChronicle history × IsAttending history seat.old }
    requires settled { IsSettled (wanted seat.old.session) }
    requires goes_on { seat.old.end ≡ None }
    requires resting { IsResting seat.old }
    ensures goes { (history : Chronicle) → store.old ≡ Some history → (many : ℕ) × IsCount result many × Goes history seat.old many store.new seat.new }
    ensures shows { ShowsEnd seat.new.end (wanted seat.new.session) }
    ensures by { ShowsBy result seat.new.end }
    ensures told { TellsAll seat.new.session }
    ensures resting { OnOk result (IsResting seat.new) }
    ensures unsent { OnErr result (LeftUnsent seat.new) }
{
    match go_on(store, seat) {
        Ok(stepped) => Ok(stepped),
        Err(Memory) => {
            leave(store, seat);
            note_end(seat);
            Err(Memory)
        }
    }
}
