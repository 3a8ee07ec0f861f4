// A client's session goes on without a call of its book: bytes are taken, messages looked at, replies sent.
ghost use Rattle.std.specs.Prelude.{◌≡◌, ◌≢◌, ◌⊎◌, ℕ, ◌+◌, ◌<◌, ◌≤◌, true, false, IfOk, OnOk, OnErr, IsTrue, ◌↔◌};
ghost use Rattle.session_core.specs.declared.stage.SessionStage.TheVariants as stages;
ghost use Rattle.session_core.specs.Wants as wishes;
ghost use Rattle.session_core.specs.Stands.{IsFit, IsHolding, IsLast, message_at, message_work};
ghost use Rattle.session_core.specs.Sessions.{wanted, work_of};
ghost use Rattle.session_hall.specs.Seats.{GrowsAlone, Keeps, IsSettled, IsCall, IsCallOrEnd, IsResting, LeftUnsent, left_in};

use crate::seat::Seat;
use cell_base::Memory;
use session_core::{Session, Stop, Want};

// Sends the reply that the session holds. Where no room can be had the session is told that it wasn't sent.
fn send(seat: &mut Seat) -> Result<(), Memory>
    requires holding { IsHolding seat.old.session.stage seat.old.session.runner }
    requires fit { IsFit seat.old.session.runner }
    ensures grows { GrowsAlone seat.old seat.new }
    ensures fit { IsFit seat.new.session.runner }
    ensures keeps { Keeps seat.old seat.new }
    ensures resting { OnOk result (IsResting seat.old → IsResting seat.new) }
    ensures unsent { OnErr result (LeftUnsent seat.new) }
    ensures work { OnOk result (work_of seat.new.session < work_of seat.old.session + message_at seat.new.session.stage) }
    ensures message { OnOk result (seat.old.session.stage ≡ stages.Running →
        message_work seat.new.session.stage seat.new.session.runner < message_work seat.old.session.stage seat.old.session.runner) }
    ensures last { IsLast seat.old.session.stage → IsLast seat.new.session.stage }
{
    match seat.sent.extend_from_slice(seat.session.reply()) {
        Ok(()) => {
            seat.session.sent();
            Ok(())
        }
        Err(_) => {
            seat.session.unsent();
            Err(Memory)
        }
    }
}

// Whether a message runs whose reply is to be sent.
fn is_telling(session: &Session) -> bool
    ensures yes { result ≡ true → (session.now.stage ≡ stages.Running) × IsHolding session.now.stage session.now.runner }
    ensures no { result ≡ false → session.now.stage ≡ stages.Running → IsSettled (wanted session.now) }
{
    if !session.is_running() {
        return false;
    }
    matches!(session.demand(), Want::Send)
}

// Sends the replies of a message that runs, until it wants a call or is done.
fn send_on(seat: &mut Seat) -> Result<(), Memory>
    requires fit { IsFit seat.old.session.runner }
    ensures grows { GrowsAlone seat.old seat.new }
    ensures fit { IsFit seat.new.session.runner }
    ensures keeps { Keeps seat.old seat.new }
    ensures resting { OnOk result (IsResting seat.old → IsResting seat.new) }
    ensures unsent { OnErr result (LeftUnsent seat.new) }
    ensures work { OnOk result (work_of seat.new.session + message_at seat.old.session.stage ≤
        work_of seat.old.session + message_at seat.new.session.stage) }
    ensures settled { OnOk result (seat.new.session.stage ≡ stages.Running → IsSettled (wanted seat.new.session)) }
    ensures last { IsLast seat.old.session.stage → IsLast seat.new.session.stage }
{
    while is_telling(&seat.session) {
        send(seat)?;
    }
    Ok(())
}

// Looks at the next message of those that the session holds.
fn take(seat: &mut Seat)
    requires wanted { wanted seat.old.session ≡ wishes.Message }
    requires fit { IsFit seat.old.session.runner }
    ensures grows { GrowsAlone seat.old seat.new }
    ensures fit { IsFit seat.new.session.runner }
    ensures keeps { Keeps seat.old seat.new }
    ensures resting { IsResting seat.new }
    ensures work { work_of seat.new.session < work_of seat.old.session }
{
    seat.session.take();
}

// Looks at a message or sends a reply. Answers whether either was wanted.
fn turn(seat: &mut Seat) -> Result<bool, Memory>
    requires fit { IsFit seat.old.session.runner }
    ensures grows { GrowsAlone seat.old seat.new }
    ensures fit { IsFit seat.new.session.runner }
    ensures keeps { Keeps seat.old seat.new }
    ensures resting { OnOk result (IsResting seat.old → IsResting seat.new) }
    ensures unsent { OnErr result (LeftUnsent seat.new) }
    ensures work { IfOk result (λ more. more ≡ true → work_of seat.new.session < work_of seat.old.session + message_at seat.new.session.stage) }
    ensures settled { IfOk result (λ more. more ≡ false → IsSettled (wanted seat.new.session)) }
    ensures last { IsLast seat.old.session.stage → IsLast seat.new.session.stage }
{
    match seat.session.demand() {
        Want::Message => {
            take(seat);
            Ok(true)
        }
        Want::Send => {
            send(seat)?;
            Ok(true)
        }
        Want::Bytes | Want::Define | Want::Cells | Want::Book(_) | Want::Ended(_) => Ok(false),
    }
}

// The same, and then the replies of a message that runs are sent. Answers whether a message or a reply may be wanted now.
fn turn_on(seat: &mut Seat) -> Result<bool, Memory>
    requires fit { IsFit seat.old.session.runner }
    ensures grows { GrowsAlone seat.old seat.new }
    ensures fit { IsFit seat.new.session.runner }
    ensures keeps { Keeps seat.old seat.new }
    ensures resting { OnOk result (IsResting seat.old → IsResting seat.new) }
    ensures unsent { OnErr result (LeftUnsent seat.new) }
    ensures work { IfOk result (λ more. more ≡ true → work_of seat.new.session < work_of seat.old.session) }
    ensures settled { IfOk result (λ more. more ≡ false → IsSettled (wanted seat.new.session)) }
    ensures last { IsLast seat.old.session.stage → IsLast seat.new.session.stage }
{
    if !turn(seat)? {
        return Ok(false);
    }
    send_on(seat)?;
    Ok(!seat.session.is_running())
}

/// Looks at the messages that the session holds and sends all that is due, until bytes or a call are wanted, or the end is there.
pub(crate) fn settle(seat: &mut Seat) -> Result<(), Memory>
    requires fit { IsFit seat.old.session.runner }
    ensures grows { GrowsAlone seat.old seat.new }
    ensures fit { IsFit seat.new.session.runner }
    ensures keeps { Keeps seat.old seat.new }
    ensures resting { OnOk result (IsResting seat.old → IsResting seat.new) }
    ensures unsent { OnErr result (LeftUnsent seat.new) }
    ensures settled { OnOk result (IsSettled (wanted seat.new.session)) }
    ensures last { IsLast seat.old.session.stage → IsLast seat.new.session.stage }
{
    while turn_on(seat)? {}
    Ok(())
}

// Takes the next piece of the stream, or stops where none is left.
fn hear(seat: &mut Seat)
    requires wanted { wanted seat.old.session ≡ wishes.Bytes }
    requires fit { IsFit seat.old.session.runner }
    ensures grows { GrowsAlone seat.old seat.new }
    ensures fit { IsFit seat.new.session.runner }
    ensures resting { IsResting seat.new }
    ensures stream { seat.new.stream.items ≡ seat.old.stream.items }
    ensures end { seat.new.end ≡ seat.old.end }
    ensures heard { (seat.old.at < seat.new.at) ⊎ ((seat.new.at ≡ seat.old.at) × IsLast seat.new.session.stage) }
{
    let left = seat.stream.len() - seat.at;
    if left == 0 {
        seat.session.stop(Stop::EndOfInput);
        return;
    }
    let n = seat.piece.min(left);
    seat.session.feed(&seat.stream[seat.at..seat.at + n]);
    seat.at += n;
}

// Whether the session wants bytes.
fn wants_bytes(session: &Session) -> bool
    ensures yes { result ≡ true → wanted session.now ≡ wishes.Bytes }
    ensures no { result ≡ false → IsSettled (wanted session.now) → IsCallOrEnd (wanted session.now) }
{
    matches!(session.demand(), Want::Bytes)
}

/// Whether the session wants a call of its book.
pub(crate) fn wants_call(session: &Session) -> bool
    ensures yes { result ≡ true → IsCall (wanted session.now) }
    ensures no { result ≡ false → IsCall (wanted session.now) → ⊥ }
{
    matches!(session.demand(), Want::Define | Want::Cells | Want::Book(_))
}

// Where bytes are wanted, takes a piece or stops, and then all that is due is looked at and sent. Answers whether they were wanted.
fn hear_on(seat: &mut Seat) -> Result<bool, Memory>
    requires fit { IsFit seat.old.session.runner }
    requires settled { IsSettled (wanted seat.old.session) }
    ensures grows { GrowsAlone seat.old seat.new }
    ensures fit { IsFit seat.new.session.runner }
    ensures end { seat.new.end ≡ seat.old.end }
    ensures resting { OnOk result (IsResting seat.old → IsResting seat.new) }
    ensures unsent { OnErr result (LeftUnsent seat.new) }
    ensures settled { OnOk result (IsSettled (wanted seat.new.session)) }
    ensures left { IfOk result (λ more. more ≡ true → left_in seat.new < left_in seat.old) }
    ensures call { IfOk result (λ more. more ≡ false → IsCallOrEnd (wanted seat.new.session)) }
{
    if !wants_bytes(&seat.session) {
        return Ok(false);
    }
    hear(seat);
    settle(seat)?;
    Ok(true)
}

/// Takes bytes until a call is wanted or the end is there. The stream's end is a stop.
pub(crate) fn listen(seat: &mut Seat) -> Result<(), Memory>
    requires fit { IsFit seat.old.session.runner }
    requires settled { IsSettled (wanted seat.old.session) }
    ensures grows { GrowsAlone seat.old seat.new }
    ensures fit { IsFit seat.new.session.runner }
    ensures end { seat.new.end ≡ seat.old.end }
    ensures resting { OnOk result (IsResting seat.old → IsResting seat.new) }
    ensures unsent { OnErr result (LeftUnsent seat.new) }
    ensures call { OnOk result (IsCallOrEnd (wanted seat.new.session)) }
{
    while hear_on(seat)? {}
    Ok(())
}
