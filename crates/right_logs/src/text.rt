// What one pass over a text says of it.
ghost use Rattle.std.specs.Prelude.{◌≡◌, ◌↔◌, ℕ, List, [], IsTrue, IfOk, length};
ghost use Rattle.order_test.specs.Places.{ArePlaces};
ghost use Rattle.order_test.specs.Unkept.{HoldsAll};
ghost use Rattle.right_logs.specs.Passes.{StandsFor};
ghost use Rattle.right_logs.specs.Glimpses.{IsGlimpseOf, IsGlimpseOfEvents, IsGlimpseOfLines, glimpse_with};

use crate::ending::split_end;
use crate::glimpse::{Glimpse, Seen, glimpse_by};
use crate::lines::take_lines;
use crate::met::order_is_met;
use crate::pass::{Pass, no_pass};
use bumpalo::Bump;
use cell_base::{Level, Memory};
use held_values::without;
use history_log::{Misread, Version, first_part, head_of, read_order};
use order_test::{Places, places_of};
use std::alloc::Global;

/// The greatest number of bytes of a text.
const MOST_BYTES: usize = 268_435_456;

/// About as few bytes as the line of an event mostly has.
const EVENT_BYTES: usize = 20;

/// What one pass over the bytes says of them. `Unclear` says nothing: so it is with what isn't the log of right events, with a log of version 3, with
/// one that has a scan, and with one whose order isn't of the numbers below its length or turns a session round. `Judged` says nothing of the order,
/// which may be one that only the records of the transactions show to be right.
pub fn glimpse_of(alloc: Global, bytes: &[u8]) -> Result<Glimpse, Memory>
    ensures { IfOk result (IsGlimpseOf bytes.now) }
{
    if bytes.len() > MOST_BYTES {
        return Ok(Glimpse::Unclear);
    }
    let Some((first, rest)) = first_part(bytes, b'\n') else {
        return Ok(Glimpse::Unclear);
    };
    let Some((version, level)) = head_of(first) else {
        return Ok(Glimpse::Unclear);
    };
    if says_rows(version) {
        return Ok(Glimpse::Unclear);
    }
    glimpse_of_lines(alloc, version, level, rest)
}

/// Whether texts of the version say the rows that were there from the start.
fn says_rows(version: Version) -> bool
    ensures { IsTrue result ↔ (version ≡ Version.Three) }
{
    match version {
        Version::One => false,
        Version::Two => false,
        Version::Three => true,
    }
}

/// The same of the lines after the head.
fn glimpse_of_lines(
    alloc: Global,
    version: Version,
    level: Level,
    text: &[u8],
) -> Result<Glimpse, Memory>
    ensures { IfOk result (IsGlimpseOfLines version level text.now) }
{
    let Some((body, last)) = split_end(text) else {
        return Ok(Glimpse::Unclear);
    };
    match read_order(alloc, last) {
        Ok(order) => glimpse_of_events(alloc, version, level, body, order.as_slice()),
        Err(Misread::Form) => Ok(Glimpse::Unclear),
        Err(Misread::Memory) => Err(Memory),
    }
}

/// The same of the lines of events, beside an order.
fn glimpse_of_events(
    alloc: Global,
    version: Version,
    level: Level,
    text: &[u8],
    order: &[u32],
) -> Result<Glimpse, Memory>
    ensures { IfOk result (IsGlimpseOfEvents version level text.now order.now) }
{
    match places_of(alloc, order)? {
        Some(places) => glimpse_at(alloc, version, level, text, &places),
        None => Ok(Glimpse::Unclear),
    }
}

/// The same, beside the order of these places.
fn glimpse_at(
    alloc: Global,
    version: Version,
    level: Level,
    text: &[u8],
    places: &Places,
) -> Result<Glimpse, Memory>
    requires { (order : List ℕ) × ArePlaces (length places.now.at.items) order places.now.at.items }
    ensures { IfOk result (λ glimpse. (order : List ℕ) → ArePlaces (length places.now.at.items) order places.now.at.items →
        HoldsAll (length places.now.at.items) order → IsGlimpseOfEvents version level text.now order glimpse) }
{
    let clocks = Bump::new(alloc);
    let mut pass = no_pass(alloc, &clocks, level, places, text.len() / EVENT_BYTES)?;
    match seen_by(alloc, version, level, text, places, &mut pass) {
        Ok(seen) => Ok(glimpse_by(pass, seen)),
        Err(memory) => without(pass, Err(memory)),
    }
}

/// What the pass, which is of no event yet, shows of the lines of events, beside the order of these places.
fn seen_by(
    alloc: Global,
    version: Version,
    level: Level,
    text: &[u8],
    places: &Places,
    pass: &mut Pass,
) -> Result<Seen, Memory>
    requires { (order : List ℕ) × StandsFor order places.now.at.items [] pass.old }
    ensures { IfOk result (λ seen. (order : List ℕ) → StandsFor order places.now.at.items [] pass.old →
        HoldsAll (length places.now.at.items) order → IsGlimpseOfEvents version level text.now order (glimpse_with pass.new.cells seen)) }
{
    let taken = take_lines(alloc, version, level, pass, places, text)?;
    if !taken {
        return Ok(Seen::Unclear);
    }
    if order_is_met(pass, places) {
        Ok(Seen::Right)
    } else {
        Ok(Seen::Judged)
    }
}
