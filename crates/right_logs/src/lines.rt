// The lines of the events.
ghost use Rattle.std.specs.Prelude.{ℕ, List, [], IsTrue, IfOk, IfSome};
ghost use Rattle.right_logs.specs.Passes.{Goes, Stands, StandsFor};
ghost use Rattle.right_logs.specs.Endings.{IsFirstEvent, IsTaken, AreTaken};

use crate::pass::Pass;
use crate::places::has_room;
use crate::take::{take, take_compact_own, take_compact_read, take_compact_write};
use crate::txns::{take_begin, take_commit};
use cell_base::{Level, Memory};
use held_values::without;
use history_core::Event;
use history_log::{
    Misread, Version, first_part, leading_begin, leading_commit, leading_own, leading_read,
    leading_write, read_event,
};
use order_test::Places;
use std::alloc::Global;

/// The event whose line the text begins with, and what stands after its line feed. `None` says nothing of the text.
fn next_event(
    alloc: Global,
    version: Version,
    level: Level,
    text: &[u8],
) -> Result<Option<(Event, &[u8])>, Memory>
    ensures { IfOk result (λ found. IfSome found (λ x. IsFirstEvent version level text.now x.0 x.1.now)) }
{
    let Some((line, rest)) = first_part(text, b'\n') else {
        return Ok(None);
    };
    match read_event(alloc, version, level, line) {
        Ok(event) => Ok(Some((event, rest))),
        Err(Misread::Form) => Ok(None),
        Err(Misread::Memory) => Err(Memory),
    }
}

/// Takes the event, and lets go of it.
fn take_over(pass: &mut Pass, places: &Places, event: Event) -> Result<bool, Memory>
    requires { Stands places.now.at.items pass.old }
    ensures { IfOk result (λ goes. IsTrue goes → Goes places.now.at.items event pass.old pass.new) }
{
    let goes = take(pass, places, &event);
    without(event, goes)
}

/// Takes the event whose line the text begins with. Gives what stands after its line feed. `None` says nothing of the text.
fn take_first<'a>(
    alloc: Global,
    version: Version,
    level: Level,
    pass: &mut Pass,
    places: &Places,
    text: &'a [u8],
) -> Result<Option<&'a [u8]>, Memory>
    requires { Stands places.now.at.items pass.old }
    ensures { IfOk result (λ found. IfSome found (λ rest. IsTaken version level places.now.at.items text.now rest.now pass.old pass.new)) }
{
    if !has_room(&pass.values) {
        return Ok(None);
    }
    if let Some((read, rest)) = leading_read(text) {
        let goes = take_compact_read(pass, places, read)?;
        return Ok(goes.then_some(rest));
    }
    if let Some((write, rest)) = leading_write(text) {
        let goes = take_compact_write(pass, places, write)?;
        return Ok(goes.then_some(rest));
    }
    if let Some((session, rest)) = leading_commit(text) {
        let goes = take_commit(pass, places, session)?;
        return Ok(goes.then_some(rest));
    }
    if let Some((session, txn_level, rest)) = leading_begin(version, level, text) {
        let goes = take_begin(pass, places, session, txn_level)?;
        return Ok(goes.then_some(rest));
    }
    if let Some((own, rest)) = leading_own(text) {
        let goes = take_compact_own(pass, places, own)?;
        return Ok(goes.then_some(rest));
    }
    take_other(alloc, version, level, pass, places, text)
}

/// The same of any event, by its line as a whole.
fn take_other<'a>(
    alloc: Global,
    version: Version,
    level: Level,
    pass: &mut Pass,
    places: &Places,
    text: &'a [u8],
) -> Result<Option<&'a [u8]>, Memory>
    requires { Stands places.now.at.items pass.old }
    ensures { IfOk result (λ found. IfSome found (λ rest. IsTaken version level places.now.at.items text.now rest.now pass.old pass.new)) }
{
    let Some((event, rest)) = next_event(alloc, version, level, text)? else {
        return Ok(None);
    };
    let goes = take_over(pass, places, event)?;
    Ok(goes.then_some(rest))
}

/// Takes the events whose lines the text is, one after another.
pub fn take_lines(
    alloc: Global,
    version: Version,
    level: Level,
    pass: &mut Pass,
    places: &Places,
    text: &[u8],
) -> Result<bool, Memory>
    requires { (order : List ℕ) × StandsFor order places.now.at.items [] pass.old }
    ensures { IfOk result (λ right. IsTrue right → (order : List ℕ) → StandsFor order places.now.at.items [] pass.old →
        AreTaken version level order places.now.at.items text.now [] pass.new) }
{
    let mut rest = text;
    while !rest.is_empty() {
        let Some(after) = take_first(alloc, version, level, pass, places, rest)? else {
            return Ok(false);
        };
        rest = after;
    }
    Ok(true)
}
