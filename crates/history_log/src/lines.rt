// Takes the lines of a text into a draft.
ghost use Rattle.std.specs.Prelude.{◌≡◌, ◌≤◌, ◌∷◌, ◌++◌, [], List, ℕ, ◌↔◌, length, IsTrue, IfOk, OnOk, IsErrOf};
ghost use Rattle.cell_base.specs.declared.cell.Cell.{Cell};
ghost use Rattle.cell_base.specs.declared.value.Value.{Value};
ghost use Rattle.history_core.specs.declared.event.Event.{Event};
ghost use Rattle.history_log.specs.Cut.{cut_at};
ghost use Rattle.history_log.specs.Spelling.{end_line};
ghost use Rattle.history_log.specs.Draft.{IsRight, IsNextRow, IsNextEvent, IsNextOrder, said};
ghost use Rattle.history_log.specs.Leading.{IsReadTo};
ghost use Rattle.history_log.specs.Faults.{CanGoOn};

use crate::draft::{Draft, Place, next_event, next_order, next_row, takes_events};
use crate::keyword::{Keyword, keyword_of};
use crate::leading::leading_event;
use crate::misread::Misread;
use crate::parts::Parts;
use cell_base::Memory;
use std::alloc::Global;

/// Takes the next line.
pub fn take_line(alloc: Global, draft: &mut Draft, line: &[u8]) -> Result<(), Misread>
    requires { IsRight draft.old }
    ensures right { OnOk result (IsRight draft.new) }
    ensures said { OnOk result (said draft.new ≡ said draft.old ++ line.now ∷ []) }
    ensures form { IsErrOf result Misread.Form → CanGoOn (said draft.old ++ line.now ∷ []) → ⊥ }
{
    match draft.place {
        Place::Body => take_body_line(alloc, draft, line),
        Place::End => take_end_line(draft, line),
        Place::Done => Err(Misread::Form),
    }
}

/// Takes the lines that the text begins with, as long as each is of an event that `leading_event` finds. Gives the number of
/// the last line that has been taken, where `number` is that of the line before the text, and what stands after it.
pub fn take_leading<'a>(
    draft: &mut Draft,
    number: u32,
    text: &'a [u8],
) -> Result<(u32, &'a [u8]), Memory>
    requires { IsReadTo (said draft.old ++ cut_at 10 text.now) draft.old number text.now }
    ensures read { IfOk result (λ x. IsReadTo (said draft.old ++ cut_at 10 text.now) draft.new x.0 x.1.now) }
    ensures shorter { IfOk result (λ x. length x.1.now ≤ length text.now) }
{
    if !takes_events(draft) {
        return Ok((number, text));
    }
    let mut last = number;
    let mut rest = text;
    while let Some((event, after)) = leading_event(rest) {
        draft.trace.events.push(event)?;
        last += 1;
        rest = after;
    }
    Ok((last, rest))
}

/// Takes the end.
fn take_end_line(draft: &mut Draft, line: &[u8]) -> Result<(), Misread>
    requires right { IsRight draft.old }
    requires place { draft.old.place ≡ Place.End }
    ensures right { OnOk result (IsRight draft.new) }
    ensures said { OnOk result (said draft.new ≡ said draft.old ++ line.now ∷ []) }
    ensures form { IsErrOf result Misread.Form → CanGoOn (said draft.old ++ line.now ∷ []) → ⊥ }
{
    if is_end(line) {
        draft.place = Place::Done;
        Ok(())
    } else {
        Err(Misread::Form)
    }
}

/// Whether the line is the end.
fn is_end(line: &[u8]) -> bool
    ensures { IsTrue result ↔ (line.now ≡ end_line) }
{
    matches!(line, b"end")
}

/// Takes a cell of the initial state, an event or the order.
fn take_body_line(alloc: Global, draft: &mut Draft, line: &[u8]) -> Result<(), Misread>
    requires right { IsRight draft.old }
    requires place { draft.old.place ≡ Place.Body }
    ensures right { OnOk result (IsRight draft.new) }
    ensures said { OnOk result (said draft.new ≡ said draft.old ++ line.now ∷ []) }
    ensures form { IsErrOf result Misread.Form → CanGoOn (said draft.old ++ line.now ∷ []) → ⊥ }
{
    let mut words = Parts::new(line, b' ');
    let Some(word) = words.next() else {
        return Err(Misread::Form);
    };
    let Some(keyword) = keyword_of(word) else {
        return Err(Misread::Form);
    };
    match keyword {
        Keyword::Initial => take_row(alloc, draft, &mut words),
        Keyword::Order => take_order(alloc, draft, &mut words),
        keyword => take_event(alloc, draft, keyword, &mut words),
    }
}

/// Takes a cell of the initial state.
fn take_row(alloc: Global, draft: &mut Draft, words: &mut Parts) -> Result<(), Misread>
    requires { IsRight draft.old }
    ensures ok { OnOk result ((x : Cell × Value) × IsNextRow draft.old x words.old
        × (draft.new ≡ record draft.old { trace = record draft.old.trace { initial = draft.old.trace.initial ++ x ∷ [] } })) }
    ensures form { IsErrOf result Misread.Form → (x : Cell × Value) → IsNextRow draft.old x words.old → ⊥ }
{
    let row = next_row(alloc, draft, words)?;
    draft.trace.initial.push(row)?;
    Ok(())
}

/// Takes an event.
fn take_event(
    alloc: Global,
    draft: &mut Draft,
    keyword: Keyword,
    words: &mut Parts,
) -> Result<(), Misread>
    ensures ok { OnOk result ((event : Event) × IsNextEvent draft.old keyword event words.old
        × (draft.new ≡ record draft.old { trace = record draft.old.trace { events = draft.old.trace.events ++ event ∷ [] } })) }
    ensures form { IsErrOf result Misread.Form → (event : Event) → IsNextEvent draft.old keyword event words.old → ⊥ }
{
    let event = next_event(alloc, draft, keyword, words)?;
    draft.trace.events.push(event)?;
    Ok(())
}

/// Takes the order.
fn take_order(alloc: Global, draft: &mut Draft, words: &mut Parts) -> Result<(), Misread>
    ensures ok { OnOk result ((order : List ℕ) × IsNextOrder draft.old order words.old
        × (draft.new ≡ record draft.old { place = Place.End; trace = record draft.old.trace { order = order } })) }
    ensures form { IsErrOf result Misread.Form → (order : List ℕ) → IsNextOrder draft.old order words.old → ⊥ }
{
    let order = next_order(alloc, draft, words)?;
    draft.trace.order = order;
    draft.place = Place::End;
    Ok(())
}
