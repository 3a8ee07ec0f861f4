// A history as far as its text has been read.
ghost use Rattle.std.specs.Prelude.{◌≡◌, ◌≢◌, ◌↔◌, IsTrue};
ghost use Rattle.history_core.specs.Initial.{IsInitialState};
ghost use Rattle.history_log.specs.Reading.{Reads};
ghost use Rattle.history_log.specs.Draft.{HasInitial, IsNextRow, IsNextEvent, IsNextOrder};

use crate::Trace;
use crate::events::event_of;
use crate::fields::{take_cell, take_end, take_value};
use crate::keyword::Keyword;
use crate::misread::Misread;
use crate::parts::Parts;
use crate::rows::fits_next;
use crate::shapes::numbers_of;
use crate::version::Version;
use cell_base::{Cell, Items, Value};
use history_core::Event;
use std::alloc::Global;

/// What may stand next in a text.
#[derive(Clone, Copy, Debug, PartialEq, Eq)]
pub enum Place {
    /// A cell of the initial state, an event or the order.
    Body,
    /// The end.
    End,
    /// Nothing.
    Done,
}

/// A history as far as its text has been read.
#[derive(Debug, Drop)]
pub struct Draft {
    pub version: Version,
    pub place: Place,
    pub trace: Trace,
}

/// Whether events and the order may come, so far as the initial state goes.
fn has_initial(version: Version, initial: &[(Cell, Value)]) -> bool
    ensures { IsTrue result ↔ HasInitial version initial.now }
{
    match version {
        Version::One => true,
        Version::Two => true,
        Version::Three => !initial.is_empty(),
    }
}

/// Whether the next line may be an event's.
pub fn takes_events(draft: &Draft) -> bool
    ensures place { IsTrue result → draft.now.place ≡ Place.Body }
    ensures initial { IsTrue result → HasInitial draft.now.version draft.now.trace.initial }
{
    match draft.place {
        Place::Body => has_initial(draft.version, draft.trace.initial.as_slice()),
        Place::End => false,
        Place::Done => false,
    }
}

/// The next cell of the initial state.
pub fn next_row(alloc: Global, draft: &Draft, words: &mut Parts) -> Result<(Cell, Value), Misread>
    requires { IsInitialState draft.now.trace.initial }
    ensures { Reads (IsNextRow draft.now) result words.old }
{
    if draft.version != Version::Three {
        return Err(Misread::Form);
    }
    if draft.trace.events.len() != 0 {
        return Err(Misread::Form);
    }
    let cell = take_cell(alloc, words)?;
    let value = take_value(alloc, words)?;
    take_end(words)?;
    if fits_next(draft.trace.initial.as_slice(), &cell, &value) {
        Ok((cell, value))
    } else {
        Err(Misread::Form)
    }
}

/// The next event.
pub fn next_event(
    alloc: Global,
    draft: &Draft,
    keyword: Keyword,
    words: &mut Parts,
) -> Result<Event, Misread>
    ensures { Reads (IsNextEvent draft.now keyword) result words.old }
{
    if !has_initial(draft.version, draft.trace.initial.as_slice()) {
        return Err(Misread::Form);
    }
    event_of(alloc, draft.version, draft.trace.level, keyword, words)
}

/// The order.
pub fn next_order(alloc: Global, draft: &Draft, words: &mut Parts) -> Result<Items<u32>, Misread>
    ensures { Reads (IsNextOrder draft.now) result words.old }
{
    if !has_initial(draft.version, draft.trace.initial.as_slice()) {
        return Err(Misread::Form);
    }
    numbers_of(alloc, words)
}
