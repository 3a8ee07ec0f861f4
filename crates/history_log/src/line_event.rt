// Reads the line of an event.
ghost use Rattle.history_log.specs.Reading.{IsEventLine, Reads};

use crate::events::event_of;
use crate::keyword::keyword_of;
use crate::misread::Misread;
use crate::parts::Parts;
use crate::version::Version;
use cell_base::Level;
use history_core::Event;
use std::alloc::Global;

/// The event whose line this is, without its line feed, in a text of this version whose head has this level. `Form` comes
/// exactly where it is no event's.
pub fn read_event(
    alloc: Global,
    version: Version,
    head: Level,
    line: &[u8],
) -> Result<Event, Misread>
    ensures { Reads (IsEventLine version head) result line.now }
{
    let mut words = Parts::new(line, b' ');
    let Some(word) = words.next() else {
        return Err(Misread::Form);
    };
    let Some(keyword) = keyword_of(word) else {
        return Err(Misread::Form);
    };
    event_of(alloc, version, head, keyword, &mut words)
}
