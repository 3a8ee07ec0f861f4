// What a read sees where all transactions run at one level.
ghost use Rattle.std.specs.Prelude.{◌≡◌, ◌≤◌, ◌<◌, ◌+◌, ◌↔◌, IsTrue, Any, length, slice_index};
ghost use Rattle.history_core.specs.Events.{begun};
ghost use Rattle.history_core.specs.Relations.{IsSessionOrdered, Precedes, PrecedesCausally, ReadsBefore, IsVisibleAt};
ghost use Rattle.saturation.specs.Views.{number_of, IsReadFrom};
ghost use Rattle.order_test.specs.Sights.{IsNumber};
ghost use Rattle.cycle_report.specs.Pasts.{ArePasts, IsPastOf};
ghost use Rattle.cycle_report.specs.Views.{IsView};

use crate::pasts::{Past, Pasts};
use crate::view::{View, txn_of};
use cell_base::Level;
use history_core::{Event, Seen};

/// Whether what was seen is a read from the source.
fn is_read_from(seen: &Seen, source: u32) -> bool
    ensures { IsTrue result ↔ IsReadFrom seen.now source }
{
    match seen {
        Seen::Read { source: from, .. } => *from == source,
        Seen::Scan { .. } => false,
    }
}

/// The number of the event that showed it.
fn number_in(seen: &Seen) -> u32
    ensures { result ≡ number_of seen.now }
{
    match seen {
        Seen::Read { number, .. } => *number,
        Seen::Scan { number, .. } => *number,
    }
}

/// Whether some read is from the source.
fn has_read(all: &[Seen], source: u32) -> bool
    ensures { IsTrue result ↔ Any (λ s. IsReadFrom s source) all.now }
{
    all.iter().any(|seen| is_read_from(seen, source))
}

/// Whether some read before the event at the place is from the source. Events are numbered from 1.
fn has_read_before(all: &[Seen], place: usize, source: u32) -> bool
    ensures { IsTrue result ↔ Any (λ s. (number_of s < place + 1) × IsReadFrom s source) all.now }
{
    all.iter().any(|seen| number_in(seen) as usize <= place && is_read_from(seen, source))
}

/// Whether session order has the first before the second.
fn is_session_ordered(view: &View<'_>, first: u32, second: u32) -> bool
    requires view { IsView view.now }
    requires first { IsNumber view.now.events.now first }
    requires second { IsNumber view.now.events.now second }
    ensures { IsTrue result ↔ IsSessionOrdered view.now.events.now first second }
{
    let earlier = txn_of(view, first);
    let later = txn_of(view, second);
    first < second && earlier.session == later.session
}

/// Whether the reader has read from the writer before the event at the place.
fn reads_before(view: &View<'_>, place: usize, reader: u32, writer: u32) -> bool
    requires view { IsView view.now }
    requires reader { IsNumber view.now.events.now reader }
    requires writer { IsNumber view.now.events.now writer }
    ensures { IsTrue result ↔ ReadsBefore view.now.events.now reader place writer }
{
    let txn = txn_of(view, reader);
    has_read_before(txn.seen.as_slice(), place, writer)
}

/// Whether the writer precedes the reader, by session order or by the write-read relation.
fn precedes(view: &View<'_>, writer: u32, reader: u32) -> bool
    requires view { IsView view.now }
    requires writer { IsNumber view.now.events.now writer }
    requires reader { IsNumber view.now.events.now reader }
    ensures { IsTrue result ↔ Precedes view.now.events.now writer reader }
{
    if is_session_ordered(view, writer, reader) {
        return true;
    }
    let txn = txn_of(view, reader);
    has_read(txn.seen.as_slice(), writer)
}

/// The causal past of the transaction.
pub fn past_of<'a>(pasts: &'a Pasts, events: &[Event], number: u32) -> &'a Past
    requires pasts { ArePasts events.now pasts.now }
    requires number { number ≤ begun events.now }
    ensures { IsPastOf events.now pasts.now.width number result.now }
{
    &pasts.rows[number as usize]
}

/// The last transaction of the session in the past.
pub fn top_of(past: &Past, session: usize) -> u32
    ensures { result ≡ slice_index past.now.tops.items session }
{
    if session >= past.tops.len() {
        return 0;
    }
    past.tops[session]
}

/// Whether the writer is in the causal past of the reader.
pub fn precedes_causally(view: &View<'_>, writer: u32, reader: u32) -> bool
    requires view { IsView view.now }
    requires writer { IsNumber view.now.events.now writer }
    requires reader { reader ≤ begun view.now.events.now }
    ensures { IsTrue result ↔ PrecedesCausally view.now.events.now writer reader }
{
    let session = txn_of(view, writer).session;
    let past = past_of(view.pasts, view.events, reader);
    top_of(past, session as usize) >= writer
}

/// Whether the read at the place sees the writer, where its reader runs at the level.
pub fn sees(view: &View<'_>, level: Level, place: usize, reader: u32, writer: u32) -> bool
    requires view { IsView view.now }
    requires reader { IsNumber view.now.events.now reader }
    requires writer { IsNumber view.now.events.now writer }
    ensures { IsTrue result ↔ IsVisibleAt level view.now.events.now reader place writer }
{
    match level {
        Level::Rc => reads_before(view, place, reader, writer),
        Level::Ra => precedes(view, writer, reader),
        Level::Cc => precedes_causally(view, writer, reader),
    }
}
