// What a read sees.
ghost use Rattle.std.specs.Prelude.{◌≡◌, ◌≤◌, ◌<◌, ◌+◌, ◌↔◌, IsTrue, Any, length, slice_index};
ghost use Rattle.history_core.specs.Events.{begun};
ghost use Rattle.history_core.specs.Kept.{StandsForTxns};
ghost use Rattle.history_core.specs.Relations.{Precedes, PrecedesCausally, ReadsBefore, IsVisible};
ghost use Rattle.saturation.specs.Views.{number_of, IsReadFrom};
ghost use Rattle.order_test.specs.Pasts.{ArePasts, IsPastOf};
ghost use Rattle.order_test.specs.Sights.{IsNumber};
ghost use Rattle.order_test.specs.Scenes.{IsScene};

use crate::pasts::{Past, Pasts};
use crate::read_at::ReadAt;
use crate::scene::Scene;
use crate::sessions::{is_session_ordered, txn_of};
use crate::survey::Survey;
use cell_base::Level;
use history_core::{Event, Seen, Txn};

/// Whether what was seen is a read from the source.
fn is_read_from(seen: &Seen, source: u32) -> bool
    ensures { IsTrue result ↔ IsReadFrom seen.now source }
{
    match seen {
        Seen::Read { source: from, .. } => *from == source,
        Seen::Scan { .. } => false,
    }
}

/// The number of the event that showed it.
pub fn number_in(seen: &Seen) -> u32
    ensures { result ≡ number_of seen.now }
{
    match seen {
        Seen::Read { number, .. } => *number,
        Seen::Scan { number, .. } => *number,
    }
}

/// Whether some read is from the source.
fn has_read(all: &[Seen], source: u32) -> bool
    ensures { IsTrue result ↔ Any (λ s. IsReadFrom s source) all.now }
{
    all.iter().any(|seen| is_read_from(seen, source))
}

/// Whether some read before the event at the place is from the source. Events are numbered from 1.
fn has_read_before(all: &[Seen], place: usize, source: u32) -> bool
    ensures { IsTrue result ↔ Any (λ s. (number_of s < place + 1) × IsReadFrom s source) all.now }
{
    all.iter().any(|seen| number_in(seen) as usize <= place && is_read_from(seen, source))
}

/// Whether the reader has read from the writer before the read.
fn reads_before(survey: &Survey<'_>, txns: &[Txn], read: &ReadAt<'_>, writer: u32) -> bool
    requires txns { StandsForTxns survey.now.events.now txns.now }
    requires reader { IsNumber survey.now.events.now read.now.reader }
    requires writer { IsNumber survey.now.events.now writer }
    ensures { IsTrue result ↔ ReadsBefore survey.now.events.now read.now.reader read.now.place writer }
{
    let txn = txn_of(survey, txns, read.reader);
    has_read_before(txn.seen.as_slice(), read.place, writer)
}

/// Whether the writer precedes the reader, by session order or by the write-read relation.
fn precedes(survey: &Survey<'_>, txns: &[Txn], writer: u32, reader: u32) -> bool
    requires txns { StandsForTxns survey.now.events.now txns.now }
    requires writer { IsNumber survey.now.events.now writer }
    requires reader { IsNumber survey.now.events.now reader }
    ensures { IsTrue result ↔ Precedes survey.now.events.now writer reader }
{
    if is_session_ordered(survey, txns, writer, reader) {
        return true;
    }
    let txn = txn_of(survey, txns, reader);
    has_read(txn.seen.as_slice(), writer)
}

/// The causal past of the transaction.
pub fn past_of<'a>(pasts: &'a Pasts, events: &[Event], number: u32) -> &'a Past
    requires pasts { ArePasts events.now pasts.now }
    requires number { number ≤ begun events.now }
    ensures { IsPastOf events.now pasts.now.width number result.now }
{
    &pasts.rows[number as usize]
}

/// The last transaction of the session in the past.
pub fn top_of(past: &Past, session: usize) -> u32
    ensures { result ≡ slice_index past.now.tops.items session }
{
    if session >= past.tops.len() {
        return 0;
    }
    past.tops[session]
}

/// Whether the writer is in the causal past of the reader.
fn precedes_causally(survey: &Survey<'_>, scene: &Scene<'_>, writer: u32, reader: u32) -> bool
    requires scene { IsScene survey.now scene.now }
    requires writer { IsNumber survey.now.events.now writer }
    requires reader { reader ≤ begun survey.now.events.now }
    ensures { IsTrue result ↔ PrecedesCausally survey.now.events.now writer reader }
{
    let session = txn_of(survey, scene.txns, writer).session;
    let past = past_of(scene.pasts, survey.events, reader);
    top_of(past, session as usize) >= writer
}

/// Whether the read sees the writer, at the level of the reader.
pub fn sees(survey: &Survey<'_>, scene: &Scene<'_>, read: &ReadAt<'_>, writer: u32) -> bool
    requires scene { IsScene survey.now scene.now }
    requires reader { IsNumber survey.now.events.now read.now.reader }
    requires writer { IsNumber survey.now.events.now writer }
    ensures { IsTrue result ↔ IsVisible survey.now.events.now read.now.reader read.now.place writer }
{
    match txn_of(survey, scene.txns, read.reader).level {
        Level::Rc => reads_before(survey, scene.txns, read, writer),
        Level::Ra => precedes(survey, scene.txns, writer, read.reader),
        Level::Cc => precedes_causally(survey, scene, writer, read.reader),
    }
}
