// Whether the order keeps what the reads of a transaction ask.
ghost use Rattle.std.specs.Prelude.{◌≡◌, ◌<◌, ◌≤◌, ◌+◌, ℕ, IsTrue, length};
ghost use Rattle.std.specs.List.Sorted.{IsStrictlyIncreasing};
ghost use Rattle.history_check.specs.Notes.{AreAscending};
ghost use Rattle.right_logs.specs.Standing.{AreHighest};
ghost use Rattle.right_logs.specs.Judging.{AreKept, AreKeptOf, HasNoEarlierRival, HasNoLateWriter, HasNoSourceRival, HasNoUnseenRival, IsClearOf, IsKeptNow, IsKeptSession, IsNoRival, IsUnrivalled, IsUnseen, KnowsUnseen};
ghost use Rattle.right_logs.specs.Passes.{Stands};

use crate::open_reads::{ReadNote, reads_of};
use crate::pass::Pass;
use crate::seats::pending_of;
use crate::standing::stand_up_to;
use crate::txn_notes::{TxnNote, number_in};
use cell_base::Level;
use cell_writers::{CellNote, Numbers};
use order_test::{Places, place_at, stands_before};

/// How many writers of a cell are asked for one read. Where more would have to be nothing is said of the order.
const MOST_WRITERS: usize = 1_000;

/// How many reads of one transaction are compared with one another. Where there are more nothing is said of the order.
const MOST_READS: usize = 1_000;

/// Whether none of the writers, which ascend, stands after the place.
fn none_is_late(pass: &Pass, _places: &Places, writers: &[u32], from: usize) -> bool
    requires ascending { IsStrictlyIncreasing writers.now }
    requires highest { AreHighest _places.now.at.items pass.now.highest.items }
    ensures { IsTrue result → HasNoLateWriter _places.now.at.items writers.now from }
{
    if writers.is_empty() {
        return true;
    }
    stand_up_to(&pass.highest, writers[writers.len() - 1], from)
}

/// Whether the level and the clock of a reader show that it doesn't see the writer by session order or by its causal past. At Read Committed these
/// show it nothing.
fn is_unseen(own: &TxnNote, writer: &TxnNote, number: u32) -> bool
    ensures { IsTrue result → IsUnseen own.now writer.now number }
{
    match own.level {
        Level::Rc => true,
        Level::Ra => writer.session != own.session,
        Level::Cc => number_in(&own.clock, writer.session) < number,
    }
}

/// The same of the transaction of the number.
fn number_is_unseen(pass: &Pass, own: &TxnNote, number: u32) -> bool
    ensures { IsTrue result → KnowsUnseen pass.now own.now number }
{
    if number as usize >= pass.txns.len() {
        return false;
    }
    is_unseen(own, &pass.txns[number as usize], number)
}

/// Whether the writer doesn't stand after the place, or the reader doesn't see it so.
fn is_clear_of(pass: &Pass, places: &Places, own: &TxnNote, number: u32, from: usize) -> bool
    ensures { IsTrue result → IsClearOf places.now.at.items pass.now own.now number from }
{
    // (at Read Atomic most writers are of another session, which one number tells; a clock takes more than a place)
    match own.level {
        Level::Ra => number_is_unseen(pass, own, number) || place_at(places, number) <= from,
        Level::Rc => place_at(places, number) <= from || number_is_unseen(pass, own, number),
        Level::Cc => place_at(places, number) <= from || number_is_unseen(pass, own, number),
    }
}

/// Whether so it is with all these writers, which ascend. Of those before one up to which none stands after the place none does.
fn has_no_unseen_rival(
    pass: &Pass,
    places: &Places,
    own: &TxnNote,
    writers: &[u32],
    from: usize,
) -> bool
    requires ascending { IsStrictlyIncreasing writers.now }
    requires highest { AreHighest places.now.at.items pass.now.highest.items }
    ensures { IsTrue result → HasNoUnseenRival places.now.at.items pass.now own.now writers.now from }
{
    let mut at = writers.len();
    while at > 0 {
        if writers.len() - at >= MOST_WRITERS {
            return false;
        }
        if stand_up_to(&pass.highest, writers[at - 1], from) {
            return true;
        }
        if !is_clear_of(pass, places, own, writers[at - 1], from) {
            return false;
        }
        at -= 1;
    }
    true
}

/// Whether the transaction doesn't stand after the place, or hasn't written the cell of these committed writers.
fn is_no_rival(places: &Places, writers: &Numbers, number: u32, from: usize) -> bool
    requires { IsStrictlyIncreasing writers.now }
    ensures { IsTrue result → IsNoRival places.now.at.items writers.now number from }
{
    place_at(places, number) <= from || !writers.contains(number)
}

/// Whether this read, where it is before the place among the events, is from no rival.
fn is_harmless_early(
    places: &Places,
    writers: &Numbers,
    read: ReadNote,
    before: u32,
    from: usize,
) -> bool
    requires { IsStrictlyIncreasing writers.now }
    ensures { IsTrue result → read.place < before → IsNoRival places.now.at.items writers.now read.source from }
{
    read.place >= before || is_no_rival(places, writers, read.source, from)
}

/// Whether none of these reads before the place among the events is from a rival.
fn has_no_earlier_rival(
    places: &Places,
    writers: &Numbers,
    reads: &[ReadNote],
    before: u32,
    from: usize,
) -> bool
    requires { IsStrictlyIncreasing writers.now }
    ensures { IsTrue result → HasNoEarlierRival places.now.at.items writers.now reads.now before from }
{
    if reads.len() > MOST_READS {
        return false;
    }
    for at in 0..reads.len() {
        if !is_harmless_early(places, writers, reads[at], before, from) {
            return false;
        }
    }
    true
}

/// Whether none of these reads is from a rival.
fn has_no_source_rival(places: &Places, writers: &Numbers, reads: &[ReadNote], from: usize) -> bool
    requires { IsStrictlyIncreasing writers.now }
    ensures { IsTrue result → HasNoSourceRival places.now.at.items writers.now reads.now from }
{
    if reads.len() > MOST_READS {
        return false;
    }
    for at in 0..reads.len() {
        if !is_no_rival(places, writers, reads[at].source, from) {
            return false;
        }
    }
    true
}

/// Whether the reader, whose reads these are, sees no writer of the cell of the note that stands after the place. The read is at this place among
/// the events.
fn is_unrivalled(
    pass: &Pass,
    places: &Places,
    reads: &[ReadNote],
    own: &TxnNote,
    note: &CellNote,
    before: u32,
    from: usize,
) -> bool
    requires ascending { IsStrictlyIncreasing note.now.committed }
    requires highest { AreHighest places.now.at.items pass.now.highest.items }
    ensures { IsTrue result → IsUnrivalled places.now.at.items pass.now reads.now own.now note.now before from }
{
    let writers = note.committed.as_slice();
    if none_is_late(pass, places, writers, from) {
        return true;
    }
    match own.level {
        Level::Rc => has_no_earlier_rival(places, &note.committed, reads, before, from),
        Level::Ra => {
            has_no_source_rival(places, &note.committed, reads, from)
                && has_no_unseen_rival(pass, places, own, writers, from)
        }
        Level::Cc => pass.clocked && has_no_unseen_rival(pass, places, own, writers, from),
    }
}

/// Whether the order keeps what the read asks, which is one of these of its transaction.
fn is_kept_now(pass: &Pass, places: &Places, reads: &[ReadNote], read: ReadNote) -> bool
    requires ascending { AreAscending pass.now.cells.notes.items }
    requires highest { AreHighest places.now.at.items pass.now.highest.items }
    ensures { IsTrue result → IsKeptNow places.now.at.items pass.now reads.now read }
{
    if read.cell as usize >= pass.cells.notes.len() {
        return false;
    }
    if read.reader as usize >= pass.txns.len() {
        return false;
    }
    if !stands_before(places, read.source, read.reader) {
        return false;
    }
    is_unrivalled(
        pass,
        places,
        reads,
        &pass.txns[read.reader as usize],
        &pass.cells.notes[read.cell as usize],
        read.place,
        place_at(places, read.source),
    )
}

/// Whether the reads are all of the reader, and the order keeps what they ask.
fn are_kept(pass: &Pass, places: &Places, reads: &[ReadNote], reader: u32) -> bool
    requires ascending { AreAscending pass.now.cells.notes.items }
    requires highest { AreHighest places.now.at.items pass.now.highest.items }
    ensures { IsTrue result → AreKept places.now.at.items pass.now reads.now reader }
{
    for at in 0..reads.len() {
        if reads[at].reader != reader {
            return false;
        }
        if !is_kept_now(pass, places, reads, reads[at]) {
            return false;
        }
    }
    true
}

/// Whether the order keeps what the reads of all transactions that have ended ask, and what those of the one that is pending in the session do.
pub fn still_met(pass: &Pass, places: &Places, session: u32, reader: u32) -> bool
    requires stands { Stands places.now.at.items pass.now }
    requires some { 0 < session }
    requires opened { session ≤ length pass.now.reads.items }
    ensures { IsTrue result → IsTrue pass.now.met × AreKeptOf places.now.at.items pass.now session reader }
{
    if !pass.met {
        return false;
    }
    are_kept(pass, places, reads_of(&pass.reads, session), reader)
}

/// Whether the session has no reads, or they are all of the transaction that is pending there, and the order keeps what they ask.
fn session_is_kept(pass: &Pass, places: &Places, session: u32) -> bool
    requires ascending { AreAscending pass.now.cells.notes.items }
    requires highest { AreHighest places.now.at.items pass.now.highest.items }
    requires some { 0 < session }
    requires opened { session ≤ length pass.now.reads.items }
    ensures { IsTrue result → IsKeptSession places.now.at.items pass.now session }
{
    let reads = reads_of(&pass.reads, session);
    if reads.is_empty() {
        return true;
    }
    match pending_of(&pass.session_notes, session) {
        Some(reader) => are_kept(pass, places, reads, reader),
        None => false,
    }
}

/// Whether so it is with each session.
pub fn all_are_kept(pass: &Pass, places: &Places) -> bool
    requires { Stands places.now.at.items pass.now }
    ensures { IsTrue result → (at : ℕ) → at < length pass.now.reads.items → IsKeptSession places.now.at.items pass.now (at + 1) }
{
    for at in 0..pass.reads.len() {
        let Ok(session) = u32::try_from(at + 1) else {
            return false;
        };
        if !session_is_kept(pass, places, session) {
            return false;
        }
    }
    true
}
