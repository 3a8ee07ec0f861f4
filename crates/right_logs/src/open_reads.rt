// The external reads of the transactions that are pending.
ghost use Rattle.std.specs.Prelude.{◌≡◌, ◌≤◌, ◌<◌, ◌∷◌, ◌++◌, [], OnOk, length};
ghost use Rattle.right_logs.specs.OpenReads.{AreReadsOf, ChangesReads};

use cell_base::Memory;

/// A read of a transaction that is pending.
#[derive(Clone, Copy, Debug)]
pub struct ReadNote {
    /// The number of its cell.
    pub cell: u32,
    /// The transaction that it reads from.
    pub source: u32,
    /// The transaction that reads.
    pub reader: u32,
    /// Its place among the events.
    pub place: u32,
}

/// The reads of the transaction that is pending in a session; none where nothing is pending.
#[derive(Debug, Drop)]
pub struct SessionReads {
    pub notes: Vec<ReadNote>,
}

/// The reads of the session.
pub fn reads_of(lists: &[SessionReads], session: u32) -> &[ReadNote]
    requires some { 0 < session }
    requires opened { session ≤ length lists.now }
    ensures { AreReadsOf lists.now session result.now }
{
    lists[session as usize - 1].notes.as_slice()
}

/// Adds the read to those of the session.
pub fn add_read(lists: &mut Vec<SessionReads>, session: u32, note: ReadNote) -> Result<(), Memory>
    requires some { 0 < session }
    requires opened { session ≤ length lists.old.items }
    ensures { OnOk result (ChangesReads lists.old.items session (λ before after. after ≡ before ++ note ∷ []) lists.new.items) }
{
    lists[session as usize - 1].notes.push(note)?;
    Ok(())
}

/// Leaves no read to the session, and the room that it has.
pub fn clear_reads(lists: &mut Vec<SessionReads>, session: u32)
    requires some { 0 < session }
    requires opened { session ≤ length lists.old.items }
    ensures { ChangesReads lists.old.items session (λ before after. after ≡ []) lists.new.items }
{
    lists[session as usize - 1].notes.clear();
}
