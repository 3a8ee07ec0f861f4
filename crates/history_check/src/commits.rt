// Which transactions have committed.
ghost use Rattle.std.specs.Prelude.{◌≡◌, ◌<◌, ◌≤◌, ◌-◌, ◌↔◌, ◌∷◌, ◌++◌, [], true, IsTrue, length, slice_set, OnOk};
ghost use Rattle.history_core.specs.Events.{begun};
ghost use Rattle.history_core.specs.Transactions.{IsCommitted};
ghost use Rattle.order_test.specs.Settled.{IsSettled};
ghost use Rattle.history_check.specs.Rules.{IsInShape};
ghost use Rattle.history_check.specs.Notes.{AreNotes, IsRunningOwner, StandsForCommits};

use crate::notes::Notes;
use crate::writers::owner_of;
use cell_base::Memory;
use history_core::Event;

/// Notes of the event what it changes for the flags of the transactions: one that begins hasn't committed, and at a commit the owner has.
pub fn note_commit(
    flags: &mut Vec<bool>,
    before: &[Event],
    event: &Event,
    owner: Option<u32>,
) -> Result<(), Memory>
    requires flags { StandsForCommits before.now flags.old.items }
    requires settled { IsSettled before.now }
    requires shape { IsInShape before.now event.now }
    requires owner { IsRunningOwner before.now event.now owner }
    ensures { OnOk result (StandsForCommits (before.now ++ event.now ∷ []) flags.new.items) }
{
    match event {
        Event::Begin { .. } => {
            flags.push(false)?;
            Ok(())
        }
        Event::Commit { .. } => {
            set_committed(flags, owner_of(before, event, owner));
            Ok(())
        }
        _ => Ok(()),
    }
}

/// Sets the flag of the transaction.
pub fn set_committed(flags: &mut Vec<bool>, number: u32)
    requires some { 0 < number }
    requires begun { number ≤ length flags.old.items }
    ensures { flags.new.items ≡ slice_set flags.old.items (number - 1) true }
{
    flags[number as usize - 1] = true;
}

/// Whether the transaction has committed.
pub fn is_committed(notes: &Notes, before: &[Event], number: u32) -> bool
    requires notes { AreNotes before.now notes.now }
    requires some { 0 < number }
    requires begun { number ≤ begun before.now }
    ensures { IsTrue result ↔ IsCommitted before.now number }
{
    notes.committed[number as usize - 1]
}
