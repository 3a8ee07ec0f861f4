// The place of an event that neither reads nor writes a cell.
ghost use Rattle.std.specs.Prelude.{◌≡◌, ◌<◌, ◌∷◌, ◌++◌, [], OnOk, IsTrue, length};
ghost use Rattle.cell_base.specs.declared.value.Value.TheVariants.{Unset};

use crate::noted_values::NotedValues;
use cell_base::Memory;

/// The greatest number of events: so the number of each value that is kept apart fits a note of four bytes (`packed_apart`).
pub const MOST_EVENTS: usize = 2_147_483_644;

/// Whether there is room for one event more.
pub fn has_room(values: &NotedValues) -> bool
    ensures { IsTrue result → length values.now < 2147483644 }
{
    values.len() < MOST_EVENTS
}

/// Notes an event that neither reads nor writes a cell.
pub fn note_place(of_events: &mut Vec<u32>, values: &mut NotedValues) -> Result<(), Memory>
    ensures number { OnOk result (of_events.new.items ≡ of_events.old.items ++ 0 ∷ []) }
    ensures value { OnOk result (values.new ≡ values.old ++ Unset ∷ []) }
{
    of_events.push(0)?;
    values.push_unset()?;
    Ok(())
}
