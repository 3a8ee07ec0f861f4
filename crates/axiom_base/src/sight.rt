// What the reads of one transaction see.
ghost use Rattle.std.specs.Prelude.{◌≡◌, ◌<◌, ◌+◌, ◌↔◌, ℕ, IsTrue, IfOk, length};
ghost use Rattle.order_witness.specs.Marks.{IsMarked};
ghost use Rattle.history_core.specs.Events.{begun};
ghost use Rattle.axiom_base.specs.Sights.{Sees, AreAllWith};

use cell_base::Memory;
use history_core::History;
use std::alloc::Global;

/// Since when the reads of one transaction see each transaction: those after the event of the number see it, and no read sees a transaction
/// that has none.
#[derive(Debug, Drop)]
pub struct Sight {
    /// The number of the event, for each transaction of the history from the initial one on; events are numbered from 1.
    pub since: Vec<Option<u32>>,
}

/// Whether the read that is the event of the number sees the transaction.
pub fn sees(sight: &Sight, number: u32, writer: u32) -> bool
    requires { writer < length sight.now.since.items }
    ensures { IsTrue result ↔ Sees sight.now.since.items number writer }
{
    match sight.since[writer as usize] {
        Some(event) => event < number,
        None => false,
    }
}

/// The transactions that the read which is the event of the number sees, ascending.
pub fn visible_by(
    alloc: Global,
    history: &History,
    sight: &Sight,
    number: u32,
) -> Result<Vec<u32>, Memory>
    requires { length sight.now.since.items ≡ begun history.now.events + 1 }
    ensures { IfOk result (λ writers. AreAllWith (Sees sight.now.since.items number) writers.items) }
{
    let mut writers = Vec::new(alloc);
    for writer in 0..history.begun() + 1 {
        if sees(sight, number, writer) {
            writers.push(writer)?;
        }
    }
    Ok(writers)
}

/// By this each read sees the marked transactions, and no others.
pub fn always_seen(alloc: Global, marks: &[bool]) -> Result<Sight, Memory>
    ensures size { IfOk result (λ sight. length sight.since.items ≡ length marks.now) }
    ensures exact { IfOk result (λ sight. (place writer : ℕ) → Sees sight.since.items (place + 1) writer ↔ IsMarked marks.now writer) }
{
    let since = marks
        .iter()
        .map(|mark| if *mark { Some(0) } else { None })
        .collect(alloc)?;
    Ok(Sight { since })
}
